//! A draining worker: soft interrupts until it is told to stop.

ghost use Rattle.std.specs.Prelude.{◌≡◌, IfOk, IfErr};
ghost use Rattle.cyc_types.specs.Levels.{as_level, handler_at};
ghost use Rattle.cyc_workers.specs.Draining.{ServesSide, IsRefusedCall, HasDrained};

use crate::signals::Signals;
use crate::watch::Watch;
use crossbeam_utils::sync::Parker;
use cyc_soft::{Ran, SoftRefused, SoftSide, softint};
use cyc_types::{Calls, Drain, Soft};
use std::snapshot::Snapshot;
use std::sync::Wait;
use std::thread::Promise;

/// The most handler calls between two questions whether the worker is to stop.
const BUDGET: u32 = 64;

/// What a draining worker leaves.
#[derive(Drop)]
pub struct Drained<D, C> {
    pub drain: D,
    pub calls: C,
    /// The handler that refused, which ended the worker.
    pub refused: Option<SoftRefused>,
    /// Its last question whether it is to stop. Where no handler refused, a look at the buffer was the last thing that it did
    /// after this.
    pub watch: Watch<D, C>,
}

/// The promise of a draining worker.
#[derive(Drop)]
pub struct Drains<D, C> {
    pub side: Snapshot<SoftSide<D, C>>,
    pub level: Soft,
}

impl<D: Drain, C: Calls> Promise<Drained<D, C>> for Drains<D, C> {
    ghost kept_by = { λ p r. HasDrained D.Drain (handler_at C.Calls (as_level p.level)) p.side.value r };
}

/// One soft interrupt.
fn serve<D: Drain, C: Calls>(side: &mut SoftSide<D, C>, level: Soft) -> Result<Ran, SoftRefused>
    ensures ran { IfOk result (λ r. ServesSide D.Drain (handler_at C.Calls (as_level level)) r.idle side.old side.new) }
    ensures refused { IfErr result (λ r. IsRefusedCall D.Drain (handler_at C.Calls (as_level level)) side.old r side.new) }
{
    softint(&mut side.drain, &mut side.calls, level, BUDGET)
}

/// Makes the calls of one soft level of a CPU (`cyclic_softint` of cyclic.c, as a thread), and sleeps where none is there.
///
/// It ends where it was told to stop and a look after that found nothing, or where a handler refused, which it tells the
/// others. It must be unparked after each raise and after it was told to stop. It takes no memory.
pub fn drain<W: Wait, D: Drain, C: Calls>(
    rt: &W,
    parker: &Parker,
    signals: &Signals<C>,
    level: Soft,
    side: SoftSide<D, C>,
) -> Drained<D, C>
    ensures { HasDrained D.Drain (handler_at C.Calls (as_level level)) side result }
{
    let mut side = side;
    for _ in rt.forever() {
        let watch = Watch::ask(&signals.told_to_stop(), &side);
        match serve(&mut side, level) {
            Ok(ran) => {
                if ran.idle {
                    if watch.is_told() {
                        return ended(side, None, watch);
                    }
                    watch.park(rt, parker, &side);
                }
            }
            Err(refused) => {
                signals.refuse(refused.id);
                return ended(side, Some(refused), watch);
            }
        }
    }
    unreachable!()
}

fn ended<D, C>(
    side: SoftSide<D, C>,
    refused: Option<SoftRefused>,
    watch: Watch<D, C>,
) -> Drained<D, C>
    ensures { result ≡ record { drain = side.drain; calls = side.calls; refused = refused; watch = watch } }
{
    let SoftSide { drain, calls } = side;
    Drained {
        drain,
        calls,
        refused,
        watch,
    }
}
