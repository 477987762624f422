//! The wait until a CPU has settled, and until each of several has.

ghost use Rattle.std.specs.Prelude.{◌≡◌, ◌<◌, Some, length, IfNone, IfSome};
ghost use Rattle.std.specs.List.{slice_get};
ghost use Rattle.cyc_cpu.specs.Cpu.{CpuView};
ghost use Rattle.cyc_cpu.specs.Moving.{IsSettled};
ghost use Rattle.cyc_workers.specs.Refusals.{CanRefuse};
ghost use Rattle.cyc_workers.specs.Settling.{AsksSettled, Settles};
ghost use Rattle.cyc_workers.specs.Settled.{AllAsked, AllSettled, AsksAt};

use crate::signals::Signals;
use crate::wakers::Wakers;
use cyc_cpu::Hard;
use cyc_types::{Calls, CyclicId, Raise};
use std::alloc::Global;
use std::sync::{Arc, Wait};
use std::thread;

fn ask<R: Raise>(hard: &mut Hard<R>) -> bool
    ensures { AsksSettled R.Raise hard.old result hard.new }
{
    let answer = hard.settled();
    hard.law();
    answer
}

/// Waits until a CPU has settled: no call of it is outstanding, both its soft sides have followed and no removal is open (our
/// own rule). Between two questions it wakes the draining workers of both soft levels. The answer is None then, and else a cyclic
/// whose handler refused before.
/// It takes no memory.
pub fn settle<W: Wait, R: Raise, C: Calls>(
    rt: &W,
    hard: &mut Hard<R>,
    wakers: &Wakers,
    signals: &Signals<C>,
) -> Option<CyclicId>
    ensures asked { Settles R.Raise hard.old hard.new }
    ensures settled { IfNone result (IsSettled R.view hard.new) }
    ensures refused { IfSome result (λ id. CanRefuse C.may_refuse id) }
{
    for _ in rt.forever() {
        if ask(hard) {
            return None;
        }
        if let Some(id) = signals.refused() {
            return Some(id);
        }
        wakers.wake();
        thread::yield_now();
    }
    unreachable!()
}

/// The handlers of the high level of a CPU, and what wakes its draining workers.
#[derive(Drop)]
pub struct Lead<C> {
    pub calls: C,
    pub wakers: Arc<Wakers, Global>,
}

/// Waits until the CPU at this position has settled.
fn settle_at<W: Wait, R: Raise, C: Calls>(
    rt: &W,
    all: &mut Vec<Hard<R>>,
    position: usize,
    wakers: &Wakers,
    signals: &Signals<C>,
) -> Option<CyclicId>
    requires { position < length all.old.items }
    ensures asked { AsksAt R.Raise position all.old.items all.new.items }
    ensures settled { IfNone result ((y : CpuView _) → slice_get all.new.items position ≡ Some y → IsSettled R.view y) }
    ensures refused { IfSome result (λ id. CanRefuse C.may_refuse id) }
{
    settle(rt, &mut all[position], wakers, signals)
}

/// Waits until every CPU has settled: no call of it is outstanding, both its soft sides have followed and no removal is open (our
/// own rule). It asks one CPU after another, and between two questions wakes the draining workers of the CPU that has not settled
/// yet: what one has told stays true while the others are asked (`settling_law` of cyc_cpu_laws). The answer is None then, and
/// else a cyclic whose handler refused before. It takes no memory.
pub fn settle_all<W: Wait, R: Raise, C: Calls>(
    rt: &W,
    all: &mut Vec<Hard<R>>,
    leads: &[Lead<C>],
    signals: &Signals<C>,
) -> Option<CyclicId>
    requires { length leads.now ≡ length all.old.items }
    ensures asked { AllAsked R.Raise all.old.items all.new.items }
    ensures settled { IfNone result (AllSettled R.view all.new.items) }
    ensures refused { IfSome result (λ id. CanRefuse C.may_refuse id) }
{
    for position in 0..leads.len() {
        if let Some(id) = settle_at(rt, all, position, &leads[position].wakers, signals) {
            return Some(id);
        }
    }
    None
}
