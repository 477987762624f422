//! A CPU between threads: its firing side, its soft sides and its books.

ghost use Rattle.std.specs.Prelude.{◌≡◌, None, false, IfSome, IfOk, IfErr};
ghost use Rattle.cyc_types.specs.declared.refusal.Refusal.TheVariants.{Memory};
ghost use Rattle.cyc_border.specs.Pair.{FiresSide, IsNewPair, IsClosedOf, SameRings};

use crate::calling::fire;
use crate::held::HeldEnd;
use crate::soft_side::SoftSide;
use cyc_cpu::Hard;
use cyc_ring::{Closed, Ring};
use cyc_timers::{FireRefused, Fired};
use cyc_types::{Ceiling, CyclicId, Moment, Refusal};
use std::alloc::Global;
use std::sync::Arc;

/// The firing side of a CPU whose soft sides other threads have.
#[derive(Drop)]
pub struct Firing {
    pub hard: Hard<HeldEnd>,
    /// The high cyclic that is handed out: the last fire stopped in front of it, but for those that were refused at once.
    pub high: Option<CyclicId>,
}

/// The books of the two soft levels of a CPU that was closed.
#[derive(Drop)]
pub struct Books {
    pub lock: Closed,
    pub low: Closed,
}

/// Room for the books, whose memory is taken before the CPU is closed.
#[derive(Drop)]
pub struct Shelf {
    pub books: Option<Books>,
}

/// The two sides of a new ring, which they share.
fn sides(alloc: Global, ceiling: Ceiling) -> Result<(HeldEnd, SoftSide), Refusal>
    ensures ok { IfOk result (λ s. IsNewPair ceiling s.0 s.1) }
    ensures err { IfErr result (λ e. e ≡ Memory) }
{
    let (ring, raise_seat, drain_seat) = Ring::open(alloc, ceiling, 0)?;
    let ring = Arc::new(alloc, ring)?;
    let shared = Arc::try_clone(&ring)?;
    Ok((
        HeldEnd {
            ring,
            seat: Some(raise_seat),
        },
        SoftSide {
            ring: shared,
            seat: Some(drain_seat),
        },
    ))
}

/// The books of a ring whose two sides come back.
fn join(end: HeldEnd, soft: SoftSide) -> Option<Closed>
    requires { end.ring.value ≡ soft.ring.value }
    ensures { IfSome result (λ c. IsClosedOf end.seat soft.seat c) }
{
    let HeldEnd { ring, seat } = end;
    let SoftSide {
        ring: shared,
        seat: other,
    } = soft;
    let raise_seat = seat.unwrap();
    let drain_seat = other.unwrap();
    drop(shared);
    let ring = Arc::into_inner(ring)?;
    Some(ring.close(raise_seat, drain_seat))
}

/// The three handles of a new CPU.
pub fn opened(
    alloc: Global,
    ceiling: Ceiling,
    most: u64,
) -> Result<(Firing, SoftSide, SoftSide), Refusal>
    ensures ok { IfOk result (λ r. IsNewPair ceiling r.0.hard.lock r.1 × IsNewPair ceiling r.0.hard.low r.2
        × (r.0.hard.most ≡ most) × (r.0.hard.suspended ≡ false) × (r.0.high ≡ None)) }
    ensures err { IfErr result (λ e. e ≡ Memory) }
{
    let (lock, lock_soft) = sides(alloc, ceiling)?;
    let (low, low_soft) = sides(alloc, ceiling)?;
    let hard = Hard::new(alloc, most, lock, low)?;
    Ok((Firing { hard, high: None }, lock_soft, low_soft))
}

/// The books of a CPU whose three handles come back. None where another handle of a ring is still about.
pub fn closed(firing: Firing, lock: SoftSide, low: SoftSide) -> Option<Books>
    requires { SameRings firing lock low }
    ensures { IfSome result (λ b. IsClosedOf firing.hard.lock.seat lock.seat b.lock
        × IsClosedOf firing.hard.low.seat low.seat b.low) }
{
    let Firing { hard, high: _ } = firing;
    let (lock_end, low_end) = hard.into_ends();
    let lock = join(lock_end, lock);
    let low = join(low_end, low);
    Some(Books {
        lock: lock?,
        low: low?,
    })
}

impl Firing {
    /// Makes the expirations that are due, up to the next high one. Refuses as `calling::fire` does.
    pub fn fire(&mut self, now: Moment) -> Result<Fired, FireRefused>
        ensures { FiresSide now result self.old self.new }
    {
        fire(&mut self.hard, &mut self.high, now)
    }
}
