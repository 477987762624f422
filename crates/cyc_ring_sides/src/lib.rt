//! The two sides of a ring for tests and programs that run one: calls that refuse where they are not allowed, and seats that go
//! on with what is known of them.
#![tactic(auto)]

ghost use Rattle.std.specs.Prelude.{IfOk};
ghost use Rattle.cyc_ring.specs.Ends.{IsRaiseSeatOf, IsDrainSeatOf};

pub mod firing_side;
pub mod soft_side;

use crate::firing_side::KnownSeat;
use cyc_ring::{DrainSeat, Ring};
use cyc_types::{Ceiling, Refusal};
use std::alloc::Global;

/// A new ring and its two seats, as `Ring::open`.
pub fn open(
    alloc: Global,
    ceiling: Ceiling,
    start: u32,
) -> Result<(Ring, KnownSeat, DrainSeat), Refusal>
    ensures { IfOk result (λ r. IsRaiseSeatOf r.0 r.1.seat × IsDrainSeatOf r.0 r.2) }
{
    let (ring, raise_seat, drain_seat) = Ring::open(alloc, ceiling, start)?;
    Ok((ring, KnownSeat::new(raise_seat), drain_seat))
}
