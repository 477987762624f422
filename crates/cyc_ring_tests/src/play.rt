//! Calls at both sides of a ring as a table, each with the answer that it must have.
ghost use Rattle.std.specs.Prelude.{◌≡◌};
ghost use Rattle.cyc_ring.specs.Ends.{IsRaiseSeatOf, IsDrainSeatOf};

use cyc_ring::{DrainSeat, Ring};
use cyc_ring_sides::firing_side::{FiringSide, KnownSeat, NotAllowed};
use cyc_ring_sides::soft_side::SoftSide;
use cyc_types::{CyclicId, Finished, Index, Raised, Sent};

/// A call with its answer; ids and indexes by their numbers.
#[derive(Clone, Copy)]
pub(crate) enum Call {
    Admit(u64, u16),
    Load(u64, u32),
    Raise(u64, Raised),
    Mark(u64, u32),
    PollClear(u64, Option<Sent>),
    Expand(u8),
    Followed(bool),
    /// `Raise::sent`
    Counts(u64, Sent),
    Take(Option<u64>),
    Finish(Finished),
}

/// The first call, counted from 0, that was not allowed or had another answer.
pub(crate) type Differs = Option<usize>;

// A call about one cyclic; whether it had its answer.
fn asks(firing_side: &mut FiringSide, id: CyclicId, call: Call) -> bool
    ensures { firing_side.new.ring.now ≡ firing_side.old.ring.now }
{
    match call {
        Call::Admit(_, index) => match Index::new(index) {
            Some(index) => firing_side.admit(id, index) == Ok(()),
            None => false,
        },
        Call::Load(_, want) => firing_side.load_pend(id) == Ok(want),
        Call::Raise(_, want) => firing_side.raise(id) == Ok(want),
        Call::Mark(_, want) => firing_side.mark(id) == Ok(want),
        Call::PollClear(_, want) => firing_side.poll_clear(id) == Ok(want),
        Call::Counts(_, want) => firing_side.sent(id) == Ok(want),
        _ => false,
    }
}

// The cyclic that a call is about.
fn cyclic_of(call: Call) -> Option<CyclicId> {
    match call {
        Call::Admit(id, _)
        | Call::Load(id, _)
        | Call::Raise(id, _)
        | Call::Mark(id, _)
        | Call::PollClear(id, _)
        | Call::Counts(id, _) => CyclicId::new(id),
        Call::Expand(_) | Call::Followed(_) | Call::Take(_) | Call::Finish(_) => None,
    }
}

// The number of the cyclic that was taken.
fn taken(soft_side: &mut SoftSide) -> Result<Option<u64>, NotAllowed>
    ensures { soft_side.new.ring.now ≡ soft_side.old.ring.now }
{
    match soft_side.take()? {
        Some(id) => Ok(Some(id.number())),
        None => Ok(None),
    }
}

// A call of either side; whether it had its answer.
fn has_answer(firing_side: &mut FiringSide, soft_side: &mut SoftSide, call: Call) -> bool
    ensures firing_side { firing_side.new.ring.now ≡ firing_side.old.ring.now }
    ensures soft_side { soft_side.new.ring.now ≡ soft_side.old.ring.now }
{
    match call {
        Call::Expand(bank) => firing_side.expand(bank) == Ok(()),
        Call::Followed(want) => firing_side.followed() == want,
        Call::Take(want) => taken(soft_side) == Ok(want),
        Call::Finish(want) => soft_side.finish() == Ok(want),
        _ => match cyclic_of(call) {
            Some(id) => asks(firing_side, id, call),
            None => false,
        },
    }
}

// Makes these calls in order, up to the first that differs.
fn makes(firing_side: &mut FiringSide, soft_side: &mut SoftSide, calls: &[Call]) -> Differs
    ensures firing_side { firing_side.new.ring.now ≡ firing_side.old.ring.now }
    ensures soft_side { soft_side.new.ring.now ≡ soft_side.old.ring.now }
{
    for (i, call) in calls.iter().enumerate() {
        if !has_answer(firing_side, soft_side, *call) {
            return Some(i);
        }
    }
    None
}

/// Goes on with the seats of a ring by these calls, up to the first that differs.
pub(crate) fn play(
    ring: &Ring,
    raise_seat: KnownSeat,
    drain_seat: DrainSeat,
    calls: &[Call],
) -> (KnownSeat, DrainSeat, Differs)
    requires { IsRaiseSeatOf ring.now raise_seat.seat × IsDrainSeatOf ring.now drain_seat }
    ensures { IsRaiseSeatOf ring.now result.0.seat × IsDrainSeatOf ring.now result.1 }
{
    let mut firing_side = FiringSide::new(ring, raise_seat);
    let mut end = SoftSide::new(ring, drain_seat);
    let differs = makes(&mut firing_side, &mut end, calls);
    (firing_side.into_seat(), end.into_seat(), differs)
}
