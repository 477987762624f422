//! The greatest bank, filled and emptied.

ghost use Rattle.std.specs.Prelude.{◌≡◌};
ghost use Rattle.cyc_ring.specs.Ends.{IsRaiseSeatOf, IsDrainSeatOf};

use crate::help::{Counts, book, expect, open};
use cyc_ring::{Closed, DrainSeat, Ring};
use cyc_ring_sides::firing_side::{FiringSide, KnownSeat, NotAllowed};
use cyc_ring_sides::soft_side::SoftSide;
use cyc_types::{CYCLICS, CyclicId, Finished, GREATEST_BANK, Index, Raised};
use std::alloc::Global;
use std::test::Fail;

fn id_at(index: u16) -> Result<CyclicId, NotAllowed> {
    CyclicId::new(index as u64 + 1).ok_or(NotAllowed)
}

/// Switches to the greatest bank, and admits an id at each index.
fn fill(firing_side: &mut FiringSide) -> Result<(), NotAllowed>
    ensures { firing_side.new.ring.now ≡ firing_side.old.ring.now }
{
    firing_side.expand(GREATEST_BANK)?;
    for i in 0..CYCLICS {
        firing_side.admit(id_at(i)?, Index::new(i).ok_or(NotAllowed)?)?;
    }
    Ok(())
}

/// Raises each id once, so that the buffer is full: whether each was its cyclic's first outstanding call.
fn raise_each(firing_side: &mut FiringSide) -> Result<bool, NotAllowed>
    ensures { firing_side.new.ring.now ≡ firing_side.old.ring.now }
{
    let mut first = true;
    for i in 0..CYCLICS {
        let raised = firing_side.raise(id_at(i)?)?;
        first = first && raised == Raised::First;
    }
    Ok(first)
}

/// Takes and finishes all calls of a full buffer: whether they came in the order of their raises.
fn serve_each(soft_side: &mut SoftSide) -> Result<bool, NotAllowed>
    ensures { soft_side.new.ring.now ≡ soft_side.old.ring.now }
{
    let mut in_order = true;
    for i in 0..CYCLICS {
        let taken = soft_side.take()?;
        in_order = in_order && taken == Some(id_at(i)?) && soft_side.finish()? == Finished::Last;
    }
    Ok(in_order)
}

/// Fills the greatest bank and empties it, three times.
fn rounds(firing_side: &mut FiringSide, soft_side: &mut SoftSide) -> Result<bool, NotAllowed>
    ensures firing_side { firing_side.new.ring.now ≡ firing_side.old.ring.now }
    ensures soft_side { soft_side.new.ring.now ≡ soft_side.old.ring.now }
{
    let mut right = true;
    fill(firing_side)?;
    for round in 0..3u8 {
        right = right && raise_each(firing_side)? && serve_each(soft_side)?;
    }
    Ok(right && firing_side.followed())
}

fn goes_round(
    ring: &Ring,
    raise_seat: KnownSeat,
    drain_seat: DrainSeat,
) -> (KnownSeat, DrainSeat, bool)
    requires { IsRaiseSeatOf ring.now raise_seat.seat × IsDrainSeatOf ring.now drain_seat }
    ensures { IsRaiseSeatOf ring.now result.0.seat × IsDrainSeatOf ring.now result.1 }
{
    let mut firing_side = FiringSide::new(ring, raise_seat);
    let mut end = SoftSide::new(ring, drain_seat);
    let right = rounds(&mut firing_side, &mut end) == Ok(true);
    (firing_side.into_seat(), end.into_seat(), right)
}

/// Whether each index has a book of three calls that are done.
fn three_each(closed: &Closed) -> bool {
    (0..CYCLICS).all(|i| book(closed, i) == Some(Counts::done(i as u64 + 1, 3, 0)))
}

fn closed_after(alloc: Global, start: u32) -> Result<(bool, bool), Fail> {
    let (ring, raise_seat, drain_seat) = open(alloc, 1, start)?;
    let (raise_seat, drain_seat, right) = goes_round(&ring, raise_seat, drain_seat);
    let closed = ring.close(raise_seat.seat(), drain_seat);
    Ok((right, three_each(&closed)))
}

// All cyclics that a ring can have are pending at once, in the greatest bank, whose indexes wrap in the second round.
#[test]
fn the_greatest_bank_holds_all_cyclics(rt: HostRuntime) -> Result<(), Fail> {
    let found = closed_after(rt.alloc(), 4294963156)?;
    expect(&rt, found, (true, true));
    Ok(())
}
