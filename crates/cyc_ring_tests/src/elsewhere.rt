//! Seats that go to a second thread, to a third, and back.

ghost use Rattle.std.specs.Prelude.{◌≤◌, length};
ghost use Rattle.cyc_ring.specs.Ends.{IsRaiseSeatOf, IsDrainSeatOf};

use crate::help::{Books, books, expect, open};
use crate::play::{Call, Differs, play};
use crate::rows::{Worked, closed_early, worked_rings};
use cyc_ring::{DrainSeat, Ring};
use cyc_ring_sides::firing_side::KnownSeat;
use std::alloc::Global;
use std::process::Abort;
use std::test::Fail;
use std::thread::{Threads, join};

/// Makes these calls in a fresh thread.
fn elsewhere<R: Threads>(
    rt: &R,
    ring: &Ring,
    raise_seat: KnownSeat,
    drain_seat: DrainSeat,
    calls: &[Call],
) -> (KnownSeat, DrainSeat, Differs)
    requires { IsRaiseSeatOf ring.now raise_seat.seat × IsDrainSeatOf ring.now drain_seat }
    ensures { IsRaiseSeatOf ring.now result.0.seat × IsDrainSeatOf ring.now result.1 }
{
    let (made, ()) = join(rt, || play(ring, raise_seat, drain_seat, calls), || ());
    made
}

/// Makes these calls: the first `k` here, those up to the `m`th in a second thread, the next one in a third, the rest here again.
fn goes_round<R: Threads>(
    rt: &R,
    ring: &Ring,
    raise_seat: KnownSeat,
    drain_seat: DrainSeat,
    calls: &[Call],
    k: usize,
    m: usize,
) -> (KnownSeat, DrainSeat, [Differs; 4])
    requires own { IsRaiseSeatOf ring.now raise_seat.seat × IsDrainSeatOf ring.now drain_seat }
    requires order { k ≤ m }
    requires within { m ≤ length calls.now }
    ensures { IsRaiseSeatOf ring.now result.0.seat × IsDrainSeatOf ring.now result.1 }
{
    let (first, others) = calls.split_at(k);
    let (second, rest) = others.split_at(m - k);
    let (third, last) = rest.split_at(rest.len().min(1));
    let (raise_seat, drain_seat, at_first) = play(ring, raise_seat, drain_seat, first);
    let (raise_seat, drain_seat, at_second) = elsewhere(rt, ring, raise_seat, drain_seat, second);
    let (raise_seat, drain_seat, at_third) = elsewhere(rt, ring, raise_seat, drain_seat, third);
    let (raise_seat, drain_seat, at_last) = play(ring, raise_seat, drain_seat, last);
    (
        raise_seat,
        drain_seat,
        [at_first, at_second, at_third, at_last],
    )
}

/// The calls that differ, and the books, where the seats go round so.
fn closed_after<R: Threads>(
    rt: &R,
    alloc: Global,
    worked: &Worked,
    k: usize,
    m: usize,
) -> Result<([Differs; 4], Books), Fail>
    requires order { k ≤ m }
    requires within { m ≤ length worked.now.calls.now }
{
    let (ring, raise_seat, drain_seat) = open(alloc, worked.ceiling, worked.start)?;
    let (raise_seat, drain_seat, differs) = goes_round(
        rt,
        &ring,
        raise_seat,
        drain_seat,
        worked.calls,
        k,
        m,
    );
    let closed = ring.close(raise_seat.seat(), drain_seat);
    Ok((differs, books(&closed)))
}

/// A worked ring whose seats go round at each two of its calls.
fn goes_every_way<R: Threads + Abort>(rt: &R, alloc: Global, worked: &Worked) -> Result<(), Fail> {
    for k in 0..worked.calls.len() + 1 {
        for m in k..worked.calls.len() + 1 {
            let found = closed_after(rt, alloc, worked, k, m)?;
            expect(rt, found, ([None; 4], worked.books));
        }
    }
    Ok(())
}

// Wherever the two sides stop, a second thread goes on with their seats, then a third and then the first one again, to the same
// answers and books, also where the ring is closed early.
#[test]
fn seats_go_to_a_third_thread_and_back(rt: HostRuntime) -> Result<(), Fail> {
    for worked in &worked_rings() {
        goes_every_way(&rt, rt.alloc(), worked)?;
    }
    for worked in &closed_early() {
        goes_every_way(&rt, rt.alloc(), worked)?;
    }
    Ok(())
}
