//! Seats that go on in another thread, after each call.

ghost use Rattle.std.specs.Prelude.{◌≤◌, length};
ghost use Rattle.cyc_ring.specs.Ends.{IsRaiseSeatOf, IsDrainSeatOf};

use crate::handlers::RefusesFirst;
use crate::help::{Books, Counts, books, expect, id, open};
use crate::play::{Call, Differs, play};
use crate::rows::{Worked, worked_rings};
use cyc_ring::{DrainSeat, Ring};
use cyc_ring_sides::firing_side::KnownSeat;
use cyc_ring_sides::soft_side::SoftSide;
use cyc_soft::{Ran, SoftRefused};
use cyc_types::{CyclicId, Raised, Tally};
use std::alloc::Global;
use std::test::Fail;
use std::thread::{Threads, join};

/// Makes these calls, those after the first `k` in a fresh thread.
fn handed_over<R: Threads>(
    rt: &R,
    ring: &Ring,
    raise_seat: KnownSeat,
    drain_seat: DrainSeat,
    calls: &[Call],
    k: usize,
) -> (KnownSeat, DrainSeat, [Differs; 2])
    requires own { IsRaiseSeatOf ring.now raise_seat.seat × IsDrainSeatOf ring.now drain_seat }
    requires within { k ≤ length calls.now }
    ensures { IsRaiseSeatOf ring.now result.0.seat × IsDrainSeatOf ring.now result.1 }
{
    let (first, rest) = calls.split_at(k);
    let (raise_seat, drain_seat, before) = play(ring, raise_seat, drain_seat, first);
    let ((raise_seat, drain_seat, after), ()) = join(
        rt,
        || play(ring, raise_seat, drain_seat, rest),
        || (),
    );
    (raise_seat, drain_seat, [before, after])
}

/// The calls that differ, and the books, where another thread goes on after the first `k` calls.
fn closed_after<R: Threads>(
    rt: &R,
    alloc: Global,
    worked: &Worked,
    k: usize,
) -> Result<([Differs; 2], Books), Fail>
    requires { k ≤ length worked.now.calls.now }
{
    let (ring, raise_seat, drain_seat) = open(alloc, worked.ceiling, worked.start)?;
    let (raise_seat, drain_seat, differs) = handed_over(
        rt,
        &ring,
        raise_seat,
        drain_seat,
        worked.calls,
        k,
    );
    let closed = ring.close(raise_seat.seat(), drain_seat);
    Ok((differs, books(&closed)))
}

// Wherever the two sides stop, another thread goes on with their seats, to the same answers and books.
#[test]
fn seats_go_on_in_another_thread(rt: HostRuntime) -> Result<(), Fail> {
    for worked in &worked_rings() {
        for k in 0..worked.calls.len() + 1 {
            let found = closed_after(&rt, rt.alloc(), worked, k)?;
            expect(&rt, found, ([None, None], worked.books));
        }
    }
    Ok(())
}

const THREE_PENDING: [Call; 4] = [
    Call::Admit(1, 0),
    Call::Raise(1, Raised::First),
    Call::Raise(1, Raised::More),
    Call::Raise(1, Raised::More),
];

/// A soft interrupt with a budget of one call.
fn makes_one(
    ring: &Ring,
    drain_seat: DrainSeat,
    mut tally: Tally,
) -> (DrainSeat, Result<Ran, SoftRefused>)
    requires { IsDrainSeatOf ring.now drain_seat }
    ensures { IsDrainSeatOf ring.now result.0 }
{
    let mut end = SoftSide::new(ring, drain_seat);
    let ran = end.softint(&mut tally, 1);
    (end.into_seat(), ran)
}

/// What a soft side met whose handlers refuse their first call: its hand, and the answer of a soft interrupt, twice.
#[derive(Clone, Copy, Debug, PartialEq, Eq)]
struct Met {
    hand: Option<CyclicId>,
    refused: Result<Ran, SoftRefused>,
    hand_then: Option<CyclicId>,
    ran: Result<Ran, SoftRefused>,
}

fn meets(ring: &Ring, drain_seat: DrainSeat, mut calls: RefusesFirst) -> (DrainSeat, Met)
    requires { IsDrainSeatOf ring.now drain_seat }
    ensures { IsDrainSeatOf ring.now result.0 }
{
    let mut end = SoftSide::new(ring, drain_seat);
    let hand = end.hand();
    let refused = end.softint(&mut calls, 8);
    let hand_then = end.hand();
    let ran = end.softint(&mut calls, 8);
    let met = Met {
        hand,
        refused,
        hand_then,
        ran,
    };
    (end.into_seat(), met)
}

fn meets_elsewhere<R: Threads>(
    rt: &R,
    ring: &Ring,
    drain_seat: DrainSeat,
    calls: RefusesFirst,
) -> (DrainSeat, Met)
    requires { IsDrainSeatOf ring.now drain_seat }
    ensures { IsDrainSeatOf ring.now result.0 }
{
    let (met, ()) = join(rt, || meets(ring, drain_seat, calls), || ());
    met
}

/// The book of a ring with three expirations of one cyclic, of which a soft interrupt with a budget of one call made one.
fn stopped(alloc: Global, tally: Tally) -> Result<(Result<Ran, SoftRefused>, Books), Fail> {
    let (ring, raise_seat, drain_seat) = open(alloc, 5, 0)?;
    let (raise_seat, drain_seat, _) = play(&ring, raise_seat, drain_seat, &THREE_PENDING);
    let (drain_seat, ran) = makes_one(&ring, drain_seat, tally);
    let closed = ring.close(raise_seat.seat(), drain_seat);
    Ok((ran, books(&closed)))
}

/// The same ring after the soft side has gone on in another thread.
fn went_on<R: Threads>(
    rt: &R,
    alloc: Global,
    tally: Tally,
    calls: RefusesFirst,
) -> Result<(Met, Books), Fail> {
    let (ring, raise_seat, drain_seat) = open(alloc, 5, 0)?;
    let (raise_seat, drain_seat, _) = play(&ring, raise_seat, drain_seat, &THREE_PENDING);
    let (drain_seat, _) = makes_one(&ring, drain_seat, tally);
    let (drain_seat, met) = meets_elsewhere(rt, &ring, drain_seat, calls);
    let closed = ring.close(raise_seat.seat(), drain_seat);
    Ok((met, books(&closed)))
}

// A soft interrupt that stops keeps the cyclic in hand, whose call is the next in another thread too. The books say so: one call
// is done and two are outstanding, and then all three are done.
#[test]
fn a_hand_goes_on_in_another_thread(rt: HostRuntime) -> Result<(), Fail> {
    let one = id(1)?;
    let ran = Ok(Ran {
        calls: 1,
        idle: false,
    });
    let book = Counts {
        done: 1,
        count: 2,
        ..Counts::done(1, 3, 0)
    };
    let found = stopped(rt.alloc(), Tally::new(rt.alloc(), one, 1, 100)?)?;
    expect(&rt, found, (ran, [Some(book), None]));
    let calls = RefusesFirst::new(Tally::new(rt.alloc(), one, 1, 100)?);
    let found = went_on(&rt, rt.alloc(), Tally::new(rt.alloc(), one, 1, 100)?, calls)?;
    let met = Met {
        hand: Some(one),
        refused: Err(SoftRefused { id: one, calls: 0 }),
        hand_then: Some(one),
        ran: Ok(Ran {
            calls: 2,
            idle: true,
        }),
    };
    expect(&rt, found, (met, [Some(Counts::done(1, 3, 0)), None]));
    Ok(())
}
