//! A firing and a draining thread on one ring.

ghost use Rattle.cyc_ring.specs.Ends.{IsRaiseSeatOf, IsDrainSeatOf};

use crate::help::{Counts, book, expect, id, open};
use crate::play::{Call, play};
use cyc_ring::{DrainSeat, Ring};
use cyc_ring_sides::firing_side::{FiringSide, KnownSeat, NotAllowed};
use cyc_ring_sides::soft_side::SoftSide;
use cyc_types::{CyclicId, Raised};
use std::alloc::Global;
use std::sync::atomic::{AtomicBool, Ordering};
use std::test::Fail;
use std::thread::{Threads, join, yield_now};

/// Raises the id this many times.
fn raise_times(ring: &Ring, raise_seat: KnownSeat, id: CyclicId, times: u32) -> KnownSeat
    requires { IsRaiseSeatOf ring.now raise_seat.seat }
    ensures { IsRaiseSeatOf ring.now result.seat }
{
    let mut firing_side = FiringSide::new(ring, raise_seat);
    for raised in 0..times {
        let _ = firing_side.raise(id);
    }
    firing_side.into_seat()
}

/// Takes and finishes until so many calls are finished or so many turns are made.
fn drain_until(ring: &Ring, drain_seat: DrainSeat, finishes: u32, turns: u32) -> (DrainSeat, u32)
    requires { IsDrainSeatOf ring.now drain_seat }
    ensures { IsDrainSeatOf ring.now result.0 }
{
    let mut end = SoftSide::new(ring, drain_seat);
    let mut finished = 0;
    for turn in 0..turns {
        if finished >= finishes {
            break;
        }
        match end.finish() {
            Ok(_) => finished += 1,
            Err(NotAllowed) => {
                let _ = end.take();
            }
        }
    }
    (end.into_seat(), finished)
}

fn both<R: Threads>(
    rt: &R,
    ring: &Ring,
    raise_seat: KnownSeat,
    drain_seat: DrainSeat,
    id: CyclicId,
) -> (KnownSeat, (DrainSeat, u32))
    requires { IsRaiseSeatOf ring.now raise_seat.seat × IsDrainSeatOf ring.now drain_seat }
    ensures { IsRaiseSeatOf ring.now result.0.seat × IsDrainSeatOf ring.now result.1.0 }
{
    join(
        rt,
        || raise_times(ring, raise_seat, id, 1_000),
        || drain_until(ring, drain_seat, 1_000, 10_000_000),
    )
}

/// The finishes of the draining thread and the book, after 1000 raises of a cyclic.
fn after_raises<R: Threads>(
    rt: &R,
    alloc: Global,
    id: CyclicId,
) -> Result<(u32, Option<Counts>), Fail> {
    let (ring, raise_seat, drain_seat) = open(alloc, 4294967295, 0)?;
    let (raise_seat, drain_seat, _) = play(&ring, raise_seat, drain_seat, &[Call::Admit(1, 0)]);
    let (raise_seat, (drain_seat, finished)) = both(rt, &ring, raise_seat, drain_seat, id);
    let closed = ring.close(raise_seat.seat(), drain_seat);
    Ok((finished, book(&closed, 0)))
}

// One thread raises, another drains, and the closed ring has each expiration.
#[test]
fn ring_two_threads(rt: HostRuntime) -> Result<(), Fail> {
    let (finished, book) = after_raises(&rt, rt.alloc(), id(1)?)?;
    let wanted = Counts {
        done: finished as u64,
        count: 1_000u32.wrapping_sub(finished),
        ..Counts::done(1, 1_000, 0)
    };
    expect(&rt, book, Some(wanted));
    Ok(())
}

/// Looks whether the soft side has followed: before it is let go on, and then until it has or so many looks are made.
fn looks(
    ring: &Ring,
    raise_seat: KnownSeat,
    go: &AtomicBool,
    looks: u64,
) -> (KnownSeat, (bool, bool))
    requires { IsRaiseSeatOf ring.now raise_seat.seat }
    ensures { IsRaiseSeatOf ring.now result.0.seat }
{
    let mut firing_side = FiringSide::new(ring, raise_seat);
    let before = firing_side.followed();
    go.store(true, Ordering::SeqCst);
    let mut after = false;
    for look in 0..looks {
        if after {
            break;
        }
        after = firing_side.followed();
        yield_now();
    }
    (firing_side.into_seat(), (before, after))
}

/// Waits until it may go on, or so many looks are made, and takes and finishes.
fn follows(ring: &Ring, drain_seat: DrainSeat, go: &AtomicBool, looks: u64) -> DrainSeat
    requires { IsDrainSeatOf ring.now drain_seat }
    ensures { IsDrainSeatOf ring.now result }
{
    for look in 0..looks {
        if go.load(Ordering::SeqCst) {
            break;
        }
        yield_now();
    }
    let (drain_seat, _) = drain_until(ring, drain_seat, 2, 100);
    drain_seat
}

fn looks_and_follows<R: Threads>(
    rt: &R,
    ring: &Ring,
    raise_seat: KnownSeat,
    drain_seat: DrainSeat,
) -> (KnownSeat, DrainSeat, (bool, bool))
    requires { IsRaiseSeatOf ring.now raise_seat.seat × IsDrainSeatOf ring.now drain_seat }
    ensures { IsRaiseSeatOf ring.now result.0.seat × IsDrainSeatOf ring.now result.1 }
{
    let go = AtomicBool::new(false);
    let (looked, drain_seat) = join(
        rt,
        || looks(ring, raise_seat, &go, 50_000_000),
        || follows(ring, drain_seat, &go, 50_000_000),
    );
    let (raise_seat, followed) = looked;
    (raise_seat, drain_seat, followed)
}

const SWITCHING: [Call; 3] = [
    Call::Admit(1, 0),
    Call::Raise(1, Raised::First),
    Call::Expand(3),
];

fn after_switch<R: Threads>(rt: &R, alloc: Global) -> Result<((bool, bool), Option<Counts>), Fail> {
    let (ring, raise_seat, drain_seat) = open(alloc, 4294967295, 0)?;
    let (raise_seat, drain_seat, _) = play(&ring, raise_seat, drain_seat, &SWITCHING);
    let (raise_seat, drain_seat, followed) = looks_and_follows(rt, &ring, raise_seat, drain_seat);
    let closed = ring.close(raise_seat.seat(), drain_seat);
    Ok((followed, book(&closed, 0)))
}

// The firing side sees in its thread that the soft side, which drains the old bank in another, has followed, and not before.
#[test]
fn the_other_thread_follows(rt: HostRuntime) -> Result<(), Fail> {
    let found = after_switch(&rt, rt.alloc())?;
    expect(&rt, found, ((false, true), Some(Counts::done(1, 1, 0))));
    Ok(())
}
