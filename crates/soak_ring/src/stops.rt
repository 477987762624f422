//! Rounds in which both threads stop again and again, wherever they are, and others go on with their seats.
ghost use Rattle.std.specs.Prelude.{◌≡◌};
ghost use Rattle.cyc_ring.specs.Ends.{IsRaiseSeatOf, IsDrainSeatOf};

use crate::ledger::Ledger;
use crate::rounds::both;
use cyc_ring::{DrainSeat, Ring};
use cyc_ring_sides::firing_side::KnownSeat;
use cyc_types::Tally;
use std::thread::Threads;

/// The stops of a round.
const STOPS: u64 = 200;

/// Numbers that look random, the same for the same seed (xorshift).
#[derive(Clone, Copy)]
pub(crate) struct Random {
    state: u64,
}

impl Random {
    pub(crate) fn of(seed: u64) -> Random {
        Random { state: seed | 1 }
    }

    fn next(&mut self) -> u64 {
        let mut x = self.state;
        x ^= x << 13;
        x ^= x >> 7;
        x ^= x << 17;
        self.state = x;
        x
    }
}

/// Both threads stop so often, each time after a few calls, and two others go on.
pub(crate) fn stop_often<R: Threads>(
    rt: &R,
    ring: &Ring,
    raise_seat: (KnownSeat, Ledger),
    drain_seat: (DrainSeat, Tally),
    mut random: Random,
) -> ((KnownSeat, Ledger), (DrainSeat, Tally))
    requires { IsRaiseSeatOf ring.now raise_seat.0.seat × IsDrainSeatOf ring.now drain_seat.0 }
    ensures { IsRaiseSeatOf ring.now result.0.0.seat × IsDrainSeatOf ring.now result.1.0 }
{
    let mut sides = (raise_seat, drain_seat);
    for stop in 0..STOPS {
        let (raise_seat, drain_seat) = sides;
        sides = both(rt, ring, raise_seat, drain_seat, random.next() % 64);
    }
    sides
}
