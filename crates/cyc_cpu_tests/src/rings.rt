//! CPUs over two rings, and the tests of them.
ghost use Rattle.std.specs.Prelude.{◌≡◌, ◌-◌, ◌^◌, []};
ghost use Rattle.cyc_ring.specs.Ends.{IsRaiseSeatOf, IsDrainSeatOf, raise_trail};

use crate::ends_moving::there_and_back;
use crate::help::{cpu, id, open, raise_end};
use crate::over_a_ring::drains_the_old_bank;
use crate::ring_removing::{drains_both, keeps_its_calls};
use cyc_cpu::Hard;
use cyc_ring::{DrainEnd, DrainSeat, RaiseSeat, Ring};
use cyc_types::{Raise, Tally};
use std::alloc::Global;
use std::process::Abort;
use std::test::Fail;

/// What a test does with a CPU over two rings of ceiling 2, all of whose counts are 0.
#[derive(Clone, Copy)]
enum Scenario {
    OldBank,
    Moves,
    Removal,
    LockRing,
}

fn play<R: Raise>(
    rt: &impl Abort,
    alloc: Global,
    scenario: Scenario,
    cpu: &mut Hard<R>,
    lock: &mut DrainEnd,
    low: &mut DrainEnd,
) -> Result<(), Fail>
    requires { cpu.old.most ≡ 2 ^ 64 - 1 }
{
    let mut tally = Tally::new(alloc, id(1)?, 2, u64::MAX)?;
    match scenario {
        Scenario::OldBank => drains_the_old_bank(rt, cpu, low, &mut tally),
        Scenario::Moves => there_and_back(rt, alloc, cpu, low, &mut tally),
        Scenario::Removal => keeps_its_calls(rt, cpu, low, &mut tally),
        Scenario::LockRing => drains_both(rt, cpu, lock, low, &mut tally),
    }
}

/// On these two rings, the lock level's and the low level's.
fn on_these(
    rt: &impl Abort,
    alloc: Global,
    scenario: Scenario,
    lock: (Ring, RaiseSeat, DrainSeat),
    low: (Ring, RaiseSeat, DrainSeat),
) -> Result<(), Fail>
    requires lock { IsRaiseSeatOf lock.0 lock.1 × IsDrainSeatOf lock.0 lock.2 × (raise_trail lock.1 ≡ []) }
    requires low { IsRaiseSeatOf low.0 low.1 × IsDrainSeatOf low.0 low.2 × (raise_trail low.1 ≡ []) }
{
    let (lock_ring, lock_seat, lock_drainer) = lock;
    let (low_ring, low_seat, low_drainer) = low;
    let mut lock_drain = DrainEnd::new(&lock_ring, lock_drainer);
    let mut low_drain = DrainEnd::new(&low_ring, low_drainer);
    let lock = raise_end(&lock_ring, lock_seat);
    let low = raise_end(&low_ring, low_seat);
    match cpu(alloc, lock, low) {
        Ok(mut cpu) => play(
            rt,
            alloc,
            scenario,
            &mut cpu,
            &mut lock_drain,
            &mut low_drain,
        ),
        Err(fail) => Err(fail),
    }
}

fn on_rings(rt: &impl Abort, alloc: Global, scenario: Scenario) -> Result<(), Fail> {
    let lock = open(alloc, 2)?;
    let low = open(alloc, 2)?;
    on_these(rt, alloc, scenario, lock, low)
}

#[test]
fn the_old_bank_is_drained_first(rt: HostRuntime) -> Result<(), Fail> {
    on_rings(&rt, rt.alloc(), Scenario::OldBank)
}

#[test]
fn a_cyclic_moves_between_ends_of_two_kinds(rt: HostRuntime) -> Result<(), Fail> {
    on_rings(&rt, rt.alloc(), Scenario::Moves)
}

#[test]
fn a_removal_answers_after_the_calls_of_its_ring(rt: HostRuntime) -> Result<(), Fail> {
    on_rings(&rt, rt.alloc(), Scenario::Removal)
}

#[test]
fn the_lock_ring_is_drained_by_its_own_soft_interrupt(rt: HostRuntime) -> Result<(), Fail> {
    on_rings(&rt, rt.alloc(), Scenario::LockRing)
}
