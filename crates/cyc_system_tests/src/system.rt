//! A CPU of two goes offline while calls are outstanding there.

ghost use Rattle.cyc_cpu.specs.Cpu.{IsFresh};

use crate::levels::{id, levels};
use cyc_core::LevelCore;
use cyc_system::{CpuOrOmni, System};
use cyc_types::{Level, Moment, Raise, Refusal, Tally, When};
use std::alloc::Global;
use std::process::Abort;
use std::test::Fail;
use uses::system::serve_and_offline;

/// A system of two CPUs over four new ends.
fn over<R: Raise + Drop>(alloc: Global, first: (R, R), second: (R, R)) -> Result<System<R>, Fail>
    requires first_lock { IsFresh (R.view first.0) }
    requires first_low { IsFresh (R.view first.1) }
    requires second_lock { IsFresh (R.view second.0) }
    requires second_low { IsFresh (R.view second.1) }
{
    let id = id(1)?;
    let mut ends = Vec::with_capacity(alloc, 2)?;
    ends.push_reserved(first);
    ends.push_reserved(second);
    match System::new(alloc, ends, u64::MAX, id) {
        Ok(system) => Ok(system),
        Err(_) => Err(Fail::from("memory")),
    }
}

/// A system of two CPUs.
fn two(alloc: Global) -> Result<System<LevelCore>, Fail> {
    let first = levels(alloc)?;
    let second = levels(alloc)?;
    over(alloc, first, second)
}

/// Two calls of a cyclic on CPU 0 are made, and it goes to CPU 1, which is then the last.
fn play(rt: &impl Abort, system: &mut System<LevelCore>, calls: &mut Tally) -> Result<(), Fail> {
    let id = system.add(Level::Low, When::new(10, 10)?, Moment::ZERO)?;
    let Ok(fired) = system.fire_one(0, Moment::new(20)?, calls) else {
        return Err(Fail::from("a fire"));
    };
    let answers = (
        serve_and_offline(system, 0, calls, 8),
        serve_and_offline(system, 1, calls, 8),
    );
    assert_eq!(rt; answers, (Ok(()), Err(Refusal::LastCpu)));
    assert_eq!(rt; (fired.expired, calls.count(id)), (2, Some(2)));
    assert_eq!(rt; system.place_of(id), Some(CpuOrOmni::Cpu(1)));
    Ok(())
}

#[test]
fn a_cpu_goes_offline_once_its_calls_are_made(rt: HostRuntime) -> Result<(), Fail> {
    let mut calls = Tally::new(rt.alloc(), id(1)?, 1, u64::MAX)?;
    let mut system = two(rt.alloc())?;
    play(&rt, &mut system, &mut calls)
}
