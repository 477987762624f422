//! A tick with a cyclic of high level and one of low level, and the soft interrupt after it.

use crate::levels::{id, levels};
use cyc_core::LevelCore;
use cyc_cpu::Hard;
use cyc_types::{Level, Moment, Soft, Tally, When};
use std::alloc::Global;
use std::process::Abort;
use std::test::Fail;
use uses::tick::{Tasks, serve, tick};

fn cpu(alloc: Global) -> Result<Hard<LevelCore>, Fail> {
    let (lock, low) = levels(alloc)?;
    match Hard::new(alloc, u64::MAX, lock, low) {
        Ok(cpu) => Ok(cpu),
        Err(_) => Err(Fail::from("memory")),
    }
}

/// Adds a cyclic that expires every 10 nanoseconds.
fn add(cpu: &mut Hard<LevelCore>, number: u64, level: Level, start: i64) -> Result<(), Fail> {
    let id = id(number)?;
    let when = When::new(start, 10)?;
    if cpu.has(id) {
        return Err(Fail::from("an id that is there"));
    }
    Ok(cpu.add(id, level, when, Moment::ZERO)?)
}

/// At 35 the high cyclic was due three times, at 10, 20 and 30, and the low one four times, from 5 on.
fn play(rt: &impl Abort, cpu: &mut Hard<LevelCore>, tasks: &mut Tasks) -> Result<(), Fail> {
    add(cpu, 1, Level::High, 10)?;
    add(cpu, 2, Level::Low, 5)?;
    let Ok(fired) = tick(cpu, tasks, Moment::new(35)?) else {
        return Err(Fail::from("a tick"));
    };
    let Ok(ran) = serve(cpu, tasks, Soft::Low, 8) else {
        return Err(Fail::from("a soft interrupt"));
    };
    assert_eq!(rt; (fired.expired, ran.calls, ran.idle), (7, 4, true));
    Ok(())
}

/// Plays on a new CPU.
fn play_alone(rt: &impl Abort, alloc: Global, tasks: &mut Tasks) -> Result<(), Fail> {
    let mut cpu = cpu(alloc)?;
    play(rt, &mut cpu, tasks)
}

#[test]
fn a_tick_calls_what_is_due(rt: HostRuntime) -> Result<(), Fail> {
    let (high, low) = (id(1)?, id(2)?);
    let mut tasks = Tasks {
        calls: Tally::new(rt.alloc(), high, 2, u64::MAX)?,
        switch: false,
    };
    play_alone(&rt, rt.alloc(), &mut tasks)?;
    let called = (tasks.calls.count(high), tasks.calls.count(low));
    assert_eq!(&rt; (called, tasks.switch), ((Some(3), Some(4)), true));
    Ok(())
}
