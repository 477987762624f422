//! CPUs that fire, with their soft interrupts.

use crate::machine::{Machine, id_of, open};
use cyc_types::{Level, Refusal, Soft};
use std::alloc::Global;

/// The ticks that are one of a size.
const TICKS: u32 = 1_000;

/// A level of three.
pub(crate) fn level_of(number: u64) -> Level {
    match number % 3 {
        0 => Level::Low,
        1 => Level::Lock,
        _ => Level::High,
    }
}

/// Adds so many cyclics, a third of each level, whose intervals have so many bits.
fn fill(machine: &mut Machine, cyclics: u64, least: u32, most: u32) -> Result<(), Refusal> {
    for number in 0..cyclics {
        let interval = machine.random.interval(least, most);
        let _ = machine.add(level_of(number), interval)?;
    }
    Ok(())
}

/// Each CPU fires, and then both of its soft levels make at most so many calls.
pub(crate) fn tick(machine: &mut Machine, passed: u64, budget: u32) -> Result<(), Refusal> {
    machine.clock = machine.clock.saturating_add(passed);
    for cpu in 0..machine.cpus {
        machine.fire(cpu)?;
        let calls = machine.random.below(budget);
        machine.interrupt(cpu, Soft::Lock, calls);
        let calls = machine.random.below(budget);
        machine.interrupt(cpu, Soft::Low, calls);
    }
    Ok(())
}

/// The digest with the counts of each cyclic.
fn counted(mut machine: Machine, cyclics: u64) -> Result<u64, Refusal> {
    for number in 1..=cyclics {
        machine.count(id_of(number)?);
    }
    Ok(machine.digest.number())
}

/// Four CPUs, each full, of which each fires a few times a microsecond: a few expirations are due then.
pub(crate) fn fires(alloc: Global, size: u32, seed: u32) -> Result<u64, Refusal> {
    let mut machine = open(alloc, 4, u32::MAX, seed)?;
    fill(&mut machine, 1024, 12, 22)?;
    for _ in 0..size {
        for _ in 0..TICKS {
            let passed = u64::from(machine.random.below(1_000));
            tick(&mut machine, passed, 64)?;
        }
    }
    counted(machine, 1024)
}

/// By how much the clock of a burst goes on: mostly to the next moment at which all is due, once in a while by more than a
/// second.
fn gap(machine: &mut Machine) -> u64 {
    let turns = u64::from(machine.random.below(4)) + 1;
    if machine.random.below(64) == 0 {
        4_096 * 300_000 + 4_096 * turns
    } else {
        4_096 * turns
    }
}

/// Two full CPUs on which all is due at once, with few calls at a time, so that most are lost at the ceiling of 3.
pub(crate) fn bursts(alloc: Global, size: u32, seed: u32) -> Result<u64, Refusal> {
    let mut machine = open(alloc, 2, 3, seed)?;
    for number in 0..512 {
        let _ = machine.add(level_of(number), 4_096)?;
    }
    for _ in 0..size {
        for _ in 0..TICKS / 10 {
            let passed = gap(&mut machine);
            tick(&mut machine, passed, 400)?;
        }
    }
    counted(machine, 512)
}
