//! Several CPUs: whole runs of calls of a system of 16 CPUs over plain levels.

use cyc_core::LevelCore;
use cyc_replay::begin;
use cyc_system::System;
use cyc_types::{Ceiling, CyclicId, Level, Moment, Refusal, Soft, Tally, When};
use std::alloc::Global;

/// The CPUs of the system.
const CPUS: u32 = 16;

/// Expirations from the end of the first interval on.
fn when_of(interval: u64) -> Result<When, Refusal> {
    let interval = i64::try_from(interval).unwrap_or(i64::MAX);
    When::new(interval, interval)
}

/// The id of this number.
fn id_of(number: u64) -> Result<CyclicId, Refusal> {
    CyclicId::new(number).ok_or(Refusal::IdsSpent)
}

/// Both levels of each CPU follow to the bank that the CPU fills.
fn follow(system: &mut System<LevelCore>, calls: &mut Tally) {
    for cpu in 0..CPUS {
        let _ = system.softint(cpu, Soft::Lock, calls, 1);
        let _ = system.softint(cpu, Soft::Low, calls, 1);
    }
}

/// A system with so many cyclics of high level, the ids from 1 on, spread evenly over the CPUs.
fn started(alloc: Global, cyclics: u64) -> Result<System<LevelCore>, Refusal> {
    let ceiling = Ceiling::new(u32::MAX).ok_or(Refusal::Memory)?;
    let mut system = begin(alloc, CPUS, ceiling, 0)?.system;
    let mut calls = Tally::new(alloc, id_of(1)?, 1, u64::MAX)?;
    for number in 1..=cyclics {
        let _ = system.add(Level::High, when_of(number)?, Moment::ZERO)?;
        follow(&mut system, &mut calls);
    }
    Ok(system)
}

/// Removes the oldest cyclic and adds another, so many times.
fn replace(alloc: Global, cyclics: u64, operations: u64) -> Result<u64, Refusal> {
    let mut system = started(alloc, cyclics)?;
    let mut last = 0;
    for number in 1..=operations {
        let _ = system.begin_remove(id_of(number)?)?;
        last = system
            .add(Level::High, when_of(number)?, Moment::ZERO)?
            .number();
    }
    Ok(last)
}

/// Removes one of the cyclics, as chosen at random, and adds another, so many times.
fn churn(alloc: Global, cyclics: u64, operations: u64) -> Result<u64, Refusal> {
    let mut system = started(alloc, cyclics)?;
    let mut ids = Vec::new(alloc);
    for number in 1..=cyclics {
        ids.push(id_of(number)?)?;
    }
    let mut number = 1;
    for _ in 0..operations {
        number = following(number);
        let within = number.wrapping_shr(33).checked_rem(cyclics).unwrap_or(0);
        let Some(id) = ids.get_mut(within as usize) else {
            return Err(Refusal::NoCyclic);
        };
        let _ = system.begin_remove(*id)?;
        *id = system.add(Level::High, when_of(cyclics)?, Moment::ZERO)?;
    }
    Ok(number)
}

/// A number that looks as if made at random, from the one before.
fn following(number: u64) -> u64 {
    number
        .wrapping_mul(6364136223846793005)
        .wrapping_add(1442695040888963407)
}

/// One of so many ids, as this number says.
fn chosen(number: u64, cyclics: u64) -> Result<CyclicId, Refusal> {
    let within = number.wrapping_shr(33).checked_rem(cyclics).unwrap_or(0);
    id_of(within.wrapping_add(1))
}

/// Binds a cyclic to another CPU, and then to the one that it was added to, so many times.
fn bind(alloc: Global, cyclics: u64, operations: u64) -> Result<u64, Refusal> {
    let mut system = started(alloc, cyclics)?;
    let mut number = 1;
    for _ in 0..operations {
        number = following(number);
        let id = chosen(number, cyclics)?;
        let home = (id.number().wrapping_sub(1) % u64::from(CPUS)) as u32;
        system.bind(id, Some((home + 1) % CPUS))?;
        system.bind(id, Some(home))?;
    }
    Ok(number)
}

/// Gives a cyclic another moment, so many times.
fn reprogram(alloc: Global, cyclics: u64, operations: u64) -> Result<u64, Refusal> {
    let mut system = started(alloc, cyclics)?;
    let mut number = 1;
    for _ in 0..operations {
        number = following(number);
        let moment = Moment::new((number.wrapping_shr(40) & 0xfffff) as i64)?;
        system.reprogram(chosen(number, cyclics)?, moment)?;
    }
    Ok(number)
}

/// So many times the oldest of so many cyclics of 16 CPUs is removed and another added; 0 where it was refused.
#[unsafe(no_mangle)]
pub extern "C" fn bench_system_replace(alloc: Global, cyclics: u64, operations: u64) -> u64 {
    replace(alloc, cyclics, operations).unwrap_or(0)
}

/// So many times any one of so many cyclics of 16 CPUs is removed and another added; 0 where it was refused.
#[unsafe(no_mangle)]
pub extern "C" fn bench_system_churn(alloc: Global, cyclics: u64, operations: u64) -> u64 {
    churn(alloc, cyclics, operations).unwrap_or(0)
}

/// So many times one of so many cyclics of 16 CPUs is bound to another CPU and back; 0 where it was refused.
#[unsafe(no_mangle)]
pub extern "C" fn bench_system_bind(alloc: Global, cyclics: u64, operations: u64) -> u64 {
    bind(alloc, cyclics, operations).unwrap_or(0)
}

/// So many times one of so many cyclics of 16 CPUs gets another moment; 0 where it was refused.
#[unsafe(no_mangle)]
pub extern "C" fn bench_system_reprogram(alloc: Global, cyclics: u64, operations: u64) -> u64 {
    reprogram(alloc, cyclics, operations).unwrap_or(0)
}
