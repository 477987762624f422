//! The calls of one CPU.
ghost use Rattle.std.specs.Prelude.{IfOk};
ghost use Rattle.cyc_core.specs.Tables.{level_of};
ghost use Rattle.cyc_core.specs.FiringSide.{firing_view};
ghost use Rattle.cyc_cpu.specs.Cpu.{IsFresh};

use crate::seen::{Seen, refused};
use cyc_core::LevelCore;
use cyc_cpu::{Hard, Totals};
use cyc_types::{CYCLICS, Ceiling, CyclicId, Level, Moment, Refusal, Soft, Tally, When};
use std::alloc::Global;

/// As many cyclics as fit beside one.
const REST: usize = CYCLICS as usize - 1;

/// A new level.
pub(crate) fn level(alloc: Global) -> Result<LevelCore, Refusal>
    ensures { IfOk result (λ core. IsFresh (firing_view (level_of core))) }
{
    let Some(ceiling) = Ceiling::new(4) else {
        return Err(Refusal::NoCyclic);
    };
    match LevelCore::new(alloc, ceiling) {
        Ok(core) => Ok(core),
        Err(why) => Err(why),
    }
}

/// A CPU over two levels. False where it was refused memory itself.
fn make_cpu(lock: LevelCore, low: LevelCore, alloc: Global) -> Result<(), Refusal>
    requires lock { IsFresh (firing_view (level_of lock)) }
    requires low { IsFresh (firing_view (level_of low)) }
{
    let _cpu = Hard::new(alloc, u64::MAX, lock, low)?;
    Ok(())
}

/// Makes a CPU anew.
fn make_again(alloc: Global) -> Result<(), Refusal> {
    let lock = level(alloc)?;
    let low = level(alloc)?;
    make_cpu(lock, low, alloc)
}

fn make_first(alloc: Global) -> Result<Seen, Refusal> {
    let lock = level(alloc)?;
    let low = level(alloc)?;
    match make_cpu(lock, low, alloc) {
        Ok(()) => Ok(Seen::Done),
        Err(why) => Ok(refused(why, true, make_again(alloc).is_ok())),
    }
}

/// `Hard::new`.
pub(crate) fn cpu(alloc: Global) -> Seen {
    make_first(alloc).unwrap_or(Seen::Before)
}

/// Adds a low cyclic that begins at 10, each 10 nanoseconds, where the id is not there yet.
fn put(cpu: &mut Hard<LevelCore>, id: CyclicId) -> Result<(), Refusal> {
    let when = When::new(10, 10)?;
    let now = Moment::new(0)?;
    match cpu.pending(id) {
        Some(_) => Err(Refusal::NoCyclic),
        None => cpu.add(id, Level::Low, when, now),
    }
}

/// What can be seen of a CPU with the ids 1 and 2.
#[derive(Clone, Copy, Debug, PartialEq, Eq)]
struct Picture {
    len: usize,
    first: Option<Totals>,
    second: Option<Totals>,
    /// Whether there is room for 1, and for all that still fit.
    room: (Result<(), Refusal>, Result<(), Refusal>),
}

fn pictured(cpu: &mut Hard<LevelCore>, first: CyclicId, second: CyclicId) -> Picture {
    Picture {
        len: cpu.len(),
        first: cpu.totals(first),
        second: cpu.totals(second),
        room: (cpu.room(1), cpu.room(REST)),
    }
}

fn empty(alloc: Global) -> Result<Hard<LevelCore>, Refusal> {
    let lock = level(alloc)?;
    let low = level(alloc)?;
    Hard::new(alloc, u64::MAX, lock, low)
}

fn put_and_fire(cpu: &mut Hard<LevelCore>, tally: &mut Tally, id: CyclicId) -> Result<(), Refusal> {
    put(cpu, id)?;
    let _ = cpu.fire(Moment::new(10)?, tally);
    Ok(())
}

/// A CPU with the id 1, which expired once, and whose lock level has followed, as its low level does with the call kept.
fn with_one(alloc: Global, id: CyclicId) -> Result<Hard<LevelCore>, Refusal> {
    let mut tally = Tally::new(alloc, id, 2, u64::MAX)?;
    let mut cpu = empty(alloc)?;
    put_and_fire(&mut cpu, &mut tally, id)?;
    Ok(cpu)
}

fn reserve_on(cpu: &mut Hard<LevelCore>, first: CyclicId, second: CyclicId) -> Seen {
    let before = pictured(cpu, first, second);
    match cpu.reserve(REST) {
        Ok(()) => Seen::Done,
        Err(why) => {
            let as_before = pictured(cpu, first, second) == before;
            refused(why, as_before, cpu.reserve(REST).is_ok())
        }
    }
}

fn add_on(cpu: &mut Hard<LevelCore>, first: CyclicId, second: CyclicId) -> Seen {
    let before = pictured(cpu, first, second);
    match put(cpu, second) {
        Ok(()) => Seen::Done,
        Err(why) => {
            let as_before = pictured(cpu, first, second) == before;
            refused(why, as_before, put(cpu, second).is_ok())
        }
    }
}

/// `Hard::reserve` of all that still fit, of a CPU with one cyclic that has a call outstanding.
pub(crate) fn reserve(alloc: Global) -> Seen {
    let (Some(first), Some(second)) = (CyclicId::new(1), CyclicId::new(2)) else {
        return Seen::Wrong;
    };
    match with_one(alloc, first) {
        Ok(mut cpu) => reserve_on(&mut cpu, first, second),
        Err(_) => Seen::Before,
    }
}

/// `Hard::add`, where the size has to grow.
pub(crate) fn add(alloc: Global) -> Seen {
    let (Some(first), Some(second)) = (CyclicId::new(1), CyclicId::new(2)) else {
        return Seen::Wrong;
    };
    match with_one(alloc, first) {
        Ok(mut cpu) => add_on(&mut cpu, first, second),
        Err(_) => Seen::Before,
    }
}
