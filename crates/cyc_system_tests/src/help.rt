//! Systems and ids for the tests.

ghost use Rattle.std.specs.Prelude.{◌≡◌, IfOk};
ghost use Rattle.cyc_core.specs.Tables.{level_of};
ghost use Rattle.cyc_core.specs.FiringSide.{firing_view};
ghost use Rattle.cyc_cpu.specs.Cpu.{IsFresh};

use cyc_core::LevelCore;
use cyc_system::System;
use cyc_types::{Ceiling, CyclicId, Raise};
use std::alloc::Global;
use std::test::Fail;

/// An id.
pub(crate) fn id(number: u64) -> Result<CyclicId, Fail> {
    match CyclicId::new(number) {
        Some(id) => Ok(id),
        None => Err(Fail::from("an id")),
    }
}

/// A new level of a free ceiling.
fn level(alloc: Global) -> Result<LevelCore, Fail>
    ensures { IfOk result (λ core. IsFresh (firing_view (level_of core))) }
{
    let Some(ceiling) = Ceiling::new(u32::MAX) else {
        return Err(Fail::from("a ceiling"));
    };
    match LevelCore::new(alloc, ceiling) {
        Ok(core) => Ok(core),
        Err(_) => Err(Fail::from("memory")),
    }
}

/// A system of one CPU over two new ends, whose first id is this one and whose cyclics expire at most so often.
fn bounded<R: Raise + Drop>(
    alloc: Global,
    lock: R,
    low: R,
    first: u64,
    most: u64,
) -> Result<System<R>, Fail>
    requires lock { IsFresh (R.view lock) }
    requires low { IsFresh (R.view low) }
{
    let first = id(first)?;
    let mut ends = Vec::new(alloc);
    let Ok(()) = ends.push((lock, low)) else {
        return Err(Fail::from("memory"));
    };
    match System::new(alloc, ends, most, first) {
        Ok(system) => Ok(system),
        Err(_) => Err(Fail::from("memory")),
    }
}

/// A system of one CPU over new levels, whose first id is this one and whose cyclics expire at most so often.
pub(crate) fn of_one_cpu(alloc: Global, first: u64, most: u64) -> Result<System<LevelCore>, Fail> {
    let lock = level(alloc)?;
    let low = level(alloc)?;
    bounded(alloc, lock, low, first, most)
}

/// A system of two CPUs over four new ends.
pub(crate) fn two<R: Raise + Drop>(
    alloc: Global,
    first: (R, R),
    second: (R, R),
) -> Result<System<R>, Fail>
    requires lock { IsFresh (R.view first.0) }
    requires low { IsFresh (R.view first.1) }
    requires second_lock { IsFresh (R.view second.0) }
    requires second_low { IsFresh (R.view second.1) }
{
    let id = id(1)?;
    let mut ends = Vec::new(alloc);
    let Ok(()) = ends.push(first) else {
        return Err(Fail::from("memory"));
    };
    let Ok(()) = ends.push(second) else {
        return Err(Fail::from("memory"));
    };
    match System::new(alloc, ends, u64::MAX, id) {
        Ok(system) => Ok(system),
        Err(_) => Err(Fail::from("memory")),
    }
}

/// A system of two CPUs over new levels.
pub(crate) fn of_two_cpus(alloc: Global) -> Result<System<LevelCore>, Fail> {
    let first = (level(alloc)?, level(alloc)?);
    let second = (level(alloc)?, level(alloc)?);
    two(alloc, first, second)
}
