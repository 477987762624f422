//! Systems of two and three CPUs, and the calls of a system.
ghost use Rattle.std.specs.Prelude.{◌≡◌, ◌+◌, All, length, IfOk};
ghost use Rattle.cyc_core.specs.Tables.{level_of};
ghost use Rattle.cyc_core.specs.FiringSide.{firing_view};
ghost use Rattle.cyc_cpu.specs.Cpu.{IsFresh};

use crate::cpus::level;
use crate::seen::{Seen, refused};
use cyc_core::LevelCore;
use cyc_system::{CpuOrOmni, System};
use cyc_types::{CyclicId, Level, Moment, Refusal, When};
use std::alloc::Global;

/// A system over these ends, whose first id is 1.
fn over(
    alloc: Global,
    first: (LevelCore, LevelCore),
    second: (LevelCore, LevelCore),
) -> Result<System<LevelCore>, Refusal>
    requires lock { IsFresh (firing_view (level_of first.0)) }
    requires low { IsFresh (firing_view (level_of first.1)) }
    requires second_lock { IsFresh (firing_view (level_of second.0)) }
    requires second_low { IsFresh (firing_view (level_of second.1)) }
{
    let Some(id) = CyclicId::new(1) else {
        return Err(Refusal::IdsSpent);
    };
    let mut ends = Vec::new(alloc);
    ends.push(first)?;
    ends.push(second)?;
    System::new(alloc, ends, u64::MAX, id)
}

/// The two new levels of a CPU.
fn levels(alloc: Global) -> Result<(LevelCore, LevelCore), Refusal>
    ensures { IfOk result (λ e. IsFresh (firing_view (level_of e.0)) × IsFresh (firing_view (level_of e.1))) }
{
    let lock = level(alloc)?;
    let low = level(alloc)?;
    Ok((lock, low))
}

/// A system of two CPUs.
pub(crate) fn two(alloc: Global) -> Result<System<LevelCore>, Refusal> {
    let first = levels(alloc)?;
    let second = levels(alloc)?;
    over(alloc, first, second)
}

/// Puts the two ends of a CPU behind those before.
fn push_ends(
    mut ends: Vec<(LevelCore, LevelCore)>,
    pair: (LevelCore, LevelCore),
) -> Result<Vec<(LevelCore, LevelCore)>, Refusal>
    requires before { All (λ e. IsFresh (firing_view (level_of e.0)) × IsFresh (firing_view (level_of e.1))) ends.items }
    requires lock { IsFresh (firing_view (level_of pair.0)) }
    requires low { IsFresh (firing_view (level_of pair.1)) }
    ensures fresh { IfOk result
        (λ r. All (λ e. IsFresh (firing_view (level_of e.0)) × IsFresh (firing_view (level_of e.1))) r.items) }
    ensures many { IfOk result (λ r. length r.items ≡ length ends.items + 1) }
{
    ends.push(pair)?;
    Ok(ends)
}

/// A system of three CPUs.
pub(crate) fn three(alloc: Global) -> Result<System<LevelCore>, Refusal> {
    let Some(id) = CyclicId::new(1) else {
        return Err(Refusal::IdsSpent);
    };
    let mut ends = Vec::new(alloc);
    for _ in 0..3u32 {
        ends = push_ends(ends, levels(alloc)?)?;
    }
    System::new(alloc, ends, u64::MAX, id)
}

/// Adds a low cyclic that begins at 10, each 10 nanoseconds.
fn put(system: &mut System<LevelCore>) -> Result<CyclicId, Refusal> {
    let when = When::new(10, 10)?;
    let now = Moment::new(0)?;
    system.add(Level::Low, when, now)
}

/// What can be seen of a system with the ids 1 and 2.
#[derive(Clone, Copy, Debug, PartialEq, Eq)]
struct Picture {
    lens: (Option<usize>, Option<usize>),
    places: (Option<CpuOrOmni>, Option<CpuOrOmni>),
}

fn pictured(system: &System<LevelCore>, first: CyclicId, second: CyclicId) -> Picture {
    Picture {
        lens: (system.len(0), system.len(1)),
        places: (system.place_of(first), system.place_of(second)),
    }
}

fn make_two(alloc: Global) -> Result<(), Refusal> {
    let _system = two(alloc)?;
    Ok(())
}

/// `System::new`, with the levels that it is over.
pub(crate) fn new(alloc: Global) -> Seen {
    match make_two(alloc) {
        Ok(()) => Seen::Done,
        Err(why) => refused(why, true, make_two(alloc).is_ok()),
    }
}

fn add_on(system: &mut System<LevelCore>, first: CyclicId, second: CyclicId) -> Seen {
    let before = pictured(system, first, second);
    match put(system) {
        Ok(_) => Seen::Done,
        Err(why) => {
            let as_before = pictured(system, first, second) == before;
            refused(why, as_before, put(system) == Ok(first))
        }
    }
}

/// `System::add`: a refused one spends no id.
pub(crate) fn add(alloc: Global) -> Seen {
    let (Some(first), Some(second)) = (CyclicId::new(1), CyclicId::new(2)) else {
        return Seen::Wrong;
    };
    match two(alloc) {
        Ok(mut system) => add_on(&mut system, first, second),
        Err(_) => Seen::Before,
    }
}

fn bind_on(system: &mut System<LevelCore>, first: CyclicId, second: CyclicId) -> Seen {
    let (Ok(_), Ok(_)) = (put(system), put(system)) else {
        return Seen::Before;
    };
    let before = pictured(system, first, second);
    match system.bind(first, Some(1)) {
        Ok(()) => Seen::Done,
        Err(why) => {
            let as_before = pictured(system, first, second) == before;
            refused(why, as_before, system.bind(first, Some(1)).is_ok())
        }
    }
}

/// `System::bind` to a CPU whose size has to grow for it.
pub(crate) fn bind(alloc: Global) -> Seen {
    let (Some(first), Some(second)) = (CyclicId::new(1), CyclicId::new(2)) else {
        return Seen::Wrong;
    };
    match two(alloc) {
        Ok(mut system) => bind_on(&mut system, first, second),
        Err(_) => Seen::Before,
    }
}

/// Adds a high omnipresent cyclic, each 10 nanoseconds.
fn put_everywhere(system: &mut System<LevelCore>) -> Result<CyclicId, Refusal> {
    let when = When::new(10, 10)?;
    let now = Moment::new(0)?;
    system.add_omni(Level::High, when, now, now)
}

fn add_omni_on(system: &mut System<LevelCore>, first: CyclicId, second: CyclicId) -> Seen {
    let Ok(_) = put_everywhere(system) else {
        return Seen::Before;
    };
    let before = pictured(system, first, second);
    match put_everywhere(system) {
        Ok(_) => Seen::Done,
        Err(why) => {
            let as_before = pictured(system, first, second) == before;
            refused(why, as_before, put_everywhere(system) == Ok(second))
        }
    }
}

/// `System::add_omni` to two CPUs whose sizes have to grow for it.
pub(crate) fn add_omni(alloc: Global) -> Seen {
    let (Some(first), Some(second)) = (CyclicId::new(1), CyclicId::new(2)) else {
        return Seen::Wrong;
    };
    match two(alloc) {
        Ok(mut system) => add_omni_on(&mut system, first, second),
        Err(_) => Seen::Before,
    }
}

fn online_on(
    system: &mut System<LevelCore>,
    first: CyclicId,
    second: CyclicId,
) -> Result<Seen, Refusal> {
    let now = Moment::new(0)?;
    system.offline(1)?;
    put_everywhere(system)?;
    put_everywhere(system)?;
    let before = pictured(system, first, second);
    match system.online(1, now) {
        Ok(()) => Ok(Seen::Done),
        Err(why) => {
            let as_before = pictured(system, first, second) == before;
            Ok(refused(why, as_before, system.online(1, now).is_ok()))
        }
    }
}

/// `System::online` of a CPU whose size has to grow for its components.
pub(crate) fn online(alloc: Global) -> Seen {
    let (Some(first), Some(second)) = (CyclicId::new(1), CyclicId::new(2)) else {
        return Seen::Wrong;
    };
    match two(alloc) {
        Ok(mut system) => online_on(&mut system, first, second).unwrap_or(Seen::Before),
        Err(_) => Seen::Before,
    }
}
