//! The machine before the first step.

ghost use Rattle.std.specs.Prelude.{◌≡◌, ◌≤◌, min, All, length, replicate, IfOk, IfErr, OnOk};
ghost use Rattle.cyc_types.specs.Limits.{cyclics as most_cyclics};
ghost use Rattle.cyc_types.specs.declared.refusal.Refusal.TheVariants.{Memory};
ghost use Rattle.cyc_types.specs.Tally.{tally_made};
ghost use Rattle.cyc_types.specs.Pairs.{EachTwo};
ghost use Rattle.cyc_types.specs.Limits.{most_cpus};
ghost use Rattle.cyc_level.specs.Level.{empty_level};
ghost use Rattle.cyc_core.specs.Tables.{level_of};
ghost use Rattle.cyc_model.specs.Script.{start};
ghost use Rattle.cyc_words.specs.declared.named.Named.TheVariants.{Nothing};
ghost use Rattle.cyc_system_model.specs.Kept.{LevelsAreNew};
ghost use Rattle.cyc_replay.specs.Machine.{ShowsMachine};
ghost use Rattle.cyc_replay.specs.Beginning.{IsEmptyCpu, HasReserved};

use crate::machine::Machine;
use cyc_core::LevelCore;
use cyc_cpu::Hard;
use cyc_system::System;
use cyc_system_model::begin_law;
use cyc_types::{CYCLICS, Ceiling, CyclicId, Moment, Refusal, Tally};
use cyc_words::Names;
use std::alloc::Global;

/// The id that is given first.
fn first_id() -> CyclicId
    ensures { result ≡ 1 }
{
    CyclicId::new(1).unwrap()
}

/// The two soft levels of a CPU, both new.
fn new_pair(alloc: Global, ceiling: Ceiling) -> Result<(LevelCore, LevelCore), Refusal>
    ensures lock { IfOk result (λ e. level_of e.0 ≡ empty_level ceiling) }
    ensures low { IfOk result (λ e. level_of e.1 ≡ empty_level ceiling) }
    ensures err { IfErr result (λ refusal. refusal ≡ Memory) }
{
    let lock = LevelCore::new(alloc, ceiling)?;
    let low = LevelCore::new(alloc, ceiling)?;
    Ok((lock, low))
}

/// New levels for so many CPUs: of each its lock and its low level.
fn new_levels(
    alloc: Global,
    cpus: u32,
    ceiling: Ceiling,
) -> Result<Vec<(LevelCore, LevelCore)>, Refusal>
    ensures long { IfOk result (λ ends. length ends.items ≡ cpus) }
    ensures new { IfOk result (λ ends. LevelsAreNew ceiling ends.items) }
    ensures err { IfErr result (λ refusal. refusal ≡ Memory) }
{
    let mut ends = Vec::with_capacity(alloc, cpus as usize)?;
    for _ in 0..cpus {
        ends.push_reserved(new_pair(alloc, ceiling)?);
    }
    Ok(ends)
}

/// Takes the memory for so many cyclics of the CPU.
fn reserve_wanted(hard: &mut Hard<LevelCore>, wanted: usize) -> Result<(), Refusal>
    requires empty { IsEmptyCpu hard.old }
    requires few { wanted ≤ most_cyclics }
    ensures did { OnOk result (HasReserved wanted hard.old hard.new) }
    ensures err { IfErr result (λ refusal. refusal ≡ Memory) }
{
    hard.reserve(wanted)
}

/// The same on each of these CPUs.
fn reserve_each(hards: &mut Vec<Hard<LevelCore>>, wanted: usize) -> Result<(), Refusal>
    requires empty { All IsEmptyCpu hards.old.items }
    requires few { wanted ≤ most_cyclics }
    ensures did { OnOk result (EachTwo (HasReserved wanted) hards.old.items hards.new.items) }
    ensures err { IfErr result (λ refusal. refusal ≡ Memory) }
{
    for number in 0..hards.len() {
        reserve_wanted(&mut hards[number], wanted)?;
    }
    Ok(())
}

/// For how many cyclics a CPU takes memory: one of each name, or as many as it can have.
fn wanted_of(names: usize) -> usize
    ensures { result ≡ min names most_cyclics }
{
    names.min(usize::from(CYCLICS))
}

/// The system with memory on each CPU for a cyclic of each name, or for as many as a CPU can have: from here on no cyclic of a
/// name that comes to a CPU is refused for want of memory there.
fn with_room(system: System<LevelCore>, names: usize) -> Result<System<LevelCore>, Refusal>
    requires empty { All IsEmptyCpu system.cpus.cpus }
    ensures cpus { IfOk result (λ wide. EachTwo (HasReserved (min names most_cyclics)) system.cpus.cpus wide.cpus.cpus
        × (wide.cpus.online ≡ system.cpus.online)) }
    ensures rest { IfOk result (λ wide. (wide.records ≡ system.records) × (wide.last ≡ system.last)) }
    ensures err { IfErr result (λ refusal. refusal ≡ Memory) }
{
    let wanted = wanted_of(names);
    let (desk, mut hards) = system.split();
    reserve_each(&mut hards, wanted)?;
    Ok(desk.unite(hards))
}

/// Room for the name of each id: no more ids are given than there are names.
fn no_names(alloc: Global, names: usize) -> Result<Vec<usize>, Refusal>
    ensures long { IfOk result (λ named. length named.items ≡ names) }
    ensures err { IfErr result (λ refusal. refusal ≡ Memory) }
{
    let named = vec![in alloc; 0; names]?;
    Ok(named)
}

/// What a machine has beside its system: the tally of its calls, what names have, the names of ids.
fn beside(alloc: Global, names: usize) -> Result<(Tally, Names, Vec<usize>), Refusal>
    ensures tally { IfOk result (λ r. r.0 ≡ tally_made 1 names 18446744073709551615) }
    ensures names { IfOk result (λ r. r.1 ≡ replicate names Nothing) }
    ensures named { IfOk result (λ r. length r.2.items ≡ names) }
    ensures err { IfErr result (λ refusal. refusal ≡ Memory) }
{
    let tally = Tally::new(alloc, first_id(), names, u64::MAX)?;
    let named = no_names(alloc, names)?;
    let names = Names::new(alloc, names)?;
    Ok((tally, names, named))
}

/// So many CPUs, all online, with no cyclic, and so many names with no id. Each CPU takes the memory for a cyclic of each name,
/// or for as many as it can have, that of the least power of two.
pub fn begin(alloc: Global, cpus: u32, ceiling: Ceiling, names: usize) -> Result<Machine, Refusal>
    requires some { 1 ≤ cpus }
    requires few { cpus ≤ most_cpus }
    ensures holds { IfOk result (ShowsMachine (start cpus ceiling names)) }
    ensures err { IfErr result (λ refusal. refusal ≡ Memory) }
{
    begin_law();
    let levels = new_levels(alloc, cpus, ceiling)?;
    let fresh = System::new(alloc, levels, u64::MAX, first_id())?;
    fresh.law();
    let system = with_room(fresh, names)?;
    system.law();
    let (tally, names, named) = beside(alloc, names)?;
    Ok(Machine {
        clock: Moment::ZERO,
        system,
        tally,
        names,
        named,
    })
}
