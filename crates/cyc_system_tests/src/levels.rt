//! New levels of a CPU, and ids.

ghost use Rattle.std.specs.Prelude.{IfOk};
ghost use Rattle.cyc_core.specs.FiringSide.{firing_view};
ghost use Rattle.cyc_core.specs.Tables.{level_of};
ghost use Rattle.cyc_cpu.specs.Cpu.{IsFresh};

use cyc_core::LevelCore;
use cyc_types::{Ceiling, CyclicId};
use std::alloc::Global;
use std::test::Fail;

/// An id.
pub(crate) fn id(number: u64) -> Result<CyclicId, Fail> {
    match CyclicId::new(number) {
        Some(id) => Ok(id),
        None => Err(Fail::from("an id")),
    }
}

/// A new level.
fn level(alloc: Global) -> Result<LevelCore, Fail>
    ensures { IfOk result (λ core. IsFresh (firing_view (level_of core))) }
{
    let Some(ceiling) = Ceiling::new(u32::MAX) else {
        return Err(Fail::from("a ceiling"));
    };
    match LevelCore::new(alloc, ceiling) {
        Ok(core) => Ok(core),
        Err(_) => Err(Fail::from("memory")),
    }
}

/// The two levels of a new CPU.
pub(crate) fn levels(alloc: Global) -> Result<(LevelCore, LevelCore), Fail>
    ensures { IfOk result (λ both. IsFresh (firing_view (level_of both.0)) × IsFresh (firing_view (level_of both.1))) }
{
    let lock = level(alloc)?;
    let low = level(alloc)?;
    Ok((lock, low))
}
