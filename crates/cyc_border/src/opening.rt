//! The opening of a CPU over plain levels.

ghost use Rattle.std.specs.Prelude.{◌≡◌, None, IfOk, IfErr};
ghost use Rattle.cyc_types.specs.declared.refusal.Refusal.TheVariants.{Memory};
ghost use Rattle.cyc_border.specs.Opening.{IsNewCpu};

use crate::cpu::Cpu;
use cyc_core::LevelCore;
use cyc_cpu::Hard;
use cyc_types::{Ceiling, Refusal};
use std::alloc::Global;

/// A CPU with no cyclic, whose two soft levels have this ceiling. Refuses with Memory alone.
pub fn opened(alloc: Global, ceiling: Ceiling, most: u64) -> Result<Cpu, Refusal>
    ensures ok { IfOk result (λ cpu. IsNewCpu ceiling most cpu) }
    ensures err { IfErr result (λ e. e ≡ Memory) }
{
    let lock = LevelCore::new(alloc, ceiling)?;
    let low = LevelCore::new(alloc, ceiling)?;
    let hard = Hard::new(alloc, most, lock, low)?;
    Ok(Cpu {
        hard,
        high: None,
        lock: None,
        low: None,
    })
}
