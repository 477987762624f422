//! What the thread that leads a run has before its first step.

ghost use Rattle.std.specs.Prelude.{◌≡◌, ◌<◌, ◌≤◌, [], All, map, length, replicate, IfOk, IfErr};
ghost use Rattle.cyc_types.specs.Limits.{most_cpus};
ghost use Rattle.cyc_types.specs.declared.refusal.Refusal.TheVariants.{Memory};
ghost use Rattle.cyc_cpu.specs.Cpu.{IsFresh};
ghost use Rattle.cyc_agreement.specs.Cpus.{new_cpus};
ghost use Rattle.cyc_system_laws.specs.Sound.{IsSound};
ghost use Rattle.cyc_threads.specs.StepCalls.{HasLeads};
ghost use Rattle.cyc_words.specs.declared.named.Named.TheVariants.{Nothing};
ghost use Rattle.cyc_threads.specs.Running.{most};

use crate::progress::{Progress, begin};
use cyc_system::System;
use cyc_system_workers::SystemSide;
use cyc_types::{CyclicId, Raise, Refusal};
use cyc_workers::Lead;
use std::alloc::Global;

/// No cyclic expires so often in a run.
const MOST: u64 = u64::MAX;

/// The lead of a run before its first step: a system with no cyclic over these ends. Refuses with Memory alone; all is then
/// dropped.
pub(crate) fn lead<R: Raise + Drop, C: Drop>(
    alloc: Global,
    ends: Vec<(R, R)>,
    leads: Vec<Lead<C>>,
    names: usize,
) -> Result<Progress<R, C>, Refusal>
    requires some { 0 < length ends.items }
    requires few { length ends.items ≤ most_cpus }
    requires fresh { All (λ e. IsFresh (R.view e.0) × IsFresh (R.view e.1)) ends.items }
    requires leads { length leads.items ≡ length ends.items }
    ensures cpus { IfOk result (λ p. p.side.system.cpus ≡ new_cpus most ends.items) }
    ensures records { IfOk result (λ p. p.side.system.records ≡ []) }
    ensures last { IfOk result (λ p. p.side.system.last ≡ 0) }
    ensures leads { IfOk result (λ p. p.side.leads ≡ leads) }
    ensures clock { IfOk result (λ p. p.clock ≡ 0) }
    ensures names { IfOk result (λ p. p.names ≡ replicate names Nothing) }
    ensures ready { IfOk result HasLeads }
    ensures sound { IfOk result (λ p. IsSound R.view p.side.system) }
    ensures refused { IfErr result (λ e. e ≡ Memory) }
{
    let Some(first) = CyclicId::new(1) else {
        unreachable!()
    };
    let system = System::new(alloc, ends, MOST, first)?;
    system.law();
    system.fit_law();
    Ok(begin(alloc, SystemSide { system, leads }, names)?)
}
