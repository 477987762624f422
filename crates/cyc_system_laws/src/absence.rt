//! The law of an id that has left all CPUs.

ghost use Rattle.std.specs.Prelude.{ℕ, List, All};
ghost use Rattle.std.specs.List.{FoldsTo};
ghost use Rattle.cyc_level.specs.Lawful.{Lawful};
ghost use Rattle.cyc_core.specs.Tables.{Tables, level_of};
ghost use Rattle.cyc_cpu.specs.Cpu.{CpuView, HasNoCyclic};
ghost use Rattle.cyc_cpu.specs.Laws.{IsLawful};
ghost use Rattle.cyc_cpu.specs.Gone.{IsGone, PutsNot};
ghost use Rattle.cyc_cpu.specs.Soft.{raise_tables, firing_at, Interrupts};
ghost use Rattle.cyc_agreement.specs.Cpus.{CallOn, RunningCpus, RunsAt};
ghost use Rattle.cyc_system_laws.specs.Nowhere.{IsNowhere, StaysNowhere};

use cyc_types::Calls;

/// Once a cyclic has left its CPUs, no call of it is made on any CPU until its id is put in anew, whatever else is done.
///
/// It does nothing when it runs: its clauses are the law.
pub fn absence_core_law<C: Calls>()
    // A CPU whose cyclics don't have the id has it nowhere; so has one that it has left (`removal_law` of cyc_cpu).
    ensures unused { (id : ℕ) (v : CpuView Tables) → IsLawful firing_at v → Lawful (level_of v.lock) → Lawful (level_of v.low)
        → HasNoCyclic id v.cyclics → IsGone id v }
    ensures one { (id : ℕ) (s t : RunningCpus C Tables) (c : CallOn) → IsNowhere id s.cpus → PutsNot id c.call
        → RunsAt C.Calls raise_tables (Interrupts C.Calls) s c t
        → StaysNowhere C.count id s t }
    ensures run { (id : ℕ) (s t : RunningCpus C Tables) (way : List CallOn) → IsNowhere id s.cpus
        → All (λ c. PutsNot id c.call) way
        → FoldsTo (RunsAt C.Calls raise_tables (Interrupts C.Calls)) s way t
        → StaysNowhere C.count id s t }
{}
