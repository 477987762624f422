//! The law of a CPU that is suspended.

ghost use Rattle.std.specs.Prelude.{◌≡◌, ◌∷◌, List, All};
ghost use Rattle.std.specs.List.{FoldsTo};
ghost use Rattle.cyc_cpu.specs.Tables.{Tables};
ghost use Rattle.cyc_cpu.specs.Cpu.{Running};
ghost use Rattle.cyc_cpu.specs.Calls.{CpuCall, Suspend, no_interrupts};
ghost use Rattle.cyc_cpu.specs.Soft.{raise_tables, Interrupts};
ghost use Rattle.cyc_cpu_laws.specs.Runs.{CpuSteps};
ghost use Rattle.cyc_cpu_laws.specs.Suspension.{IsNoResume, StandsStill};

use cyc_types::{Calls, Raise};

/// From a suspend on, over any calls that don't resume the CPU, no cyclic expires: no end is raised and no handler is called.
///
/// It does nothing when it runs: its clauses are the law.
pub fn suspension_law<C: Calls, R: Raise>()
    ensures still { (s t : Running C R) (way : List CpuCall) → All IsNoResume way
        → (run : FoldsTo (CpuSteps C.Calls R.Raise no_interrupts) s (Suspend ∷ way) t)
        → StandsStill (CpuSteps C.Calls R.Raise no_interrupts) s (Suspend ∷ way) t run }
    ensures uncalled { (s t : Running C R) (way : List CpuCall) → All IsNoResume way
        → FoldsTo (CpuSteps C.Calls R.Raise no_interrupts) s (Suspend ∷ way) t → t.calls ≡ s.calls }
{}

/// The same of a CPU whose levels no other thread uses, where soft interrupts are among the calls: they go on as before, and by
/// `account_core_law` they alone call handlers.
///
/// It does nothing when it runs: its clause is the law.
pub fn suspension_core_law<C: Calls>()
    ensures { (s t : Running C Tables) (way : List CpuCall) → All IsNoResume way
        → (run : FoldsTo (CpuSteps C.Calls raise_tables (Interrupts C.Calls)) s (Suspend ∷ way) t)
        → StandsStill (CpuSteps C.Calls raise_tables (Interrupts C.Calls)) s (Suspend ∷ way) t run }
{}
