//! The law of an id that has left a CPU.

ghost use Rattle.std.specs.Prelude.{ℕ, List, All};
ghost use Rattle.std.specs.List.{FoldsTo};
ghost use Rattle.cyc_cpu.specs.Cpu.{Running};
ghost use Rattle.cyc_cpu.specs.Laws.{IsLawful};
ghost use Rattle.cyc_cpu.specs.Calls.{CpuCall, no_interrupts};
ghost use Rattle.cyc_cpu.specs.Gone.{IsOff, PutsNot};
ghost use Rattle.cyc_cpu_laws.specs.Runs.{CpuSteps};
ghost use Rattle.cyc_cpu_laws.specs.Absence.{StaysOff, run_from};

use cyc_types::{Calls, Raise};

/// An id that is off a CPU, as after a removal that answered or a move (`leaving_law` of cyc_cpu), stays off it over any
/// calls that don't put it in; and none of them calls its handler or raises an end for it.
///
/// It does nothing when it runs: its clause is the law.
pub fn absence_law<C: Calls, R: Raise>()
    ensures { (id : ℕ) (s t : Running C R) (way : List CpuCall) → IsLawful R.view s.cpu
        → IsOff R.view id s.cpu → All (PutsNot id) way
        → (run : FoldsTo (CpuSteps C.Calls R.Raise no_interrupts) s way t)
        → StaysOff C.count R.view (CpuSteps C.Calls R.Raise no_interrupts) id
        (run_from (CpuSteps C.Calls R.Raise no_interrupts) s way t run) }
{}
