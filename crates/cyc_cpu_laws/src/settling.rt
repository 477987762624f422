//! The law of a CPU that has settled.

ghost use Rattle.std.specs.Prelude.{◌≡◌, ◌≤◌, List, All};
ghost use Rattle.std.specs.List.{FoldsTo};
ghost use Rattle.cyc_cpu.specs.Tables.{Tables};
ghost use Rattle.cyc_cpu.specs.Cpu.{Running};
ghost use Rattle.cyc_cpu.specs.Calls.{CpuCall, CpuDoes, no_interrupts};
ghost use Rattle.cyc_cpu.specs.Moving.{IsSettled};
ghost use Rattle.cyc_cpu.specs.Soft.{raise_tables, firing_at, Interrupts};
ghost use Rattle.cyc_cpu_laws.specs.Runs.{CpuSteps};
ghost use Rattle.cyc_cpu_laws.specs.Settled.{IsNoFire, IsPutOff};

use cyc_types::{Calls, Raise};

/// What `settled` told stays true over any calls but a fire and a switch of banks, and while it is true nothing is put off:
/// no call is refused with Expanding, Busy or Pending, and a removal is done as it begins.
///
/// It does nothing when it runs: its clauses are the law.
pub fn settling_law<C: Calls, R: Raise>()
    // A switch of banks is a growth of the size, which no call makes smaller.
    ensures stays { (s t : Running C R) (way : List CpuCall) → IsSettled R.view s.cpu → All IsNoFire way → t.cpu.size ≡ s.cpu.size
        → FoldsTo (CpuSteps C.Calls R.Raise no_interrupts) s way t → IsSettled R.view t.cpu }
    ensures grows { (s t : Running C R) (way : List CpuCall)
        → FoldsTo (CpuSteps C.Calls R.Raise no_interrupts) s way t → s.cpu.size ≤ t.cpu.size }
    ensures at_once { (s t : Running C R) (call : CpuCall) → IsSettled R.view s.cpu
        → CpuDoes C.Calls R.Raise no_interrupts s call t → IsPutOff call → ⊥ }
{}

/// The same of a CPU whose levels no other thread uses, where soft interrupts are among the calls.
///
/// It does nothing when it runs: its clauses are the law.
pub fn settling_core_law<C: Calls>()
    ensures stays { (s t : Running C Tables) (way : List CpuCall) → IsSettled firing_at s.cpu → All IsNoFire way
        → t.cpu.size ≡ s.cpu.size
        → FoldsTo (CpuSteps C.Calls raise_tables (Interrupts C.Calls)) s way t
        → IsSettled firing_at t.cpu }
    ensures grows { (s t : Running C Tables) (way : List CpuCall)
        → FoldsTo (CpuSteps C.Calls raise_tables (Interrupts C.Calls)) s way t
        → s.cpu.size ≤ t.cpu.size }
    ensures at_once { (s t : Running C Tables) (call : CpuCall) → IsSettled firing_at s.cpu
        → CpuDoes C.Calls raise_tables (Interrupts C.Calls) s call t → IsPutOff call
        → ⊥ }
{}
