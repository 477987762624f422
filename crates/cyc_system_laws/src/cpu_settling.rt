//! The law of a CPU that has settled, beside others.

ghost use Rattle.std.specs.Prelude.{◌≡◌, ℕ, ◌≤◌, List, All};
ghost use Rattle.std.specs.List.{FoldsTo};
ghost use Rattle.cyc_core.specs.Tables.{Tables};
ghost use Rattle.cyc_cpu.specs.Cpu.{CpuView};
ghost use Rattle.cyc_cpu.specs.Calls.{no_interrupts};
ghost use Rattle.cyc_cpu.specs.Moving.{IsSettled};
ghost use Rattle.cyc_cpu.specs.Soft.{raise_tables, firing_at, Interrupts};
ghost use Rattle.cyc_cpu_laws.specs.Settled.{IsNoFire, IsPutOff};
ghost use Rattle.cyc_agreement.specs.Cpus.{IsCpu, OfCpu, CallOn, RunningCpus, RunsAt};
ghost use Rattle.cyc_system_laws.specs.Runs.{calls_on};

use cyc_types::{Calls, Raise};

/// What `settled` told of one of several CPUs stays true of it over any calls on any of them, but for a fire and a switch of
/// banks on itself; and while it is true no call on it is put off: none is refused with Expanding, Busy or Pending, and a removal
/// is done as it begins.
///
/// It does nothing when it runs: its clauses are the law.
pub fn settling_law<C: Calls, R: Raise>()
    // A switch of banks is a growth of the size, which no call makes smaller.
    ensures stays { (n : ℕ) (x y : CpuView R) (s t : RunningCpus C R) (way : List CallOn) → IsCpu n x s.cpus → IsCpu n y t.cpus
        → IsSettled R.view x → All IsNoFire (calls_on n way) → y.size ≡ x.size
        → FoldsTo (RunsAt C.Calls R.Raise no_interrupts) s way t → IsSettled R.view y }
    ensures grows { (n : ℕ) (x y : CpuView R) (s t : RunningCpus C R) (way : List CallOn) → IsCpu n x s.cpus → IsCpu n y t.cpus
        → FoldsTo (RunsAt C.Calls R.Raise no_interrupts) s way t → x.size ≤ y.size }
    ensures at_once { (s t : RunningCpus C R) (c : CallOn) → OfCpu c.cpu (IsSettled R.view) s.cpus
        → RunsAt C.Calls R.Raise no_interrupts s c t → IsPutOff c.call → ⊥ }
{}

/// The same of CPUs whose levels no other thread uses, where soft interrupts are among the calls.
///
/// It does nothing when it runs: its clauses are the law.
pub fn settling_core_law<C: Calls>()
    ensures stays { (n : ℕ) (x y : CpuView Tables) (s t : RunningCpus C Tables) (way : List CallOn) → IsCpu n x s.cpus
        → IsCpu n y t.cpus
        → IsSettled firing_at x → All IsNoFire (calls_on n way) → y.size ≡ x.size
        → FoldsTo (RunsAt C.Calls raise_tables (Interrupts C.Calls)) s way t
        → IsSettled firing_at y }
    ensures grows { (n : ℕ) (x y : CpuView Tables) (s t : RunningCpus C Tables) (way : List CallOn) → IsCpu n x s.cpus
        → IsCpu n y t.cpus
        → FoldsTo (RunsAt C.Calls raise_tables (Interrupts C.Calls)) s way t
        → x.size ≤ y.size }
    ensures at_once { (s t : RunningCpus C Tables) (c : CallOn) → OfCpu c.cpu (IsSettled firing_at) s.cpus
        → RunsAt C.Calls raise_tables (Interrupts C.Calls) s c t
        → IsPutOff c.call → ⊥ }
{}
