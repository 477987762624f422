//! The law of what each CPU sees of calls on several.

ghost use Rattle.std.specs.Prelude.{◌≡◌, ◌≢◌, ℕ, ◌++◌, List, All, length};
ghost use Rattle.std.specs.List.{FoldsTo};
ghost use Rattle.cyc_core.specs.Tables.{Tables};
ghost use Rattle.cyc_cpu.specs.Cpu.{CpuView};
ghost use Rattle.cyc_cpu.specs.Soft.{raise_tables, Interrupts};
ghost use Rattle.cyc_cpu.specs.Calls.{CpuChanges, no_interrupts};
ghost use Rattle.cyc_agreement.specs.Cpus.{CpusView, IsCpu, CallOn, Works, RunningCpus, running_cpus, RunsAt};
ghost use Rattle.cyc_system_laws.specs.Runs.{calls_on, DoesWithSome};

use cyc_types::{Calls, Raise};

/// What calls that reach no handler do to several CPUs: each CPU went through just the calls that were made on it, in their
/// order, so one on which none was made is as it was. None goes online or offline by them.
///
/// It does nothing when it runs: its clauses are the law.
pub fn calls_law<R: Raise>()
    ensures joined { (a b : List CallOn) (u v w : CpusView R) → Works R.Raise a u v → Works R.Raise b v w
        → Works R.Raise (a ++ b) u w }
    ensures each { (n : ℕ) (x : CpuView R) (way : List CallOn) (v w : CpusView R) → Works R.Raise way v w → IsCpu n x v
        → (y : CpuView R) × IsCpu n y w × FoldsTo (CpuChanges R.Raise) x (calls_on n way) y }
    ensures beside { (n : ℕ) (x : CpuView R) (way : List CallOn) (v w : CpusView R) → Works R.Raise way v w
        → All (λ c. c.cpu ≢ n) way → IsCpu n x v → IsCpu n x w }
    ensures online { (way : List CallOn) (v w : CpusView R) → Works R.Raise way v w
        → (w.online ≡ v.online) × (length w.cpus ≡ length v.cpus) }
{}

/// The same of calls that reach handlers. Between two calls on one CPU those on others may change them.
///
/// It does nothing when it runs: its clauses are the law.
pub fn runs_law<C: Calls, R: Raise>()
    // Calls that reach no handler leave them as they are.
    ensures quiet { (calls : C) (way : List CallOn) (v w : CpusView R) → Works R.Raise way v w
        → FoldsTo (RunsAt C.Calls R.Raise no_interrupts) (running_cpus calls v) way (running_cpus calls w) }
    ensures each { (n : ℕ) (x : CpuView R) (way : List CallOn) (s t : RunningCpus C R)
        → FoldsTo (RunsAt C.Calls R.Raise no_interrupts) s way t → IsCpu n x s.cpus
        → (y : CpuView R) × IsCpu n y t.cpus
        × FoldsTo (DoesWithSome C.Calls R.Raise no_interrupts) x (calls_on n way) y }
{}

/// The same of CPUs whose levels no other thread uses, where soft interrupts are among the calls.
///
/// It does nothing when it runs: its clauses are the law.
pub fn runs_core_law<C: Calls>()
    ensures quiet { (calls : C) (way : List CallOn) (v w : CpusView Tables) → Works raise_tables way v w
        → FoldsTo (RunsAt C.Calls raise_tables (Interrupts C.Calls)) (running_cpus calls v) way (running_cpus calls w) }
    ensures each { (n : ℕ) (x : CpuView Tables) (way : List CallOn) (s t : RunningCpus C Tables)
        → FoldsTo (RunsAt C.Calls raise_tables (Interrupts C.Calls)) s way t
        → IsCpu n x s.cpus
        → (y : CpuView Tables) × IsCpu n y t.cpus
        × FoldsTo (DoesWithSome C.Calls raise_tables (Interrupts C.Calls)) x (calls_on n way) y }
{}
