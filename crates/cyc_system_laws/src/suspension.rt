//! The law of a system that is suspended.

ghost use Rattle.std.specs.Prelude.{◌≡◌, List, ◌∷◌, All, Result};
ghost use Rattle.std.specs.List.{FoldsTo};
ghost use Rattle.cyc_types.specs.declared.refusal.Refusal.{Refusal};
ghost use Rattle.cyc_core.specs.Tables.{Tables};
ghost use Rattle.cyc_cpu.specs.Calls.{no_interrupts};
ghost use Rattle.cyc_cpu.specs.Soft.{raise_tables, firing_at, Interrupts};
ghost use Rattle.cyc_system.specs.System.{RunningSystem};
ghost use Rattle.cyc_system.specs.Calls.{SystemCall, Suspend};
ghost use Rattle.cyc_system_laws.specs.Sound.{IsSound};
ghost use Rattle.cyc_system_laws.specs.Totalling.{Steps};
ghost use Rattle.cyc_system_laws.specs.Suspension.{IsNoResumption, StaysSuspended};

use cyc_types::{Calls, Raise};

/// From a suspend on, over any calls but a resume that is accepted, the system stays suspended and no cyclic expires, on any CPU:
/// no end is raised and no handler is called. CPUs go offline and online meanwhile, and cyclics come, go and move.
///
/// It does nothing when it runs: its clauses are the law.
pub fn suspension_law<C: Calls, R: Raise>()
    ensures still { (s t : RunningSystem C R) (answer : Result (Unit {0}) Refusal) (way : List SystemCall)
        → IsSound R.view s.system → All IsNoResumption way
        → (run : FoldsTo (Steps C.Calls R.Raise no_interrupts) s (Suspend answer ∷ way) t)
        → StaysSuspended (Steps C.Calls R.Raise no_interrupts) s (Suspend answer ∷ way) t run }
    ensures uncalled { (s t : RunningSystem C R) (answer : Result (Unit {0}) Refusal) (way : List SystemCall)
        → IsSound R.view s.system → All IsNoResumption way
        → FoldsTo (Steps C.Calls R.Raise no_interrupts) s (Suspend answer ∷ way) t → t.calls ≡ s.calls }
{}

/// The same where no other thread uses the levels, and soft interrupts are among the calls: they go on as before, and they alone
/// call handlers.
///
/// It does nothing when it runs: its clause is the law.
pub fn suspension_core_law<C: Calls>()
    ensures { (s t : RunningSystem C Tables) (answer : Result (Unit {0}) Refusal) (way : List SystemCall)
        → IsSound firing_at s.system → All IsNoResumption way
        → (run : FoldsTo (Steps C.Calls raise_tables (Interrupts C.Calls)) s (Suspend answer ∷ way) t)
        → StaysSuspended (Steps C.Calls raise_tables (Interrupts C.Calls)) s (Suspend answer ∷ way) t run }
{}
