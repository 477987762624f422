//! Laws of an id whose removal has answered.

ghost use Rattle.std.specs.Prelude.{ℕ, List, Some, Ok};
ghost use Rattle.std.specs.List.{FoldsTo};
ghost use Rattle.cyc_types.specs.declared.receipt.Receipt.{Receipt};
ghost use Rattle.cyc_cpu.specs.Tables.{Tables};
ghost use Rattle.cyc_cpu.specs.Calls.{no_interrupts};
ghost use Rattle.cyc_cpu.specs.Soft.{raise_tables, Interrupts};
ghost use Rattle.cyc_places.specs.Places.{HasRisingIds};
ghost use Rattle.cyc_system.specs.SystemRemoval.TheVariants.{Done};
ghost use Rattle.cyc_system.specs.System.{SystemView, RunningSystem};
ghost use Rattle.cyc_system.specs.Agreement.{Agrees};
ghost use Rattle.cyc_system.specs.Calls.{SystemCall, Changes, Does, BeginRemove, PollRemove};
ghost use Rattle.cyc_system_laws.specs.Gone.{IsOver, StaysOver, IsOverWhole, StaysOverWhole, AreLevelsLawful};

use cyc_types::{Calls, Raise};

/// Once the removal of a cyclic has answered, as it began or at a poll, its id is over: no CPU has a cyclic of it, and no record
/// names it. It stays over, whatever calls are made, and none of them makes a call of it on any CPU.
///
/// It does nothing when it runs: its clauses are the law.
pub fn removal_law<C: Calls, R: Raise>()
    ensures begun { (id : ℕ) (receipt : Receipt) (s t : SystemView R) → Agrees s → HasRisingIds s.records
        → Changes R.Raise s (BeginRemove id (Ok (Done receipt))) t → IsOver id t }
    ensures polled { (id : ℕ) (receipt : Receipt) (s t : SystemView R) → Agrees s → HasRisingIds s.records
        → Changes R.Raise s (PollRemove id (Ok (Some receipt))) t → IsOver id t }
    ensures run { (id : ℕ) (s t : RunningSystem C R) (way : List SystemCall) → IsOver id s.system
        → FoldsTo (Does C.Calls R.Raise no_interrupts) s way t → StaysOver C.count id s t }
{}

/// The same where no other thread uses the levels, and soft interrupts are among the calls: the id is at none of the levels
/// either.
///
/// It does nothing when it runs: its clauses are the law.
pub fn removal_core_law<C: Calls>()
    // An id that is over is at no level that is lawful.
    ensures whole { (id : ℕ) (s : SystemView Tables) → IsOver id s → AreLevelsLawful s → IsOverWhole id s }
    ensures run { (id : ℕ) (s t : RunningSystem C Tables) (way : List SystemCall) → IsOverWhole id s.system
        → FoldsTo (Does C.Calls raise_tables (Interrupts C.Calls)) s way t
        → StaysOverWhole C.count id s t }
{}
