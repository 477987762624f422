//! Laws of the ids that are given.

ghost use Rattle.std.specs.Prelude.{List};
ghost use Rattle.std.specs.List.{FoldsTo};
ghost use Rattle.cyc_cpu.specs.Tables.{Tables};
ghost use Rattle.cyc_cpu.specs.Calls.{no_interrupts};
ghost use Rattle.cyc_cpu.specs.Soft.{raise_tables, Interrupts};
ghost use Rattle.cyc_system.specs.System.{RunningSystem};
ghost use Rattle.cyc_system.specs.Calls.{SystemCall, Does};
ghost use Rattle.cyc_system_laws.specs.Numbering.{ids_given, Rise};

use cyc_types::{Calls, Raise};

/// No id is given twice: over any run of calls each id that is given is above all that were given before it.
///
/// It does nothing when it runs: its clause is the law.
pub fn numbers_law<C: Calls, R: Raise>()
    ensures { (s t : RunningSystem C R) (way : List SystemCall)
        → FoldsTo (Does C.Calls R.Raise no_interrupts) s way t
        → Rise s.system.last (ids_given way) t.system.last }
{}

/// The same where no other thread uses the levels, and soft interrupts are among the calls.
///
/// It does nothing when it runs: its clause is the law.
pub fn numbers_core_law<C: Calls>()
    ensures { (s t : RunningSystem C Tables) (way : List SystemCall)
        → FoldsTo (Does C.Calls raise_tables (Interrupts C.Calls)) s way t
        → Rise s.system.last (ids_given way) t.system.last }
{}
