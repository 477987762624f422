//! The law of a move.

ghost use Rattle.std.specs.Prelude.{◌≡◌, ◌≢◌, ℕ, Ok, Err};
ghost use Rattle.cyc_types.specs.declared.refusal.Refusal.{Refusal as Reason};
ghost use Rattle.cyc_core.specs.Tables.{Tables};
ghost use Rattle.cyc_cpu.specs.Soft.{raise_tables};
ghost use Rattle.cyc_agreement.specs.Cpus.{CpusView};
ghost use Rattle.cyc_agreement.specs.Shifting.{move_of, Shifts};
ghost use Rattle.cyc_system_laws.specs.Moved.{Moved, OnlyAskedCpus, outstanding};

use cyc_types::Raise;

/// A move gives the cyclic to its new CPU with its id, level, interval, next expiration and counts, and touches no other cyclic.
/// A move that is refused touches none.
///
/// It does nothing when it runs: its clauses are the law.
pub fn shift_law<R: Raise>()
    ensures moved { (id source target : ℕ) (v w : CpusView R) → target ≢ source
        → Shifts R.Raise (move_of id source target) (Ok tt) v w → Moved id source target v w }
    ensures refused { (id source target : ℕ) (e : Reason) (v w : CpusView R) → target ≢ source
        → Shifts R.Raise (move_of id source target) (Err e) v w → OnlyAskedCpus v w }
{}

/// Where no other thread uses the levels, no call of a cyclic is outstanding where it was, and none where it came: a move takes
/// no call along, and leaves none behind.
///
/// It does nothing when it runs: its clause is the law.
pub fn shift_core_law()
    ensures { (id source target : ℕ) (v w : CpusView Tables) → target ≢ source
        → Shifts raise_tables (move_of id source target) (Ok tt) v w
        → (m : Moved id source target v w) × (outstanding m.cyclic.timer.level id m.from ≡ 0)
        × (outstanding m.cyclic.timer.level id m.joined ≡ 0) }
{}
