//! Laws of a system: ids, and firing sides that are away.

ghost use Rattle.std.specs.Prelude.{◌≡◌, ◌<◌, ◌≤◌, ℕ, Bool, List, length, Some, Result, Ok};
ghost use Rattle.std.specs.List.{FoldsTo, slice_get};
ghost use Rattle.cyc_types.specs.declared.level.Level.{Level as CyclicLevel};
ghost use Rattle.cyc_types.specs.declared.moment.When.{When as Series};
ghost use Rattle.cyc_timers.specs.declared.fire.Fired.{Fired};
ghost use Rattle.cyc_timers.specs.declared.fire.FireRefused.{FireRefused};
ghost use Rattle.cyc_cpu.specs.Cpu.{CpuView, Running};
ghost use Rattle.cyc_cpu.specs.Laws.{IsLawful};
ghost use Rattle.cyc_cpu.specs.Calls.{no_interrupts, Fire, AskSettled, CpuDoes as CpuDoes, CpuChanges as CpuChanges};
ghost use Rattle.cyc_agreement.specs.System.{RunningSystem};
ghost use Rattle.cyc_system.specs.Calls.{SystemCall, Does, Add, AddOmni};
ghost use Rattle.cyc_system.specs.Splitting.{ComesBack, AllComeBack};

use cyc_types::{Calls, Raise};

/// An id is never given again: no run of calls makes the number of the id that was given last smaller, and an id that a call
/// gives is greater than every one that was given before it.
///
/// It does nothing when it runs: its clauses are the law.
pub fn ids_law<C: Calls, R: Raise>()
    ensures run { (s t : RunningSystem C R) (way : List SystemCall)
        → FoldsTo (Does C.Calls R.Raise no_interrupts) s way t → s.system.last ≤ t.system.last }
    ensures given { (s t : RunningSystem C R) (level : CyclicLevel) (when : Series) (now id : ℕ)
        → Does C.Calls R.Raise no_interrupts s (Add level when now (Ok id)) t → (s.system.last < id)
        × (id ≤ t.system.last) }
    ensures omnipresent { (s t : RunningSystem C R) (level : CyclicLevel) (when : Series) (skew now id : ℕ)
        → Does C.Calls R.Raise no_interrupts s (AddOmni level when skew now (Ok id)) t
        → (s.system.last < id) × (id ≤ t.system.last) }
{}

/// What becomes of a firing side that is away: it may come back as it left, and after any fires and `settled`, refused ones too.
///
/// It does nothing when it runs: its clauses are the law.
pub fn away_law<C: Calls, R: Raise>()
    ensures same { (x : CpuView R) → ComesBack R.view x x }
    ensures joined { (x y z : CpuView R) → ComesBack R.view x y → ComesBack R.view y z → ComesBack R.view x z }
    ensures fired { (s t : Running C R) (now : ℕ) (answer : Result Fired FireRefused) → IsLawful R.view s.cpu
        → IsLawful R.view t.cpu
        → CpuDoes C.Calls R.Raise no_interrupts s (Fire now answer) t → ComesBack R.view s.cpu t.cpu }
    ensures settled { (v w : CpuView R) (answer : Bool) → CpuChanges R.Raise v (AskSettled answer) w
        → ComesBack R.view v w }
    // All of them come back where each one does, at its place.
    ensures each { (xs ys : List (CpuView R)) → length ys ≡ length xs
        → ((n : ℕ) (x y : CpuView R) → slice_get xs n ≡ Some x → slice_get ys n ≡ Some y → ComesBack R.view x y)
        → AllComeBack R.view xs ys }
    ensures unused { (xs : List (CpuView R)) → AllComeBack R.view xs xs }
{}
