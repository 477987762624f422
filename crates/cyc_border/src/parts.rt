//! The laws of a fire in parts: the parts are one fire, and what was handed out is counted once, also where the CPU is suspended.

ghost use Rattle.std.specs.Prelude.{◌≡◌, ℕ, ◌<◌, ◌≤◌, ◌↔◌, true, false, List, [], ◌∷◌, ◌++◌, All, Option, Some, None, Result, Ok};
ghost use Rattle.std.specs.List.{FoldsTo};
ghost use Rattle.cyc_types.specs.Series.{never};
ghost use Rattle.cyc_types.specs.Timers.{IsSoundTimer, HasDistinctIds};
ghost use Rattle.cyc_timers.specs.Rows.{timers};
ghost use Rattle.cyc_cpu.specs.Cpu.{CpuView};
ghost use Rattle.cyc_timers.specs.declared.fire.Fired.{Fired};
ghost use Rattle.cyc_timers.specs.declared.fire.FireRefused.{FireRefused};
ghost use Rattle.cyc_border.specs.Border.{FiresPart, stopped_at};
ghost use Rattle.cyc_border.specs.Parts.{PartCall, Part, IsPart, IsRest, IsPaused, MakesPart, paused, answers, asleep, awake};
ghost use Rattle.cyc_border.specs.Parts.{IsOneFire, Counts};

use cyc_types::Raise;

/// What a part of a fire makes: the front of the fire's list, in order, and of the high cyclics none but the one that was handed
/// out, and that once.
///
/// It does nothing when it runs: its clause is the law.
pub fn parts_law<R: Raise>()
    ensures { (now : ℕ) (answer : Result Fired FireRefused) (high high' : Option ℕ) (v w : CpuView R)
        → FiresPart R.Raise now answer high v high' w → IsPart now answer high v }
{}

/// While a CPU is suspended, and only then, a fire answers so, with no count; the CPU and what is handed out are as they were.
///
/// It does nothing when it runs: its clauses are the law.
pub fn suspended_law<R: Raise>()
    ensures answer { (now : ℕ) (answer : Result Fired FireRefused) (high high' : Option ℕ) (v w : CpuView R)
        → FiresPart R.Raise now answer high v high' w → ((v.suspended ≡ true) ↔ (answer ≡ asleep)) }
    ensures same { (now : ℕ) (answer : Result Fired FireRefused) (high high' : Option ℕ) (v w : CpuView R)
        → FiresPart R.Raise now answer high v high' w → v.suspended ≡ true → (w ≡ v) × (high' ≡ high) }
{}

/// A high cyclic that was handed out stays so while the CPU is suspended: however often it is suspended and resumed, and whatever
/// fires are refused meanwhile, the first fire at that moment or a later one that is made counts it, before all others, and calls
/// no other handler.
///
/// It does nothing when it runs: its clause is the law.
pub fn handed_out_law<R: Raise>()
    ensures { (now later id : ℕ) (stop answer : Result Fired FireRefused) (calls : List PartCall) (high high' high'' : Option ℕ)
        (u v w x : CpuView R) → later < never → now ≤ later → HasDistinctIds (timers u.cyclics)
        → All IsSoundTimer (timers u.cyclics)
        → FiresPart R.Raise now stop high u (Some id) v → stopped_at stop ≡ Some id
        → All IsRest calls → FoldsTo (MakesPart R.Raise) (paused (Some id) v) calls (paused high' w)
        → FiresPart R.Raise later answer high' w high'' x → w.suspended ≡ false
        → (high' ≡ Some id) × Counts later answer id (timers w.cyclics) }
{}

/// A fire in parts is one fire: where a CPU is fired at one moment again and again, each time but the last stopping in front of a
/// high cyclic, all that was due is made once, in order, the handlers are called for the cyclics that were handed out, in that
/// order, and what the parts counted is what one fire counts. The CPU may be suspended and resumed between any two of them, and
/// fires that are refused meanwhile count for nothing.
///
/// It does nothing when it runs: its clause is the law.
pub fn whole_fire_law<R: Raise>()
    ensures { (now : ℕ) (calls : List PartCall) (last : Fired) (v w : CpuView R) → now < never → HasDistinctIds (timers v.cyclics)
        → All IsSoundTimer (timers v.cyclics) → All (IsPaused now) calls
        → FoldsTo (MakesPart R.Raise) (paused None v) (calls ++ Part now (Ok last) ∷ []) (paused None w)
        → IsOneFire R.Raise now (answers calls) last (awake v) w }
{}
