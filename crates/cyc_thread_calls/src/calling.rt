//! The law of the calls that a run of a script in threads makes.

ghost use Rattle.std.specs.Prelude.{◌≡◌, ◌+◌, ℕ, List};
ghost use Rattle.cyc_types.specs.Levels.{as_level};
ghost use Rattle.cyc_types.specs.declared.level.Level.{Level as OneLevel};
ghost use Rattle.cyc_types.specs.declared.level.Soft.{Soft as SoftLevel};
ghost use Rattle.cyc_script.specs.declared.script.Script.{Script as OneScript};
ghost use Rattle.cyc_system_rings.specs.ByLevel.{counts_at, made_at};
ghost use Rattle.cyc_threads.specs.declared.running.Ended.{Ended as Ends};
ghost use Rattle.cyc_threads.specs.Running.{HasRun};
ghost use Rattle.cyc_thread_calls.specs.Calling.{calls_at_level, lead_calls, last_system};

use cyc_types::Calls;

/// The handlers that a run of a script in threads gives back were called, for each id, once for each of its expirations that was
/// not lost, by the workers of the level with which the id was given; for it no handler of another level was called.
///
/// It does nothing when it runs: its clauses are the law.
pub fn called_law<C: Calls>()
    ensures called { (script : OneScript) (calls : List C) (e : Ends C) (text : List ℕ)
        (r : HasRun C.Calls script calls e text) (level : OneLevel) (id : ℕ)
        → calls_at_level C.count level id r.after + (counts_at level id (lead_calls C.Calls script calls e text r)
        (last_system C.Calls script calls e text r)).lost ≡ calls_at_level C.count level id r.before
        + (counts_at level id (lead_calls C.Calls script calls e text r)
        (last_system C.Calls script calls e text r)).sent }
    // As often the soft sides of the level's rings, which come back closed, made a call of it.
    ensures made { (script : OneScript) (calls : List C) (e : Ends C) (text : List ℕ)
        (r : HasRun C.Calls script calls e text) (soft : SoftLevel) (id : ℕ)
        → made_at soft id e.rings.items
        + (counts_at (as_level soft) id (lead_calls C.Calls script calls e text r)
        (last_system C.Calls script calls e text r)).lost
        ≡ (counts_at (as_level soft) id (lead_calls C.Calls script calls e text r)
        (last_system C.Calls script calls e text r)).sent }
{}
