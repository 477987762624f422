//! The law of the lines of a run, by name.

ghost use Rattle.std.specs.Prelude.{◌≡◌, ◌≢◌, ◌<◌, ◌≤◌, ◌+◌, ℕ, List, Some, length};
ghost use Rattle.std.specs.List.{slice_get};
ghost use Rattle.cyc_types.specs.declared.level.Level.{Level as OneLevel};
ghost use Rattle.cyc_script.specs.declared.script.Script.{Script as OneScript};
ghost use Rattle.cyc_threads.specs.declared.counting.Line.{Line as OneLine};
ghost use Rattle.cyc_threads.specs.declared.running.Ended.{Ended as Ends};
ghost use Rattle.cyc_threads.specs.Reporting.{counts_told};
ghost use Rattle.cyc_threads.specs.Running.{HasRun};
ghost use Rattle.cyc_thread_calls.specs.Calling.{calls_at_level, lead_calls, last_system, id_of_name};
ghost use Rattle.cyc_thread_calls.specs.Levels.{level_named};
ghost use Rattle.cyc_thread_calls.specs.Lines.{line_in};

use cyc_types::Calls;

/// What the report of a run in threads says of each name of its script: what its calls tell of the id that the name got. No more
/// was lost than expired. As often as it says, the handlers of the level of the name were called for that id, and no handler of
/// another level was.
///
/// It does nothing when it runs: its clauses are the law.
pub fn named_law<C: Calls>()
    ensures line { (script : OneScript) (calls : List C) (e : Ends C) (text : List ℕ)
        (r : HasRun C.Calls script calls e text) (name : ℕ) → name < length script.names.items
        → slice_get r.lines name ≡ Some (line_in (id_of_name C.Calls script calls e text r name)
        (lead_calls C.Calls script calls e text r) (last_system C.Calls script calls e text r)) }
    ensures few { (script : OneScript) (calls : List C) (e : Ends C) (text : List ℕ)
        (r : HasRun C.Calls script calls e text) (name : ℕ) (line : OneLine)
        → slice_get r.lines name ≡ Some line → line.lost ≤ line.expired }
    // What expired no more often than the greatest pend lost nothing.
    ensures spared { (script : OneScript) (calls : List C) (e : Ends C) (text : List ℕ)
        (r : HasRun C.Calls script calls e text) (name : ℕ) (line : OneLine)
        → slice_get r.lines name ≡ Some line → line.expired ≤ script.ceiling → line.lost ≡ 0 }
    ensures called { (script : OneScript) (calls : List C) (e : Ends C) (text : List ℕ)
        (r : HasRun C.Calls script calls e text) (name id : ℕ) (level : OneLevel) (line : OneLine)
        → slice_get r.lines name ≡ Some line → id_of_name C.Calls script calls e text r name ≡ Some id
        → level_named name script.steps.items ≡ Some level
        → calls_at_level C.count level id r.after ≡ calls_at_level C.count level id r.before + (counts_told line).called }
    ensures elsewhere { (script : OneScript) (calls : List C) (e : Ends C) (text : List ℕ)
        (r : HasRun C.Calls script calls e text) (name id : ℕ) (level other : OneLevel)
        → id_of_name C.Calls script calls e text r name ≡ Some id
        → level_named name script.steps.items ≡ Some level → other ≢ level
        → calls_at_level C.count other id r.after ≡ calls_at_level C.count other id r.before }
    // For an id that no name got no handler was called.
    ensures ungiven { (script : OneScript) (calls : List C) (e : Ends C) (text : List ℕ)
        (r : HasRun C.Calls script calls e text) (id : ℕ) (level : OneLevel)
        → ((name : ℕ) → name < length script.names.items
        → id_of_name C.Calls script calls e text r name ≡ Some id → ⊥)
        → calls_at_level C.count level id r.after ≡ calls_at_level C.count level id r.before }
{}
