//! The law of the report.

ghost use Rattle.std.specs.Prelude.{◌≡◌, ℕ, List, length, Some};
ghost use Rattle.std.specs.List.{slice_get};
ghost use Rattle.cyc_ring.specs.Ends.{raise_end};
ghost use Rattle.cyc_script.specs.declared.script.Script.{Script};
ghost use Rattle.cyc_threads.specs.declared.counting.Line.{Line};
ghost use Rattle.cyc_threads.specs.declared.running.Ended.{Ended};
ghost use Rattle.cyc_threads.specs.Reporting.{counts_told};
ghost use Rattle.cyc_threads.specs.Running.{HasRun};
ghost use Rattle.cyc_thread_calls.specs.Meeting.{way_of_run};
ghost use Rattle.cyc_thread_calls.specs.Reported.{IsReported};

use cyc_types::Calls;

/// The report of a run of a script in threads has a line for each name, and each says just what is expected of its name: as many
/// expirations as the closed form counts, from the words of the script and from which of them were accepted alone, whatever the
/// threads did. Each of them was called or lost, and no call is outstanding; a name of which no more is expected than the ceiling
/// has lost none.
///
/// It does nothing when it runs: its clauses are the law.
pub fn report_law<C: Calls>()
    ensures many { (script : Script) (calls : List C) (e : Ended C) (text : List ℕ)
        (r : HasRun C.Calls script calls e text) → length r.lines ≡ length script.names.items }
    ensures each { (script : Script) (calls : List C) (e : Ended C) (text : List ℕ)
        (r : HasRun C.Calls script calls e text) (name : ℕ) (line : Line)
        → slice_get r.lines name ≡ Some line → IsReported script.cpus script.ceiling
        (way_of_run C.Calls raise_end r.played.first script.steps.items r.played.last r.played.runs)
        name (counts_told line) }
{}
