//! The law that a run of a script in threads is a run of calls that lead a system.

ghost use Rattle.std.specs.Prelude.{ℕ, List};
ghost use Rattle.std.specs.List.{FoldsTo};
ghost use Rattle.cyc_script.specs.declared.step.Step.{Step};
ghost use Rattle.cyc_threads.specs.declared.progress.Progress.{Progress};
ghost use Rattle.cyc_threads.specs.declared.counting.Line.{Line};
ghost use Rattle.cyc_threads.specs.Steps.{Runs};
ghost use Rattle.cyc_threads.specs.Counting.{Reports};
ghost use Rattle.cyc_system_rings.specs.Events.{AcceptedSteps};
ghost use Rattle.cyc_ring.specs.Ends.{raise_end};
ghost use Rattle.cyc_script.specs.declared.script.Script.{Script as OneScript};
ghost use Rattle.cyc_system_rings.specs.ByLevel.{LeadsFromNew, HasNewEnds};
ghost use Rattle.cyc_system_rings.specs.Rings.{AreSettledAndClosed};
ghost use Rattle.cyc_threads.specs.declared.running.Ended.{Ended as Ends};
ghost use Rattle.cyc_threads.specs.Running.{HasRun};
ghost use Rattle.cyc_thread_calls.specs.Calling.{lead_calls, last_system};
ghost use Rattle.cyc_thread_calls.specs.Leading.{all_calls};

use cyc_types::{Calls, Raise};

/// A run of a script in threads with its report is, to its system, the calls that its steps made, one after another: the polls
/// and the questions of each wait, the call of each step, an advance of all online CPUs for each `advance`, and the totals that
/// were asked for the report. No fire of it was refused, and the system is sound after each of them.
///
/// It does nothing when it runs: its clause is the law.
pub fn leading_law<C: Calls, R: Raise>()
    ensures { (xs : List Step) (lines : List Line) (s t u : Progress R C)
        (runs : Runs C.Calls R.Raise s xs t) (reports : Reports R.Raise lines t u)
        → FoldsTo (AcceptedSteps C.Calls R.Raise) s.side
        (all_calls C.Calls R.Raise xs lines s t u runs reports) u.side }
{}

/// From its opening to its closing a run of a script in threads is such calls of a new system over new rings. At the end all CPUs
/// have settled, and the rings that come back were closed over them.
///
/// It does nothing when it runs: its clauses are the law.
pub fn opened_law<C: Calls>()
    ensures new { (script : OneScript) (calls : List C) (e : Ends C) (text : List ℕ)
        (r : HasRun C.Calls script calls e text)
        → LeadsFromNew C.Calls r.played.first.side (lead_calls C.Calls script calls e text r) r.played.told.side }
    ensures accepted { (script : OneScript) (calls : List C) (e : Ends C) (text : List ℕ)
        (r : HasRun C.Calls script calls e text)
        → FoldsTo (AcceptedSteps C.Calls raise_end) r.played.first.side
        (lead_calls C.Calls script calls e text r) r.played.told.side }
    ensures ends { (script : OneScript) (calls : List C) (e : Ends C) (text : List ℕ)
        (r : HasRun C.Calls script calls e text) → HasNewEnds r.played.first.side.system }
    ensures closed { (script : OneScript) (calls : List C) (e : Ends C) (text : List ℕ)
        (r : HasRun C.Calls script calls e text)
        → AreSettledAndClosed (last_system C.Calls script calls e text r).cpus.cpus e.rings.items }
{}
