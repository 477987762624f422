//! The law of the polls of a run.

ghost use Rattle.std.specs.Prelude.{ℕ, List, All};
ghost use Rattle.cyc_script.specs.declared.script.Script.{Script as OneScript};
ghost use Rattle.cyc_threads.specs.declared.running.Ended.{Ended as Ends};
ghost use Rattle.cyc_threads.specs.Running.{HasRun};
ghost use Rattle.cyc_thread_calls.specs.Answering.{IsAnsweredPoll};
ghost use Rattle.cyc_thread_calls.specs.Calling.{lead_calls};

use cyc_types::Calls;

/// A removal that stays open as it begins is open until a poll gives its receipt: no poll of a run of a script in threads is
/// refused.
///
/// It does nothing when it runs: its clause is the law.
pub fn answering_law<C: Calls>()
    ensures { (script : OneScript) (calls : List C) (e : Ends C) (text : List ℕ)
        (r : HasRun C.Calls script calls e text)
        → All IsAnsweredPoll (lead_calls C.Calls script calls e text r) }
{}
