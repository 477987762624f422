//! The law of why the steps of a run are refused.

ghost use Rattle.std.specs.Prelude.{ℕ, List, length};
ghost use Rattle.cyc_ring.specs.Ends.{raise_end};
ghost use Rattle.cyc_script.specs.declared.script.Script.{Script as OneScript};
ghost use Rattle.cyc_thread_calls.specs.Ended.{Ended as Ends};
ghost use Rattle.cyc_thread_calls.specs.Running.{HasRun};
ghost use Rattle.cyc_thread_reasons.specs.Known.{known_first};
ghost use Rattle.cyc_thread_reasons.specs.Explained.{AllExplained};

use cyc_types::Calls;

/// Each step of a run of a script in threads is accepted, or has a reason: its own numbers, or what the accepted steps before it
/// told of its name, of its CPU, of room, or of a removal that may be open; or memory was refused to it; or a move of it came to
/// a CPU that an earlier move of the same step had made grow.
///
/// It does nothing when it runs: its clause is the law.
pub fn reasons_law<C: Calls>()
    ensures { (script : OneScript) (calls : List C) (e : Ends C) (text : List ℕ) (r : HasRun C.Calls script calls e text)
        → AllExplained C.Calls raise_end (known_first script.cpus (length script.names.items)) r.played.first script.steps.items
        r.played.last r.played.runs }
{}
