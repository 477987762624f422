//! The law of the report of a calm script.

ghost use Rattle.std.specs.Prelude.{◌≡◌, ℕ, List};
ghost use Rattle.cyc_script.specs.declared.script.Script.{Script as AnyScript};
ghost use Rattle.cyc_threads.specs.declared.running.Ended.{Ended as AnyEnd};
ghost use Rattle.cyc_threads.specs.Running.{HasRun};
ghost use Rattle.cyc_thread_calls.specs.Calm.{IsCalm};
ghost use Rattle.cyc_thread_calls.specs.Memory.{NoMemoryRefused};
ghost use Rattle.cyc_thread_calls.specs.Runs.{calls_of_run};
ghost use Rattle.cyc_thread_calls.specs.Text.{IsBelowCeiling, calm_text};

use cyc_types::Calls;

/// The bytes of the report of a calm script are a function of the script, where memory was refused to none of the run's calls and
/// no name expires more often than the ceiling: however the threads ran, each expiration of each name was called, and there are
/// as many as the closed form says.
///
/// It does nothing when it runs: its clause is the law.
pub fn calm_text_law<C: Calls>()
    ensures { (script : AnyScript) (calls : List C) (e : AnyEnd C) (text : List ℕ)
        (run : HasRun C.Calls script calls e text)
        → IsCalm script
        → NoMemoryRefused (calls_of_run C.Calls script calls e text run) → IsBelowCeiling script
        → text ≡ calm_text script }
{}
