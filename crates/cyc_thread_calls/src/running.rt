//! The laws of how the steps of a calm script are met.

ghost use Rattle.std.specs.Prelude.{◌≡◌, ℕ, List, length};
ghost use Rattle.cyc_ring.specs.declared.ends.RaiseEnd.{RaiseEnd};
ghost use Rattle.cyc_ring.specs.Ends.{raise_end};
ghost use Rattle.cyc_script.specs.declared.script.Script.{Script as AnyScript};
ghost use Rattle.cyc_expected.specs.Expected.{expected};
ghost use Rattle.cyc_expected.specs.Calm.{AgreeButMoves};
ghost use Rattle.cyc_threads.specs.Seated.{Seated};
ghost use Rattle.cyc_threads.specs.declared.progress.Progress.{Progress};
ghost use Rattle.cyc_threads.specs.Steps.{Runs};
ghost use Rattle.cyc_threads.specs.Running.{IsAtFirst};
ghost use Rattle.cyc_thread_calls.specs.Leading.{run_calls};
ghost use Rattle.cyc_thread_calls.specs.Meeting.{way_of_run};
ghost use Rattle.cyc_thread_calls.specs.Calm.{IsCalm};
ghost use Rattle.cyc_thread_calls.specs.Way.{calm_way};
ghost use Rattle.cyc_thread_calls.specs.Memory.{NoMemoryRefused};

use cyc_types::Calls;

/// Which steps of a calm script a run in threads accepts can be told from the script alone, where memory was refused to none of
/// its calls. Only moves may be accepted in one run and refused in another. However the threads ran, no other step is refused
/// for want of room, for a soft side that has not followed, for a removal that is open, or for a call that is outstanding.
///
/// It does nothing when it runs: its clause is the law.
pub fn calm_run_law<C: Calls>()
    ensures { (script : AnyScript) (all : List (Seated C)) (first last : Progress RaiseEnd C)
        (runs : Runs C.Calls raise_end first script.steps.items last)
        → IsCalm script → length all ≡ script.cpus
        → IsAtFirst (length script.names.items) all first
        → NoMemoryRefused (run_calls C.Calls raise_end first script.steps.items last runs)
        → AgreeButMoves (way_of_run C.Calls raise_end first script.steps.items last runs)
        (calm_way script.cpus script.steps.items) }
{}

/// So what is expected of each name of a calm script is the same in every such run.
///
/// It does nothing when it runs: its clause is the law.
pub fn calm_expected_law<C: Calls>()
    ensures { (script : AnyScript) (all : List (Seated C)) (first last : Progress RaiseEnd C)
        (runs : Runs C.Calls raise_end first script.steps.items last) (name : ℕ)
        → IsCalm script → length all ≡ script.cpus
        → IsAtFirst (length script.names.items) all first
        → NoMemoryRefused (run_calls C.Calls raise_end first script.steps.items last runs)
        → expected script.cpus
        (way_of_run C.Calls raise_end first script.steps.items last runs) name
        ≡ expected script.cpus (calm_way script.cpus script.steps.items) name }
{}
