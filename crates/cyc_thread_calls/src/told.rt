//! The law that a script's words tell of a name what their calls tell of its id.

ghost use Rattle.std.specs.Prelude.{◌≡◌, ℕ, List, Some, None, replicate};
ghost use Rattle.cyc_script.specs.declared.step.Step.{Step};
ghost use Rattle.cyc_script.specs.WellFormed.{IsWellFormed};
ghost use Rattle.cyc_expected.specs.Course.{Told, told_by};
ghost use Rattle.cyc_expected.specs.Expected.{course_events, expected};
ghost use Rattle.cyc_system_rings.specs.Events.{events_in};
ghost use Rattle.cyc_words.specs.declared.named.Named.TheVariants.{Nothing};
ghost use Rattle.cyc_threads.specs.declared.progress.Progress.{Progress};
ghost use Rattle.cyc_threads.specs.declared.counting.Line.{Line};
ghost use Rattle.cyc_threads.specs.Steps.{Runs};
ghost use Rattle.cyc_threads.specs.Counting.{Reports};
ghost use Rattle.cyc_thread_calls.specs.Leading.{all_calls};
ghost use Rattle.cyc_thread_calls.specs.Meeting.{way_of_run};
ghost use Rattle.cyc_thread_calls.specs.Giving.{id_given};

use cyc_types::{Calls, Raise};

/// What the accepted steps of a run are to a name, its calls are to the id that the run gave the name: whatever was told before,
/// after either the same is told.
///
/// It does nothing when it runs: its clauses are the law.
pub fn telling_law<C: Calls, R: Raise>()
    ensures named { (xs : List Step) (lines : List Line) (s t u : Progress R C) (names name id : ℕ)
        (runs : Runs C.Calls R.Raise s xs t) (reports : Reports R.Raise lines t u) (told : Told)
        → IsWellFormed xs names → s.names ≡ replicate names Nothing
        → id_given C.Calls R.Raise name s xs t runs ≡ Some id
        → told_by (events_in id (all_calls C.Calls R.Raise xs lines s t u runs reports)) told
        ≡ told_by (course_events name s.clock (way_of_run C.Calls R.Raise s xs t runs)) told }
    // A name that got no id is expected never to expire.
    ensures unnamed { (xs : List Step) (s t : Progress R C) (cpus name : ℕ)
        (runs : Runs C.Calls R.Raise s xs t)
        → id_given C.Calls R.Raise name s xs t runs ≡ None
        → expected cpus (way_of_run C.Calls R.Raise s xs t runs) name ≡ 0 }
{}
