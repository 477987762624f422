//! The law of how the steps were met.

ghost use Rattle.std.specs.Prelude.{◌≡◌, ℕ, List, map, true, is_some};
ghost use Rattle.std.specs.List.{FoldsTo};
ghost use Rattle.cyc_script.specs.declared.step.Step.{Step};
ghost use Rattle.cyc_threads.specs.declared.progress.Progress.{Progress};
ghost use Rattle.cyc_threads.specs.Steps.{Runs};
ghost use Rattle.cyc_threads.specs.Words.{DoesStep};
ghost use Rattle.cyc_thread_calls.specs.Giving.{given_in, introduces};
ghost use Rattle.cyc_thread_calls.specs.Leading.{call_of};
ghost use Rattle.cyc_thread_calls.specs.Meeting.{was_accepted, way_of_run};

use cyc_types::{Calls, Raise};

/// Each step of a run is met, in order. One that introduces a name was accepted just where it gave the name an id.
///
/// It does nothing when it runs: its clauses are the law.
pub fn meeting_law<C: Calls, R: Raise>()
    ensures all { (xs : List Step) (s t : Progress R C) (runs : Runs C.Calls R.Raise s xs t)
        → map (λ m. m.step) (way_of_run C.Calls R.Raise s xs t runs) ≡ xs }
    ensures given { (x : Step) (s t : Progress R C) (does : DoesStep C.Calls R.Raise x s t) (name : ℕ)
        → introduces name x ≡ true → was_accepted C.Calls R.Raise x s t does
        ≡ is_some (given_in name x (call_of C.Calls R.Raise x s t does)) }
{}
