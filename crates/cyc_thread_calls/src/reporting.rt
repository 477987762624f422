//! The law of what the report of a run says of each name.

ghost use Rattle.std.specs.Prelude.{◌≡◌, ◌<◌, ℕ, List, Some, length, replicate};
ghost use Rattle.std.specs.List.{slice_get};
ghost use Rattle.cyc_ring.specs.declared.ends.RaiseEnd.{RaiseEnd as AnEnd};
ghost use Rattle.cyc_ring.specs.Ends.{raise_end};
ghost use Rattle.cyc_script.specs.declared.step.Step.{Step};
ghost use Rattle.cyc_words.specs.declared.named.Named.TheVariants.{Nothing};
ghost use Rattle.cyc_threads.specs.declared.progress.Progress.{Progress};
ghost use Rattle.cyc_threads.specs.declared.counting.Line.{Line};
ghost use Rattle.cyc_threads.specs.Steps.{Runs};
ghost use Rattle.cyc_threads.specs.Counting.{Reports};
ghost use Rattle.cyc_thread_calls.specs.Giving.{id_given};
ghost use Rattle.cyc_thread_calls.specs.Leading.{all_calls};
ghost use Rattle.cyc_thread_calls.specs.Lines.{line_in};

use cyc_types::Calls;

/// The report of a run that begins with so many names that have nothing has a line for each of them. It says what the calls of
/// the run tell of the id that the name got: what its receipt has, where its removal has answered, and else what the system has
/// of it on all CPUs at the end. Nothing is pending. The line of a name that got no id has zeros.
///
/// It does nothing when it runs: its clauses are the law.
pub fn reported_law<C: Calls>()
    ensures many { (n : ℕ) (xs : List Step) (lines : List Line) (s t u : Progress AnEnd C)
        → Runs C.Calls raise_end s xs t → Reports raise_end lines t u
        → s.names ≡ replicate n Nothing → length lines ≡ n }
    ensures each { (n name : ℕ) (xs : List Step) (lines : List Line) (s t u : Progress AnEnd C)
        (runs : Runs C.Calls raise_end s xs t) (reports : Reports raise_end lines t u)
        → s.names ≡ replicate n Nothing → name < n
        → slice_get lines name ≡ Some (line_in (id_given C.Calls raise_end name s xs t runs)
        (all_calls C.Calls raise_end xs lines s t u runs reports) u.side.system) }
{}
