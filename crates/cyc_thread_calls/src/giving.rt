//! The law of the ids that a run gives to names.

ghost use Rattle.std.specs.Prelude.{◌≡◌, ◌<◌, ℕ, List, Some, length, replicate};
ghost use Rattle.cyc_script.specs.declared.step.Step.{Step};
ghost use Rattle.cyc_words.specs.declared.named.Named.TheVariants.{Nothing};
ghost use Rattle.cyc_threads.specs.declared.progress.Progress.{Progress};
ghost use Rattle.cyc_threads.specs.Steps.{Runs};
ghost use Rattle.cyc_thread_calls.specs.Giving.{id_given};
ghost use Rattle.cyc_types.specs.declared.level.Level.{Level as OneLevel};
ghost use Rattle.cyc_script.specs.declared.script.Script.{Script as OneScript};
ghost use Rattle.cyc_system_rings.specs.ByLevel.{level_in};
ghost use Rattle.cyc_threads.specs.declared.running.Ended.{Ended as Ends};
ghost use Rattle.cyc_threads.specs.Running.{HasRun};
ghost use Rattle.cyc_thread_calls.specs.Calling.{lead_calls, id_of_name};

use cyc_types::{Calls, Raise};

/// A run that begins with no name that has anything gives no id to two names.
///
/// It does nothing when it runs: its clause is the law.
pub fn giving_law<C: Calls, R: Raise>()
    ensures { (xs : List Step) (s t : Progress R C) (runs : Runs C.Calls R.Raise s xs t)
        (n a b id : ℕ) → s.names ≡ replicate n Nothing
        → id_given C.Calls R.Raise a s xs t runs ≡ Some id
        → id_given C.Calls R.Raise b s xs t runs ≡ Some id → a ≡ b }
{}

/// Each id that a call of a run of a script gave is that of exactly one of its names.
///
/// It does nothing when it runs: its clauses are the law.
pub fn owned_law<C: Calls>()
    ensures some { (script : OneScript) (calls : List C) (e : Ends C) (text : List ℕ)
        (r : HasRun C.Calls script calls e text) (id : ℕ) (level : OneLevel)
        → level_in id (lead_calls C.Calls script calls e text r) ≡ Some level
        → (name : ℕ) × (name < length script.names.items)
        × (id_of_name C.Calls script calls e text r name ≡ Some id) }
    ensures one { (script : OneScript) (calls : List C) (e : Ends C) (text : List ℕ)
        (r : HasRun C.Calls script calls e text) (a b id : ℕ)
        → id_of_name C.Calls script calls e text r a ≡ Some id
        → id_of_name C.Calls script calls e text r b ≡ Some id → a ≡ b }
{}
