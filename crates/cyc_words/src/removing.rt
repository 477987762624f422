//! The word that ends a cyclic, and the polls of its removal.

ghost use Rattle.std.specs.Prelude.{◌≡◌, ℕ, Ok, Result};
ghost use Rattle.cyc_script.specs.declared.step.Step.TheVariants as steps;
ghost use Rattle.cyc_system.specs.Calls.{BeginRemove, PollRemove};
ghost use Rattle.cyc_words.specs.Names.{news, noted};
ghost use Rattle.cyc_words.specs.Doing.{DoesCall, DoesWord, word_state};

use crate::answer::WordAnswer;
use crate::changing::id_of;
use crate::named::{Named, Names};
use crate::word::sound;
use cyc_agreement::SystemRemoval;
use cyc_script::Name;
use cyc_system::System;
use cyc_types::{CyclicId, Raise, Receipt, Refusal};

/// The name has what the beginning of its cyclic's removal answered.
fn note(names: &mut Names, name: usize, id: CyclicId, begun: SystemRemoval)
    ensures { names.new ≡ noted name (news (BeginRemove id (Ok begun))) names.old }
{
    match begun {
        SystemRemoval::Done(receipt) => names.set(name, Named::Removed(receipt)),
        SystemRemoval::Kept(_) => names.set(name, Named::Leaving(id)),
    }
}

/// The word `remove`: begins the removal of a name's cyclic.
pub(crate) fn remove<R: Raise>(
    system: &mut System<R>,
    names: &mut Names,
    name: Name,
) -> Result<WordAnswer, Refusal>
    ensures { (clock : ℕ) → DoesWord R.Raise clock (steps.Remove name) result
        (word_state system.old names.old) (word_state system.new names.new) }
{
    let number = name.number();
    let Some(id) = id_of(names.at(number)) else {
        return Err(Refusal::NoCyclic);
    };
    let answer = system.begin_remove(id);
    sound(system);
    let begun = answer?;
    let told = begun;
    note(names, number, id, begun);
    Ok(WordAnswer::Removing(told))
}

/// Polls the open removal of the cyclic of a name once. Where it answers, the name has the receipt. It refuses as
/// `System::poll_remove` does.
pub fn poll<R: Raise>(
    system: &mut System<R>,
    names: &mut Names,
    name: usize,
    id: CyclicId,
) -> Result<Option<Receipt>, Refusal>
    ensures { DoesCall R.Raise name (PollRemove id result)
        (word_state system.old names.old) (word_state system.new names.new) }
{
    let answer = system.poll_remove(id);
    sound(system);
    let Some(receipt) = answer? else {
        return Ok(None);
    };
    let told = receipt;
    names.set(name, Named::Removed(receipt));
    Ok(Some(told))
}
