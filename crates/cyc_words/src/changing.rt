//! The words that change where a cyclic is and when it expires, and those for a CPU.

ghost use Rattle.std.specs.Prelude.{◌≡◌, ℕ, pos, ◌<ℤ◌, List, Result, Err, IfOk, IfErr};
ghost use Rattle.cyc_types.specs.declared.refusal.Refusal.{Refusal as AnyRefusal};
ghost use Rattle.cyc_types.specs.declared.refusal.Refusal.TheVariants.{BadWhen, NoCyclic};
ghost use Rattle.cyc_script.specs.declared.step.Step.TheVariants as steps;
ghost use Rattle.cyc_system.specs.Calls.{Bind as BindCall, Changes, reprograms};
ghost use Rattle.cyc_words.specs.declared.named.Named.{Named as OneNamed};
ghost use Rattle.cyc_words.specs.Names.{named_at, cyclic_id};
ghost use Rattle.cyc_words.specs.Words.{WithId, word_answer, done};
ghost use Rattle.cyc_words.specs.Doing.{DoesCall, DoesWord, word_state};

use crate::answer::WordAnswer;
use crate::named::{Named, Names};
use crate::word::sound;
use cyc_script::{Name, Reprogram};
use cyc_system::System;
use cyc_types::{CyclicId, Moment, Raise, Refusal};

/// The id of a name's cyclic. Once that is removed there is none: a call for it would be refused, and change nothing.
pub(crate) fn id_of(named: Named) -> Option<CyclicId>
    ensures { result ≡ cyclic_id named }
{
    match named {
        Named::Nothing => None,
        Named::Cyclic(id) => Some(id),
        Named::Leaving(id) => Some(id),
        Named::Removed(_) => None,
    }
}

/// What a word answers whose call answers no more than that it was done.
fn told(answer: Result<(), Refusal>) -> Result<WordAnswer, Refusal>
    ensures { result ≡ word_answer done answer }
{
    match answer {
        Ok(()) => Ok(WordAnswer::Done),
        Err(why) => Err(why),
    }
}

/// The words `bind`, to a CPU, and `unbind`, to none.
pub(crate) fn bind<R: Raise>(
    system: &mut System<R>,
    names: &Names,
    name: Name,
    cpu: Option<u32>,
) -> Result<WordAnswer, Refusal>
    ensures { WithId (cyclic_id (named_at names.now name)) (λ id. (answer : Result (Unit {0}) AnyRefusal)
        × (result ≡ word_answer done answer)
        × DoesCall R.Raise name (BindCall id cpu answer) (word_state system.old names.now) (word_state system.new names.now))
        ((result ≡ Err NoCyclic) × (word_state system.new names.now ≡ word_state system.old names.now)) }
{
    let Some(id) = id_of(names.at(name.number())) else {
        return Err(Refusal::NoCyclic);
    };
    let answer = system.bind(id, cpu);
    sound(system);
    told(answer)
}

/// The moment of a step.
fn moment_of(reprogram: &Reprogram) -> Result<Moment, Refusal>
    ensures ok { IfOk result (λ moment. pos moment ≡ reprogram.now.moment) }
    ensures err { IfErr result (λ why. (why ≡ BadWhen) × (reprogram.now.moment <ℤ pos 0)) }
{
    Moment::new(reprogram.moment)
}

/// A cyclic gets another next expiration, or its component on the CPU where one is named.
fn reprogram_at<R: Raise>(
    system: &mut System<R>,
    id: CyclicId,
    cpu: Option<u32>,
    moment: Moment,
) -> Result<(), Refusal>
    ensures { Changes R.Raise system.old (reprograms cpu id moment result) system.new }
{
    match cpu {
        Some(number) => system.reprogram_on(id, number, moment),
        None => system.reprogram(id, moment),
    }
}

/// The word `reprogram`.
pub(crate) fn reprogram<R: Raise>(
    system: &mut System<R>,
    names: &Names,
    reprogram: &Reprogram,
) -> Result<WordAnswer, Refusal>
    ensures { (clock : ℕ) → DoesWord R.Raise clock (steps.Reprogram reprogram.now) result
        (word_state system.old names.now) (word_state system.new names.now) }
{
    let moment = moment_of(reprogram)?;
    let Some(id) = id_of(names.at(reprogram.name.number())) else {
        return Err(Refusal::NoCyclic);
    };
    let answer = reprogram_at(system, id, reprogram.cpu, moment);
    sound(system);
    told(answer)
}

/// The word `juggle`.
pub(crate) fn juggle<R: Raise>(system: &mut System<R>, cpu: u32) -> Result<WordAnswer, Refusal>
    ensures { (clock : ℕ) (names : List OneNamed) → DoesWord R.Raise clock (steps.Juggle cpu) result
        (word_state system.old names) (word_state system.new names) }
{
    let answer = system.juggle(cpu);
    sound(system);
    Ok(WordAnswer::Juggled(answer?))
}

/// The word `offline`.
pub(crate) fn offline<R: Raise>(system: &mut System<R>, cpu: u32) -> Result<WordAnswer, Refusal>
    ensures { (clock : ℕ) (names : List OneNamed) → DoesWord R.Raise clock (steps.Offline cpu) result
        (word_state system.old names) (word_state system.new names) }
{
    let answer = system.offline(cpu);
    sound(system);
    told(answer)
}

/// The word `online`: the CPU takes part again from the clock on.
pub(crate) fn online<R: Raise>(
    system: &mut System<R>,
    clock: Moment,
    cpu: u32,
) -> Result<WordAnswer, Refusal>
    ensures { (names : List OneNamed) → DoesWord R.Raise clock (steps.Online cpu) result
        (word_state system.old names) (word_state system.new names) }
{
    let answer = system.online(cpu, clock);
    sound(system);
    told(answer)
}

/// The word `suspend`.
pub(crate) fn suspend<R: Raise>(system: &mut System<R>) -> Result<WordAnswer, Refusal>
    ensures { (clock : ℕ) (names : List OneNamed) → DoesWord R.Raise clock steps.Suspend result
        (word_state system.old names) (word_state system.new names) }
{
    let answer = system.suspend();
    sound(system);
    told(answer)
}

/// The word `resume`.
pub(crate) fn resume<R: Raise>(system: &mut System<R>) -> Result<WordAnswer, Refusal>
    ensures { (clock : ℕ) (names : List OneNamed) → DoesWord R.Raise clock steps.Resume result
        (word_state system.old names) (word_state system.new names) }
{
    let answer = system.resume();
    sound(system);
    told(answer)
}
