//! The word of a step, and the words that add cyclics.

ghost use Rattle.std.specs.Prelude.{◌≡◌, ◌<◌, ◌⊎◌, pos, ◌<ℤ◌, IfOk, IfErr};
ghost use Rattle.cyc_script.specs.declared.step.Step.TheVariants as steps;
ghost use Rattle.cyc_system.specs.Agreement.{Agrees};
ghost use Rattle.cyc_system.specs.Counts.{IsFit, AreLawful};
ghost use Rattle.cyc_words.specs.Words.{MakesCall, no_series};
ghost use Rattle.cyc_words.specs.Doing.{DoesWord, word_state};

use crate::answer::WordAnswer;
use crate::changing::{bind, juggle, offline, online, reprogram, resume, suspend};
use crate::named::{Named, Names};
use crate::removing::remove;
use cyc_script::{Add, Omni, Step};
use cyc_system::System;
use cyc_types::{Moment, Raise, Refusal, When};

/// What is true of every system. It does nothing when it runs.
pub(crate) fn sound<R: Raise>(system: &System<R>)
    ensures agrees { Agrees system.now }
    ensures fit { IsFit system.now }
    ensures lawful { AreLawful R.view system.now }
{
    system.law();
    system.fit_law();
}

/// The series of this start and this interval, where they are those of one.
fn series(start: i64, interval: i64) -> Result<When, Refusal>
    ensures ok { IfOk result (λ when. (pos when.start ≡ start) × (pos when.interval ≡ interval) × (0 < when.interval)) }
    ensures err { IfErr result (λ why. ((start <ℤ pos 0) ⊎ (interval <ℤ pos 1)) × (why ≡ no_series start)) }
{
    When::new(start, interval)
}

/// The word `add`: adds a cyclic at the clock, and gives the name its id.
fn add<R: Raise>(
    system: &mut System<R>,
    names: &mut Names,
    clock: Moment,
    added: &Add,
) -> Result<WordAnswer, Refusal>
    ensures { DoesWord R.Raise clock (steps.Add added.now) result
        (word_state system.old names.old) (word_state system.new names.new) }
{
    let when = series(added.start, added.interval)?;
    let answer = system.add(added.level, when, clock);
    sound(system);
    let id = answer?;
    names.set(added.name.number(), Named::Cyclic(id));
    Ok(WordAnswer::Added(id))
}

/// The word `omni`: adds an omnipresent cyclic at the clock, and gives the name its id.
fn add_omni<R: Raise>(
    system: &mut System<R>,
    names: &mut Names,
    clock: Moment,
    added: &Omni,
) -> Result<WordAnswer, Refusal>
    ensures { DoesWord R.Raise clock (steps.Omni added.now) result
        (word_state system.old names.old) (word_state system.new names.new) }
{
    let when = series(added.start, added.interval)?;
    let answer = system.add_omni(added.level, when, added.skew, clock);
    sound(system);
    let id = answer?;
    names.set(added.name.number(), Named::Cyclic(id));
    Ok(WordAnswer::Added(id))
}

/// Takes the word of a step, which is no `advance` and no `softint`: makes its call of the system, at the clock, and notes what
/// the answer tells of a name.
///
/// Refuses with BadWhen where the start of a series or the moment is negative, then with BadInterval, then with NoCyclic where
/// the name has no cyclic; the system is not called then. Else it refuses as the call does, whose memory it takes.
pub fn take_word<R: Raise>(
    system: &mut System<R>,
    names: &mut Names,
    clock: Moment,
    word: &Step,
) -> Result<WordAnswer, Refusal>
    requires { MakesCall word.now }
    ensures { DoesWord R.Raise clock word.now result
        (word_state system.old names.old) (word_state system.new names.new) }
{
    match word {
        Step::Add(added) => add(system, names, clock, added),
        Step::Omni(added) => add_omni(system, names, clock, added),
        Step::Bind(bound) => bind(system, names, bound.name, Some(bound.cpu)),
        Step::Unbind(name) => bind(system, names, *name, None),
        Step::Reprogram(moved) => reprogram(system, names, moved),
        Step::Remove(name) => remove(system, names, *name),
        Step::Advance(_) => unreachable!(),
        Step::Softint(_) => unreachable!(),
        Step::Juggle(cpu) => juggle(system, *cpu),
        Step::Offline(cpu) => offline(system, *cpu),
        Step::Online(cpu) => online(system, clock, *cpu),
        Step::Suspend => suspend(system),
        Step::Resume => resume(system),
    }
}
