//! The steps of a script, with their lines, and the words that make a call of the system.

ghost use Rattle.std.specs.Prelude.{◌≡◌, ◌≢◌, ◌≤◌, ℕ, map, string_bytes, OnOk, IfErr, Err};
ghost use Rattle.cyc_types.specs.declared.refusal.Refusal.TheVariants.{Memory};
ghost use Rattle.cyc_text.specs.Status.{IsMemory};
ghost use Rattle.cyc_script.specs.Limits.{most_steps};
ghost use Rattle.cyc_cpu.specs.Soft.{raise_tables};
ghost use Rattle.cyc_model.specs.State.{State};
ghost use Rattle.cyc_model.specs.Script.{text_in};
ghost use Rattle.cyc_words.specs.Words.{MakesCall};
ghost use Rattle.cyc_words.specs.Doing.{DoesWord, word_state};
ghost use Rattle.cyc_replay.specs.Machine.{ShowsMachine, HasName, IsReached};
ghost use Rattle.cyc_replay.specs.WordLines.{begun_line, name_in_word, named_by, why_line, word_line};
ghost use Rattle.cyc_replay.specs.Words.{SetsBelowNever, TakesWord};

use crate::advancing::take_advance;
use crate::interrupting::take_softint;
use crate::lines::name_text;
use crate::machine::{Machine, set_name};
use cyc_agreement::SystemRemoval;
use cyc_script::Step;
use cyc_text::{
    RunFault, write_accepted, write_kept, write_left, write_moved, write_refused, write_removed,
};
use cyc_types::Refusal;
use cyc_words::{WordAnswer, take_word};
use std::alloc::AllocError;

/// The number of the name that a word gives an id, or whose cyclic it removes. 0 for the others.
fn name_in(word: &Step) -> usize
    ensures { result ≡ name_in_word word.now }
{
    match word {
        Step::Add(added) => added.name.number(),
        Step::Omni(added) => added.name.number(),
        Step::Remove(name) => name.number(),
        _ => 0,
    }
}

/// The id that a word gave is that of its name.
fn note_id(named: &mut Vec<usize>, word: &Step, answer: &Result<WordAnswer, Refusal>)
    ensures { named.new.items ≡ named_by (name_in_word word.now) answer.now named.old.items }
{
    if let Ok(WordAnswer::Added(id)) = answer {
        set_name(named, *id, name_in(word));
    }
}

/// Takes a word that makes at most one call of the system.
fn do_word(machine: &mut Machine, word: &Step) -> Result<WordAnswer, Refusal>
    requires { MakesCall word.now }
    ensures did { DoesWord raise_tables machine.old.clock word.now result
        (word_state machine.old.system machine.old.names) (word_state machine.new.system machine.new.names) }
    ensures named { machine.new.named.items ≡ named_by (name_in_word word.now) result machine.old.named.items }
    ensures clock { machine.new.clock ≡ machine.old.clock }
    ensures tally { machine.new.tally ≡ machine.old.tally }
{
    let answer = take_word(&mut machine.system, &mut machine.names, machine.clock, word);
    note_id(&mut machine.named, word, &answer);
    answer
}

/// Replaces the line by that of a removal that began.
fn write_begun(
    line: &mut String,
    names: &[String],
    step: u32,
    name: usize,
    begun: SystemRemoval,
) -> Result<(), AllocError>
    ensures { OnOk result (string_bytes line.new ≡ begun_line step (text_in (map string_bytes names.now) name) begun) }
{
    match begun {
        SystemRemoval::Done(receipt) => write_removed(
            line,
            step,
            name_text(names, name),
            receipt.calls(),
        ),
        SystemRemoval::Kept(waits) => write_kept(line, step, waits),
    }
}

/// Replaces the line by that of a word that was refused. Where memory was refused the run is.
fn write_why(line: &mut String, step: u32, word: &Step, why: Refusal) -> Result<(), RunFault>
    ensures line { OnOk result (string_bytes line.new ≡ why_line word.now why step) }
    ensures other { OnOk result (why ≢ Memory) }
    ensures memory { IfErr result IsMemory }
{
    match why {
        Refusal::Memory => return Err(RunFault::Refused(Refusal::Memory)),
        Refusal::Left(report) => match word {
            Step::Offline(_) => write_left(line, step, &report)?,
            _ => write_refused(line, step, why.number())?,
        },
        other => write_refused(line, step, other.number())?,
    }
    Ok(())
}

/// Replaces the line by that of a word. Where memory was refused the run is.
fn write_word(
    line: &mut String,
    names: &[String],
    step: u32,
    word: &Step,
    answer: Result<WordAnswer, Refusal>,
) -> Result<(), RunFault>
    ensures line { OnOk result (string_bytes line.new ≡ word_line (map string_bytes names.now) step word.now answer) }
    ensures other { OnOk result (answer ≢ Err Memory) }
    ensures memory { IfErr result IsMemory }
{
    match answer {
        Ok(WordAnswer::Added(_)) => write_accepted(line, step)?,
        Ok(WordAnswer::Removing(begun)) => write_begun(line, names, step, name_in(word), begun)?,
        Ok(WordAnswer::Juggled(report)) => write_moved(line, step, &report)?,
        Ok(WordAnswer::Done) => write_accepted(line, step)?,
        Err(why) => write_why(line, step, word, why)?,
    }
    Ok(())
}

/// A word that makes at most one call of the system, with its line. It refuses as `take_word` of `cyc_words`.
fn take_call(
    machine: &mut Machine,
    names: &[String],
    line: &mut String,
    step: u32,
    word: &Step,
) -> Result<(), RunFault>
    requires { MakesCall word.now }
    ensures takes { OnOk result ((s : State) → IsReached step s → HasName word.now s → ShowsMachine s machine.old
        → TakesWord (map string_bytes names.now) step word.now (string_bytes line.new) s machine.new) }
    ensures memory { IfErr result IsMemory }
{
    let answer = do_word(machine, word);
    write_word(line, names, step, word, answer)
}

/// Takes a step, and writes its line, or its lines where removals were answered.
pub(crate) fn take_step(
    machine: &mut Machine,
    names: &[String],
    line: &mut String,
    step: u32,
    taken: &Step,
) -> Result<(), RunFault>
    requires few { step ≤ most_steps }
    requires before { SetsBelowNever taken.now }
    requires reached { (s : State) × IsReached step s × ShowsMachine s machine.old }
    ensures takes { OnOk result ((s : State) → IsReached step s → HasName taken.now s → ShowsMachine s machine.old
        → TakesWord (map string_bytes names.now) step taken.now (string_bytes line.new) s machine.new) }
    ensures memory { IfErr result IsMemory }
{
    match taken {
        Step::Advance(moment) => take_advance(machine, line, step, *moment),
        Step::Softint(softint) => take_softint(machine, names, line, step, softint),
        _ => take_call(machine, names, line, step, taken),
    }
}
