//! The line of each step.

ghost use Rattle.std.specs.Prelude.{◌≡◌, ◌≢◌, map, OnOk, OnErr, IfErr, string_bytes, Err};
ghost use Rattle.cyc_types.specs.declared.refusal.Refusal.TheVariants.{Memory};
ghost use Rattle.cyc_text.specs.Status.{IsMemory};
ghost use Rattle.cyc_model.specs.Script.{text_in};
ghost use Rattle.cyc_replay.specs.Words.{answer_line};

use cyc_text::{RunFault, write_accepted, write_refused};
use cyc_types::Refusal;

/// The text of a name.
pub(crate) fn name_text(names: &[String], name: usize) -> &str
    ensures { result.now ≡ text_in (map string_bytes names.now) name }
{
    if name < names.len() {
        names[name].as_str()
    } else {
        ""
    }
}

/// Replaces the line by that of a step which says no more than whether it was done. Where memory was refused the run is.
pub fn write_answer(
    line: &mut String,
    step: u32,
    answer: Result<(), Refusal>,
) -> Result<(), RunFault>
    ensures line { OnOk result (string_bytes line.new ≡ answer_line step answer) }
    ensures other { OnOk result (answer ≢ Err Memory) }
    ensures memory { IfErr result IsMemory }
{
    match answer {
        Ok(()) => write_accepted(line, step)?,
        Err(Refusal::Memory) => return Err(RunFault::Refused(Refusal::Memory)),
        Err(why) => write_refused(line, step, why.number())?,
    }
    Ok(())
}
