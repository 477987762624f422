//! The steps of a script, from the tokens of its text.

ghost use Rattle.std.specs.Prelude.{◌≡◌, ◌≤◌, [], length, None, Ok, MatchOption, OnOk, IfOk, IfErr, MatchResult};
ghost use Rattle.json.specs.Json.{after_end_array, items, value};
ghost use Rattle.serde_json.specs.Read.{converted, of_items, of_json};
ghost use Rattle.cyc_script.specs.Limits.{most_steps};
ghost use Rattle.cyc_script.specs.Steps.{first_context};
ghost use Rattle.cyc_script.specs.Tokens.{AreWhole, Denies, HasItemsOf, HasNoItems, HasParts, HasSteps, IsRefusedStep, RefusesOn};
ghost use Rattle.cyc_script.specs.Tokens.{ReadsStep, steps_with};

use crate::cause::Cause;
use crate::context::Context;
use crate::part::{Part, next_part};
use crate::pass::{pass_from, pass_items};
use crate::step::Step;
use crate::stop::Stop;
use crate::words;
use cyc_types::Refusal;
use json::{Invalid, Reader, Token};
use std::alloc::Global;

/// The most steps that a script may have.
const MOST_STEPS: usize = 65_536;

/// The most parts that a step may have: a word and what it is of.
const MOST_PARTS: usize = 6;

/// Reads the parts of a step up to the bracket that closes it. Of a step with too many one more is read, by which it is told, and
/// the others are passed. There are none before.
fn read_parts<'a>(reader: &mut Reader<'a>, parts: &mut Vec<Part<'a>>) -> Result<(), Stop>
    requires { parts.old.items ≡ [] }
    ensures value { OnOk result (HasItemsOf 124 reader.old parts.new.items reader.new) }
    ensures denied { IfErr result
        (Denies (converted of_items (items (value 124) (length reader.old) reader.old) ≡ None)) }
{
    while !reader.take_end_array() {
        let part = next_part(reader, 124)?;
        if parts.len() <= MOST_PARTS {
            parts.push(part)?;
        }
    }
    Ok(())
}

/// Reads the parts of the next step. A value that is no list reads as a step without parts does.
fn step_parts<'a>(reader: &mut Reader<'a>, parts: &mut Vec<Part<'a>>) -> Result<(), Stop>
    ensures value { OnOk result (HasParts 125 reader.old parts.new.items reader.new) }
    ensures denied { IfErr result (Denies (converted of_json (value 125 reader.old) ≡ None)) }
{
    let token = reader.next().ok_or(Stop::NoJson)?;
    parts.clear();
    match token {
        Token::BeginArray => read_parts(reader, parts),
        _ => {
            pass_from(token, reader, 125)?;
            Ok(())
        }
    }
}

/// Why the steps are refused at one behind which at most so many may stand: with this, or for their shape where more do.
fn refused_here(reader: &mut Reader<'_>, most: usize, refusal: Refusal) -> Result<Refusal, Invalid>
    ensures { MatchResult result (λ refused. IsRefusedStep most refusal reader.old reader.new refused)
        (λ _. HasNoItems 125 reader.old) }
{
    if pass_items(reader, 125, most)? {
        Ok(refusal)
    } else {
        Ok(Refusal::ScriptShape(0))
    }
}

/// Reads the next step behind those before it. Where it is faulty, or one too many, all behind it are passed: why the steps are
/// refused. `parts` is room for the parts of each.
#[inline(always)]
fn next_step<'a>(
    alloc: Global,
    reader: &mut Reader<'a>,
    parts: &mut Vec<Part<'a>>,
    steps: &mut Vec<Step>,
    context: &mut Context<'a>,
) -> Result<Option<Refusal>, Stop>
    requires going { after_end_array reader.old ≡ None }
    requires few_steps { length steps.old.items ≤ most_steps }
    requires few_names { length context.old.names ≤ length steps.old.items }
    ensures value { IfOk result (λ refusal. MatchOption refusal
        (ReadsStep reader.old reader.new steps.old.items steps.new.items context.old context.new)
        (λ refusal. RefusesOn steps.old.items context.old reader.old reader.new refusal)) }
    ensures denied { IfErr result (Denies (HasNoItems 125 reader.old)) }
{
    step_parts(reader, parts)?;
    if steps.len() == MOST_STEPS {
        return Ok(Some(refused_here(reader, 0, Refusal::ScriptShape(0))?));
    }
    match words::read_step(alloc, context, parts.as_slice()) {
        Ok(step) => steps.push(step)?,
        Err(Cause::Memory) => return Err(Stop::Memory),
        Err(cause) => {
            let number = steps.len() + 1;
            let refusal = refused_here(reader, MOST_STEPS - number, cause.at(number as u32))?;
            return Ok(Some(refusal));
        }
    }
    Ok(None)
}

/// Reads the steps up to the bracket that closes them, the first of which is the first of all: why they are refused, if they are.
/// `parts` is room for the parts of each.
pub(crate) fn take_steps<'a>(
    alloc: Global,
    reader: &mut Reader<'a>,
    parts: &mut Vec<Part<'a>>,
    steps: &mut Vec<Step>,
    context: &mut Context<'a>,
) -> Result<Option<Refusal>, Stop>
    requires no_steps { steps.old.items ≡ [] }
    requires no_names { context.old ≡ first_context }
    ensures value { IfOk result
        (λ refusal. HasSteps reader.old (steps_with refusal steps.new.items context.new.names) reader.new) }
    ensures whole { IfOk result (λ refusal. AreWhole (steps_with refusal steps.new.items context.new.names)) }
    ensures denied { IfErr result
        (Denies (converted of_items (items (value 125) (length reader.old) reader.old) ≡ None)) }
{
    while !reader.take_end_array() {
        let refusal = next_step(alloc, reader, parts, steps, context)?;
        if refusal.is_some() {
            return Ok(refusal);
        }
    }
    Ok(None)
}
