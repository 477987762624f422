//! The object of a script, from the tokens of its text.

ghost use Rattle.std.specs.Prelude.{◌≡◌, ◌∷◌, [], codes, length, Some, None, MatchResult, OnOk, IfErr};
ghost use Rattle.cyc_types.specs.Limits.{greatest_ceiling};
ghost use Rattle.json.specs.Json.{value};
ghost use Rattle.json.specs.Reads.{token_of};
ghost use Rattle.serde_json.specs.Data.{Members, no_members, object as object_of};
ghost use Rattle.serde_json.specs.Read.{converted, of_json, read};
ghost use Rattle.cyc_script.specs.declared.stop.Stop.TheVariants.{NoJson};
ghost use Rattle.cyc_script.specs.Answers.{Answers};
ghost use Rattle.cyc_script.specs.Parts.{data_of};
ghost use Rattle.cyc_script.specs.Script.{content, content_of, number_between, parsed};
ghost use Rattle.cyc_script.specs.Tokens.{Denies, HasMember, HasObject, HasValue, IsObject, content_in, data_in, members_on};
ghost use Rattle.cyc_script.specs.Tokens.{object_in};

use crate::context::Context;
use crate::names::Names;
use crate::parameters::number_between;
use crate::part::{Part, next_part};
use crate::pass::{pass_from, pass_value};
use crate::script::Script;
use crate::step::Step;
use crate::stop::Stop;
use crate::tokens::take_steps;
use cyc_types::{CPUS, Ceiling, GREATEST_CEILING, Refusal};
use json::{Reader, Scratch, Token};
use std::alloc::Global;

/// What the members of a script's object say so far: of two with the same key the last one stands.
#[derive(Drop)]
pub(crate) struct Object<'a> {
    /// Whether each key is one that a script may have.
    known: bool,
    /// The CPUs, where there are some.
    cpus: Option<u32>,
    /// The ceiling, which is the greatest where there is none. None where it is a wrong one.
    ceiling: Option<Ceiling>,
    /// Why the steps are refused, if they are.
    refusal: Option<Refusal>,
    steps: Vec<Step>,
    context: Context<'a>,
}

/// The object of no member.
fn no_object<'a>(alloc: Global) -> Object<'a>
    ensures { IsObject result no_members }
{
    Object {
        known: true,
        cpus: None,
        ceiling: Ceiling::new(GREATEST_CEILING),
        refusal: Some(Refusal::ScriptShape(0)),
        steps: Vec::new(alloc),
        context: Context {
            names: Names::new(alloc),
            moment: 0,
        },
    }
}

/// The ceiling that a value is.
fn ceiling_in(part: &Part<'_>) -> Option<Ceiling>
    ensures { result ≡ number_between 1 greatest_ceiling (data_of part.now) }
{
    Ceiling::new(number_between(part, 1, GREATEST_CEILING)?)
}

/// Reads the steps that the next value is, in place of those before it. `parts` is room for the parts of each.
fn steps<'a>(
    alloc: Global,
    reader: &mut Reader<'a>,
    parts: &mut Vec<Part<'a>>,
    object: &mut Object<'a>,
) -> Result<(), Stop>
    ensures value { OnOk result (HasMember (codes "steps") reader.old reader.new object.old object.new) }
    ensures denied { IfErr result (Denies (converted of_json (value 126 reader.old) ≡ None)) }
{
    let token = reader.next().ok_or(Stop::NoJson)?;
    match token {
        Token::BeginArray => {
            object.steps = Vec::new(alloc);
            object.context.begin(alloc);
            object.refusal = take_steps(
                alloc,
                reader,
                parts,
                &mut object.steps,
                &mut object.context,
            )?;
            Ok(())
        }
        _ => {
            pass_from(token, reader, 126)?;
            object.refusal = Some(Refusal::ScriptShape(0));
            Ok(())
        }
    }
}

/// Reads the value of the member of this key.
fn member<'a>(
    alloc: Global,
    reader: &mut Reader<'a>,
    parts: &mut Vec<Part<'a>>,
    object: &mut Object<'a>,
    key: &str,
) -> Result<(), Stop>
    ensures value { OnOk result (HasMember key.now reader.old reader.new object.old object.new) }
    ensures denied { IfErr result (Denies (converted of_json (value 126 reader.old) ≡ None)) }
{
    match key {
        "steps" => steps(alloc, reader, parts, object),
        "cpus" => {
            object.cpus = number_between(&next_part(reader, 126)?, 1, CPUS);
            Ok(())
        }
        "ceiling" => {
            object.ceiling = ceiling_in(&next_part(reader, 126)?);
            Ok(())
        }
        _ => {
            pass_value(reader, 126)?;
            object.known = false;
            Ok(())
        }
    }
}

/// Reads the members of a script's object, the first of which is the first of all, up to the brace that closes it. `parts` is
/// room for the parts of each step.
fn take_members<'a>(
    alloc: Global,
    reader: &mut Reader<'a>,
    parts: &mut Vec<Part<'a>>,
    object: &mut Object<'a>,
) -> Result<(), Stop>
    requires { IsObject object.old no_members }
    ensures value { OnOk result (HasObject reader.old reader.new object.new) }
    ensures denied { IfErr result (Denies (members_on 126 (length reader.old) reader.old no_members ≡ None)) }
{
    while let Some(key) = reader.next_key()? {
        member(alloc, reader, parts, object, key)?;
    }
    Ok(())
}

/// The script of an object.
fn script_of(object: Object<'_>) -> Result<Script, Refusal>
    requires { (ms : Members) × IsObject object ms }
    ensures { (ms : Members) → IsObject object.entry ms → Answers content result (content_of (object_of ms)) }
{
    const SHAPE: Refusal = Refusal::ScriptShape(0);
    let Object {
        known,
        cpus,
        ceiling,
        refusal,
        steps,
        context,
    } = object;
    if !known {
        return Err(SHAPE);
    }
    let Some(cpus) = cpus else {
        return Err(SHAPE);
    };
    let Some(ceiling) = ceiling else {
        return Err(SHAPE);
    };
    if let Some(refusal) = refusal {
        return Err(refusal);
    }
    Ok(Script {
        cpus,
        ceiling,
        names: context.names.into_texts(),
        steps,
    })
}

/// Nothing is left of the text.
fn end(reader: &mut Reader<'_>) -> Result<(), Stop>
    ensures { MatchResult result (λ _. reader.old ≡ []) (λ stop. (stop ≡ NoJson) × ¬ (reader.old ≡ [])) }
{
    match reader.next() {
        None => Ok(()),
        Some(_) => Err(Stop::NoJson),
    }
}

/// Reads an object and then the end of the text.
fn take_object<'a>(
    alloc: Global,
    reader: &mut Reader<'a>,
    object: &mut Object<'a>,
) -> Result<(), Stop>
    requires { IsObject object.old no_members }
    ensures value { OnOk result ((ms : Members) × (object_in reader.old ≡ Some (object_of ms)) × IsObject object.new ms) }
    ensures denied { IfErr result (Denies (object_in reader.old ≡ None)) }
{
    let mut parts = Vec::new(alloc);
    take_members(alloc, reader, &mut parts, object)?;
    end(reader)
}

/// The script of the object that is left of the tokens, from behind its brace.
fn script_in(alloc: Global, reader: &mut Reader<'_>) -> Result<Script, Refusal>
    ensures { Answers content result (content_in (parsed (object_in reader.old))) }
{
    let mut object = no_object(alloc);
    match take_object(alloc, reader, &mut object) {
        Ok(()) => script_of(object),
        Err(stop) => Err(stop.refusal()),
    }
}

/// Passes the value that begins with this token, and then the end of the text.
fn pass_all(token: Token<'_>, reader: &mut Reader<'_>) -> Result<(), Stop>
    ensures value { OnOk result (HasValue 127 (token_of token.entry ∷ reader.old) []) }
    ensures denied { IfErr result (Denies (data_in (token_of token.entry ∷ reader.old) ≡ None)) }
{
    pass_from(token, reader, 127)?;
    end(reader)
}

/// The script of the tokens.
fn script_of_tokens(alloc: Global, reader: &mut Reader<'_>) -> Result<Script, Refusal>
    ensures { Answers content result (content_in (parsed (data_in reader.old))) }
{
    let Some(token) = reader.next() else {
        return Err(Refusal::ScriptSyntax);
    };
    match token {
        Token::BeginObject => script_in(alloc, reader),
        _ => match pass_all(token, reader) {
            Ok(()) => Err(Refusal::ScriptShape(0)),
            Err(stop) => Err(stop.refusal()),
        },
    }
}

/// The script of a text.
pub(crate) fn script(alloc: Global, text: &str) -> Result<Script, Refusal>
    ensures { Answers content result (content_in (parsed (read text.now))) }
{
    let mut scratch = Scratch::new(alloc);
    let Ok(mut reader) = Reader::new(text, &mut scratch) else {
        return Err(Refusal::Memory);
    };
    script_of_tokens(alloc, &mut reader)
}
