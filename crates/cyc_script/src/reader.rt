//! A script, from its bytes.

ghost use Rattle.cyc_script.specs.Answers.{Answers};
ghost use Rattle.cyc_script.specs.Script.{content, json_of, script_of};
ghost use Rattle.cyc_script.specs.Tokens.{content_in};

use crate::object;
use crate::script::Script;
use cyc_types::Refusal;
use std::alloc::Global;

/// The most bytes that a script may have.
const MOST_BYTES: usize = 16_777_216;

/// The script of bytes, whatever their number.
#[tactic(auto, using(crate::proofs::Lists::is_utf8_text), unfolding(crate::specs::Script::json_of))]
fn script_in(alloc: Global, bytes: &[u8]) -> Result<Script, Refusal>
    ensures { Answers content result (content_in (json_of bytes.now)) }
{
    match str::from_utf8(bytes) {
        Ok(text) => object::script(alloc, text),
        Err(_) => Err(Refusal::ScriptSyntax),
    }
}

/// Reads a script from its JSON text. The refusals, in this order: `ScriptShape(0)` for more than 16,777,216 bytes;
/// `ScriptSyntax` for bytes that are no JSON; `ScriptShape(0)` for an object that is no script; then the first
/// faulty step decides, counted from 1, by `ScriptShape` for its form, `NameTwice` for a name that was introduced
/// before, `NoName` for one that wasn't, `TimeBack` for a moment below the one before it. Takes memory for the
/// text's strings, the names and the steps; `Memory` where it is refused. Our own format.
#[tactic(auto, unfolding(crate::specs::Script::script_of))]
pub fn read_script(alloc: Global, bytes: &[u8]) -> Result<Script, Refusal>
    ensures { Answers content result (script_of bytes.now) }
{
    if bytes.len() > MOST_BYTES {
        return Err(Refusal::ScriptShape(0));
    }
    script_in(alloc, bytes)
}
