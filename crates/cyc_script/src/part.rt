//! A part of a step, as it is read.

ghost use Rattle.std.specs.Prelude.{◌≡◌, option_map, None, MatchResult};
ghost use Rattle.json.specs.Json.{value};
ghost use Rattle.serde_json.specs.Find.{as_str};
ghost use Rattle.serde_json.specs.Read.{converted, number_of, of_json};
ghost use Rattle.cyc_script.specs.Parameters.{whole_in};
ghost use Rattle.cyc_script.specs.Parts.{IsNumberPart, data_of};
ghost use Rattle.cyc_script.specs.Tokens.{HasPart};

use crate::number::number;
use crate::pass::pass_from;
use json::{Invalid, Reader, Token};

/// A part of a step: a text, a whole number, or another value, of which no step says anything.
#[derive(Clone, Copy, Drop)]
pub(crate) enum Part<'a> {
    Text(&'a str),
    Whole(i64),
    Other,
}

impl<'a> Part<'a> {
    /// The text, where it is one.
    pub(crate) fn text(&self) -> Option<&'a str>
        ensures { option_map (λ text. text.now) result ≡ as_str (data_of self.now) }
    {
        match *self {
            Part::Text(text) => Some(text),
            _ => None,
        }
    }

    /// The whole number, where it is one.
    pub(crate) fn whole(&self) -> Option<i64>
        ensures { result ≡ whole_in (data_of self.now) }
    {
        match *self {
            Part::Whole(number) => Some(number),
            _ => None,
        }
    }
}

/// The part that a number is.
fn number_part<'a>(text: &str) -> Result<Part<'a>, Invalid>
    ensures { MatchResult result (λ part. IsNumberPart text.now part) (λ _. number_of text.now ≡ None) }
{
    match number(text) {
        Some(Some(whole)) => Ok(Part::Whole(whole)),
        Some(None) => Ok(Part::Other),
        None => Err(Invalid),
    }
}

/// The next value as a part, in which arrays and objects may nest so deep.
pub(crate) fn next_part<'a>(reader: &mut Reader<'a>, depth: usize) -> Result<Part<'a>, Invalid>
    ensures { MatchResult result (λ part. HasPart depth reader.old part reader.new)
        (λ _. converted of_json (value depth reader.old) ≡ None) }
{
    let token = reader.next().ok_or(Invalid)?;
    match token {
        Token::String(text) => Ok(Part::Text(text)),
        Token::Number(text) => number_part(text),
        _ => {
            pass_from(token, reader, depth)?;
            Ok(Part::Other)
        }
    }
}
