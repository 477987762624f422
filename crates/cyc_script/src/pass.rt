//! Values that are passed over: that they are JSON is all that counts.

ghost use Rattle.std.specs.Prelude.{◌≡◌, ◌∷◌, length, None, MatchResult};
ghost use Rattle.json.specs.Json.{value};
ghost use Rattle.json.specs.Reads.{token_of};
ghost use Rattle.serde_json.specs.Data.{no_members};
ghost use Rattle.serde_json.specs.Read.{converted, of_json};
ghost use Rattle.cyc_script.specs.Tokens.{HasItems, HasMembers, HasNoItems, HasValue, is_leaf, members_on};

use crate::number::number;
use json::{Invalid, Reader, Token};

/// Whether a token is a value by itself.
fn is_leaf(token: Token<'_>) -> bool
    ensures { result ≡ is_leaf token.entry }
{
    match token {
        Token::String(_) | Token::Bool(_) | Token::Null => true,
        Token::Number(text) => number(text).is_some(),
        _ => false,
    }
}

/// Passes the value that begins with this token, in which arrays and objects may nest so deep.
#[cycle(pass)]
pub(crate) fn pass_from(
    token: Token<'_>,
    reader: &mut Reader<'_>,
    depth: usize,
) -> Result<(), Invalid>
    ensures { MatchResult result (λ _. HasValue depth (token_of token.entry ∷ reader.old) reader.new)
        (λ _. converted of_json (value depth (token_of token.entry ∷ reader.old)) ≡ None) }
{
    match token {
        Token::BeginArray => {
            if depth == 0 {
                return Err(Invalid);
            }
            pass_items(reader, depth - 1, 0)?;
            Ok(())
        }
        Token::BeginObject => {
            if depth == 0 {
                return Err(Invalid);
            }
            pass_members(reader, depth - 1)
        }
        _ => if is_leaf(token) { Ok(()) } else { Err(Invalid) },
    }
}

/// Passes the next value, in which arrays and objects may nest so deep.
#[cycle(pass)]
pub(crate) fn pass_value(reader: &mut Reader<'_>, depth: usize) -> Result<(), Invalid>
    ensures { MatchResult result (λ _. HasValue depth reader.old reader.new)
        (λ _. converted of_json (value depth reader.old) ≡ None) }
{
    let token = reader.next().ok_or(Invalid)?;
    pass_from(token, reader, depth)
}

/// Passes the items that are left of an array, up to the bracket that closes it: whether they are at most so many.
#[cycle(pass)]
pub(crate) fn pass_items(
    reader: &mut Reader<'_>,
    depth: usize,
    most: usize,
) -> Result<bool, Invalid>
    ensures { MatchResult result (λ few. HasItems depth most reader.old few reader.new)
        (λ _. HasNoItems depth reader.old) }
{
    let mut left = most;
    let mut few = true;
    while !reader.take_end_array() {
        pass_value(reader, depth)?;
        few &= left > 0;
        left = left.saturating_sub(1);
    }
    Ok(few)
}

/// Passes the members of an object, up to the brace that closes it.
#[cycle(pass)]
fn pass_members(reader: &mut Reader<'_>, depth: usize) -> Result<(), Invalid>
    ensures { MatchResult result (λ _. HasMembers depth reader.old reader.new)
        (λ _. members_on depth (length reader.old) reader.old no_members ≡ None) }
{
    while let Some(_) = reader.next_key()? {
        pass_value(reader, depth)?;
    }
    Ok(())
}
