//! The parameters of a step, each from its part.

ghost use Rattle.std.specs.Prelude.{◌≡◌, map, option_map, ℕ, ◌≤◌, ◌<◌, ◌^◌};
ghost use Rattle.std.specs.List.{list_all};
ghost use Rattle.cyc_script.specs.Answers.{Gives};
ghost use Rattle.cyc_script.specs.Parameters.{number_in, whole_of, moment_of, skew_of, unsigned_of, is_name_byte, is_name};
ghost use Rattle.cyc_script.specs.Parameters.{name_of, level_in_value, soft_of};
ghost use Rattle.cyc_script.specs.Parts.{data_of};
ghost use Rattle.cyc_script.specs.Script.{number_between};

use crate::cause::Cause;
use crate::part::Part;
use cyc_types::{Level, Moment, Soft};

/// The most bytes of a name.
const LONGEST_NAME: usize = 32;

/// A whole number from 0 to the greatest.
pub(crate) fn number(part: &Part<'_>, most: u64) -> Option<u64>
    ensures { result ≡ number_in most (data_of part.now) }
{
    let number = part.whole()?;
    match u64::try_from(number) {
        Ok(n) if n <= most => Some(n),
        _ => None,
    }
}

/// A whole number from the least to the greatest.
pub(crate) fn number_between(part: &Part<'_>, least: u32, most: u32) -> Option<u32>
    ensures { result ≡ number_between least most (data_of part.now) }
{
    match number(part, u64::from(most)) {
        Some(n) if n >= u64::from(least) && n <= u64::from(most) => Some(n as u32),
        _ => None,
    }
}

/// Any whole number.
#[tactic(auto, unfolding(crate::specs::Parameters::whole_of))]
pub(crate) fn whole(part: &Part<'_>) -> Result<i64, Cause>
    ensures { result ≡ whole_of (data_of part.now) }
{
    part.whole().ok_or(Cause::Shape)
}

/// A moment below never, in nanoseconds.
#[tactic(auto, unfolding(crate::specs::Parameters::moment_of))]
pub(crate) fn moment(part: &Part<'_>) -> Result<u64, Cause>
    ensures { result ≡ moment_of (data_of part.now) }
{
    number(part, i64::MAX as u64 - 1).ok_or(Cause::Shape)
}

/// A skew, at most never.
#[tactic(auto, unfolding(crate::specs::Parameters::skew_of))]
pub(crate) fn skew(part: &Part<'_>) -> Result<Moment, Cause>
    ensures { result ≡ skew_of (data_of part.now) }
{
    match number(part, i64::MAX as u64) {
        Some(nanoseconds) => Moment::new(nanoseconds as i64).map_err(|_| Cause::Shape),
        None => Err(Cause::Shape),
    }
}

/// The number of a CPU, or a budget.
#[tactic(auto, unfolding(crate::specs::Parameters::unsigned_of))]
pub(crate) fn unsigned(part: &Part<'_>) -> Result<u32, Cause>
    ensures { result ≡ unsigned_of (data_of part.now) }
{
    match number(part, u64::from(u32::MAX)) {
        Some(number) => u32::try_from(number).map_err(|_| Cause::Shape),
        None => Err(Cause::Shape),
    }
}

#[tactic(auto, unfolding(crate::specs::Parameters::is_name_byte))]
fn is_name_byte(byte: u8) -> bool
    ensures { result ≡ is_name_byte byte }
{
    matches!(byte, b'a'..=b'z' | b'A'..=b'Z' | b'0'..=b'9' | b'_' | b'-')
}

fn are_name_bytes(bytes: &[u8]) -> bool
    ensures { result ≡ list_all is_name_byte bytes.now }
{
    bytes.iter().all(|byte| is_name_byte(*byte))
}

fn is_name(text: &str) -> bool
    ensures { result ≡ is_name text.now }
{
    let bytes = text.as_bytes();
    if bytes.is_empty() || bytes.len() > LONGEST_NAME {
        return false;
    }
    are_name_bytes(bytes)
}

/// The text of a name.
#[tactic(auto, unfolding(crate::specs::Parameters::name_of))]
pub(crate) fn name<'a>(part: &Part<'a>) -> Result<&'a str, Cause>
    ensures { Gives (λ text. text.now) result (name_of (data_of part.now)) }
{
    let Some(text) = part.text() else {
        return Err(Cause::Shape);
    };
    if !is_name(text) {
        return Err(Cause::Shape);
    }
    Ok(text)
}

/// The level of a cyclic.
#[tactic(auto, unfolding(crate::specs::Parameters::level_in_value))]
pub(crate) fn level(part: &Part<'_>) -> Result<Level, Cause>
    ensures { result ≡ level_in_value (data_of part.now) }
{
    let Some(word) = part.text() else {
        return Err(Cause::Shape);
    };
    if word == "low" {
        return Ok(Level::Low);
    }
    if word == "lock" {
        return Ok(Level::Lock);
    }
    if word == "high" {
        return Ok(Level::High);
    }
    Err(Cause::Shape)
}

/// The level of a soft interrupt.
#[tactic(auto, unfolding(crate::specs::Parameters::soft_of))]
pub(crate) fn soft(part: &Part<'_>) -> Result<Soft, Cause>
    ensures { result ≡ soft_of (data_of part.now) }
{
    let Some(word) = part.text() else {
        return Err(Cause::Shape);
    };
    if word == "low" {
        return Ok(Soft::Low);
    }
    if word == "lock" {
        return Ok(Soft::Lock);
    }
    Err(Cause::Shape)
}
