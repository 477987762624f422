//! Whole numbers from their text.

ghost use Rattle.std.specs.Prelude.{◌≡◌, ◌<◌, ◌==◌, length, slice_index, true, false, IfSome, IsTrue};
ghost use Rattle.serde_json.specs.Read.{float_of, number_of, number_from};
ghost use Rattle.cyc_script.specs.Parts.{IsNumber, IsWhole};

use fast_float::Numeral;

fn has_minus(bytes: &[u8]) -> bool
    ensures value { result ≡ (slice_index bytes.now 0 == 45) }
    ensures len { IsTrue result → 0 < length bytes.now }
{
    !bytes.is_empty() && bytes[0] == b'-'
}

/// That a number isn't whole. None where it is too great for a float.
fn not_whole(numeral: &Numeral<'_>, negative: bool) -> Option<Option<i64>>
    ensures { IsNumber result (float_of negative numeral.now) }
{
    if !numeral.to_float::<f64>(negative).is_finite() {
        return None;
    }
    Some(None)
}

fn positive(numeral: &Numeral<'_>) -> Option<Option<i64>>
    ensures { IsNumber result (number_from false numeral.now) }
{
    match numeral.to_u64() {
        Some(n) if n <= i64::MAX as u64 => Some(Some(n as i64)),
        Some(_) => Some(None),
        None => not_whole(numeral, false),
    }
}

fn negative(numeral: &Numeral<'_>) -> Option<Option<i64>>
    ensures { IsNumber result (number_from true numeral.now) }
{
    match numeral.to_i64(true) {
        Some(z) if z < 0 => Some(Some(z)),
        _ => not_whole(numeral, true),
    }
}

/// What the text of a JSON number writes, as `number` says it.
#[cold]
fn any_number(text: &str) -> Option<Option<i64>>
    ensures { IsNumber result (number_of text.now) }
{
    let bytes = text.as_bytes();
    if has_minus(bytes) {
        negative(&Numeral::scan(&bytes[1..]))
    } else {
        positive(&Numeral::scan(bytes))
    }
}

fn whole_positive(numeral: &Numeral<'_>) -> Option<i64>
    ensures { IfSome result (λ z. IsWhole z (number_from false numeral.now)) }
{
    i64::try_from(numeral.to_u64()?).ok()
}

fn whole_negative(numeral: &Numeral<'_>) -> Option<i64>
    ensures { IfSome result (λ z. IsWhole z (number_from true numeral.now)) }
{
    match numeral.to_i64(true) {
        Some(z) if z < 0 => Some(z),
        _ => None,
    }
}

fn whole(text: &str) -> Option<i64>
    ensures { IfSome result (λ z. IsWhole z (number_of text.now)) }
{
    let bytes = text.as_bytes();
    if has_minus(bytes) {
        whole_negative(&Numeral::scan(&bytes[1..]))
    } else {
        whole_positive(&Numeral::scan(bytes))
    }
}

/// The whole number that the text of a JSON number writes, if it is one: `-0` isn't, nor is one that doesn't fit. None for a
/// number that is too great for a float: that is no JSON. Most are whole, and then no float is made.
pub(crate) fn number(text: &str) -> Option<Option<i64>>
    ensures { IsNumber result (number_of text.now) }
{
    match whole(text) {
        Some(z) => Some(Some(z)),
        None => any_number(text),
    }
}
