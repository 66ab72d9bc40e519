//! Whole numbers of 64 bits with a sign, as JSON writes them.

ghost use Rattle.std.specs.Prelude.{◌≡◌, ◌<◌, ◌==◌, Some, IfSome, IsTrue, true, false, length, option_map, slice_index};
ghost use Rattle.fast_float.specs.Text.{scan};
ghost use Rattle.serde_json.specs.Find.{of_integer};
ghost use Rattle.serde_json.specs.Read.{number_of, number_from, float_of};
ghost use Rattle.wf_json.specs.Read.{whole};

use fast_float::Numeral;

/// The number that a token of JSON writes, where it is whole and fits; `-0` isn't whole.
pub(crate) fn whole_number(text: &str) -> Option<i64>
    ensures { IfSome result (λ n. number_of text.now ≡ Some (of_integer n)) }
{
    let bytes = text.as_bytes();
    if has_minus(bytes) {
        below_zero(&bytes[1..])
    } else {
        Numeral::scan(bytes).to_i64(false)
    }
}

// The number with a minus before the digits.
fn below_zero(digits: &[u8]) -> Option<i64>
    ensures { IfSome result (λ n. number_from true (scan digits.now) ≡ Some (of_integer n)) }
{
    match Numeral::scan(digits).to_i64(true) {
        Some(number) if number < 0 => Some(number),
        _ => None,
    }
}

/// The number that a token of JSON writes: none inside where it isn't whole or doesn't fit, and none at all where even
/// the nearest float isn't finite.
pub(crate) fn number_in(text: &str) -> Option<Option<i64>>
    ensures { result ≡ option_map whole (number_of text.now) }
{
    let bytes = text.as_bytes();
    if has_minus(bytes) {
        negative(&Numeral::scan(&bytes[1..]))
    } else {
        unsigned(&Numeral::scan(bytes))
    }
}

fn unsigned(numeral: &Numeral<'_>) -> Option<Option<i64>>
    ensures { result ≡ option_map whole (number_from false numeral.now) }
{
    match numeral.to_u64() {
        Some(number) => if number <= i64::MAX as u64 {
            Some(Some(number as i64))
        } else {
            Some(None)
        },
        None => as_float(false, numeral),
    }
}

fn negative(numeral: &Numeral<'_>) -> Option<Option<i64>>
    ensures { result ≡ option_map whole (number_from true numeral.now) }
{
    if let Some(number) = numeral.to_i64(true) {
        if number < 0 {
            return Some(Some(number));
        }
    }
    as_float(true, numeral)
}

// A number that is read as a float, and so isn't whole.
fn as_float(negative: bool, numeral: &Numeral<'_>) -> Option<Option<i64>>
    ensures { result ≡ option_map whole (float_of negative numeral.now) }
{
    if numeral.to_float::<f64>(negative).is_finite() {
        Some(None)
    } else {
        None
    }
}

fn has_minus(bytes: &[u8]) -> bool
    ensures value { result ≡ (slice_index bytes.now 0 == 45) }
    ensures some { IsTrue result → 0 < length bytes.now }
{
    !bytes.is_empty() && bytes[0] == b'-'
}
