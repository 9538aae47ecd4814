//! Numbers, as a text spells them and as they are held.

ghost use Rattle.std.specs.Prelude.{◌≡◌, ◌==◌, length, slice_index, option_map, true, false, IfSome, IsTrue, ◌<◌, Some};
ghost use Rattle.std.specs.Char.{IsAsciiDigit};
ghost use Rattle.fast_float.specs.Text.{scan};
ghost use Rattle.serde_json.specs.Data.{unsigned};
ghost use Rattle.serde_json.specs.Read.{number_of, number_from, float_of};
ghost use Rattle.serde_json.specs.View.{number_view};
ghost use Rattle.base_containers.specs.Numbers.{num_of};

use fast_float::{Numeral, parse_u64};
use serde_json::Number as Held;

/// An integer of 64 bits, or a finite float.
#[derive(Clone, Copy, Drop)]
pub enum Number {
    Unsigned(u64),
    Negative(i64),
    Float(f64),
}

/// The number that a text is, if it is in range.
pub fn number_in(text: &str) -> Option<Number>
    ensures { option_map num_of result ≡ number_of text.now }
{
    let bytes = text.as_bytes();
    if has_minus(bytes) {
        negative(&Numeral::scan(&bytes[1..]))
    } else {
        without_minus(bytes)
    }
}

fn has_minus(bytes: &[u8]) -> bool
    ensures value { result ≡ (slice_index bytes.now 0 == 45) }
    ensures len { IsTrue result → 0 < length bytes.now }
{
    !bytes.is_empty() && bytes[0] == b'-'
}

/// The number that a text without a minus is. Most are digits alone, which need not be cut into the parts of a numeral.
fn without_minus(bytes: &[u8]) -> Option<Number>
    ensures { option_map num_of result ≡ number_from false (scan bytes.now) }
{
    match of_digits(bytes) {
        Some(n) => Some(Number::Unsigned(n)),
        None => unsigned(&Numeral::scan(bytes)),
    }
}

/// The integer that digits are, if there is nothing else and it has 64 bits.
fn of_digits(bytes: &[u8]) -> Option<u64>
    ensures { IfSome result (λ n. number_from false (scan bytes.now) ≡ Some (unsigned n)) }
{
    if begins_with_digit(bytes) {
        parse_u64(bytes).ok()
    } else {
        None
    }
}

fn begins_with_digit(bytes: &[u8]) -> bool
    ensures { IsTrue result → IsAsciiDigit (slice_index bytes.now 0) }
{
    !bytes.is_empty() && bytes[0].is_ascii_digit()
}

fn unsigned(numeral: &Numeral<'_>) -> Option<Number>
    ensures { option_map num_of result ≡ number_from false numeral.now }
{
    match numeral.to_u64() {
        Some(n) => Some(Number::Unsigned(n)),
        None => nearest(false, numeral),
    }
}

fn negative(numeral: &Numeral<'_>) -> Option<Number>
    ensures { option_map num_of result ≡ number_from true numeral.now }
{
    if let Some(n) = numeral.to_i64(true) {
        if n < 0 {
            return Some(Number::Negative(n));
        }
    }
    nearest(true, numeral)
}

fn nearest(negative: bool, numeral: &Numeral<'_>) -> Option<Number>
    ensures { option_map num_of result ≡ float_of negative numeral.now }
{
    let x = numeral.to_float::<f64>(negative);
    if x.is_finite() {
        Some(Number::Float(x))
    } else {
        None
    }
}

/// The number that a tree holds.
pub(crate) fn number_of(number: &Held) -> Number
    ensures { num_of result ≡ number_view number.now }
{
    if let Some(n) = number.as_u64() {
        return Number::Unsigned(n);
    }
    match number.as_i64() {
        Some(n) => Number::Negative(n),
        None => Number::Float(number.as_f64().unwrap_or(0.0)),
    }
}
