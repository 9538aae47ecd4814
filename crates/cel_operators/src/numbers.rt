ghost use Rattle.std.specs.Prelude.{◌≡◌, ◌≤◌, IfOk, Some, decimal, nat_eq, slice_index};
ghost use Rattle.std.specs.Fmt.{signed_decimal};
ghost use Rattle.cel_value.specs.Value.{code_points};
ghost use Rattle.cel_operators.specs.Numbers.{int_of, uint_of};

use base_containers::Text;
use std::alloc::{AllocError, Global};

/// An integer in decimal digits, with a minus in front if it is below zero.
pub fn printed_int(alloc: Global, int: i64) -> Result<Text, AllocError>
    ensures exact { IfOk result (λ text. text ≡ signed_decimal int) }
    ensures back { IfOk result (λ text. int_of text ≡ Some int) }
    ensures short { IfOk result (λ text. code_points text ≤ 20) }
{
    Ok(Text::from_string(int.to_string(alloc)?))
}

/// An unsigned integer in decimal digits.
pub fn printed_uint(alloc: Global, uint: u64) -> Result<Text, AllocError>
    ensures exact { IfOk result (λ text. text ≡ decimal uint) }
    ensures back { IfOk result (λ text. uint_of text ≡ Some uint) }
    ensures short { IfOk result (λ text. code_points text ≤ 20) }
{
    Ok(Text::from_string(uint.to_string(alloc)?))
}

/// The integer that a text of decimal digits spells; a minus may be in front.
pub fn read_int(text: &str) -> Option<i64>
    ensures { result ≡ int_of text.now }
{
    if has_plus(text) {
        return None;
    }
    text.parse::<i64>().ok()
}

/// The unsigned integer that a text of decimal digits spells.
pub fn read_uint(text: &str) -> Option<u64>
    ensures { result ≡ uint_of text.now }
{
    if has_plus(text) {
        return None;
    }
    text.parse::<u64>().ok()
}

/// Whether a text begins with a plus, which `parse` takes for a sign.
fn has_plus(text: &str) -> bool
    ensures { result ≡ nat_eq (slice_index text.now 0) 43 }
{
    text.starts_with('+')
}
