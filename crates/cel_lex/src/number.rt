//! Numbers.

ghost use Rattle.std.specs.Prelude.{◌≡◌, ◌≤◌, length, IfSome};
ghost use Rattle.cel_lex.specs.Numbers.{value_of, at_most, unsigned, signed, is_suffix, is_hexadecimal, out_of_range as range_fault};
ghost use Rattle.cel_lex.specs.Scan.{digits_at, number_at};

use crate::bytes::{Class, digit, is_in, run_len};
use crate::fault::{LexFault, LexFaultKind};
use crate::piece::Piece;
use crate::token::TokenKind;

/// The number that digits spell, unless it is past the most.
pub fn number_up_to(most: u64, base: u32, digits: &[u8]) -> Option<u64>
    requires some { 1 ≤ base }
    requires small { base ≤ 36 }
    ensures value { result ≡ at_most most (value_of base 0 digits.now) }
    ensures within { IfSome result (λ n. n ≤ most) }
{
    let mut value: u128 = 0;
    for d in digits {
        value = value * u128::from(base) + u128::from(digit(*d));
        if value > u128::from(most) {
            return None;
        }
    }
    Some(value as u64)
}

fn signed_piece(base: u32, digits: &[u8]) -> Piece
    requires some { 1 ≤ base }
    requires small { base ≤ 36 }
    ensures { result ≡ signed (value_of base 0 digits.now) }
{
    match number_up_to(9223372036854775808, base, digits) {
        Some(value) => Piece::Token(TokenKind::Int(value)),
        None => out_of_range(),
    }
}

fn unsigned_piece(base: u32, digits: &[u8]) -> Piece
    requires some { 1 ≤ base }
    requires small { base ≤ 36 }
    ensures { result ≡ unsigned (value_of base 0 digits.now) }
{
    match number_up_to(18446744073709551615, base, digits) {
        Some(value) => Piece::Token(TokenKind::Uint(value)),
        None => out_of_range(),
    }
}

fn out_of_range() -> Piece
    ensures { result ≡ range_fault }
{
    Piece::Faulty(LexFault {
        kind: LexFaultKind::IntRange,
        place: 0,
    })
}

fn is_suffix_at(c: u8) -> bool
    ensures { result ≡ is_suffix c }
{
    c == 117 || c == 85
}

// The digits that come first with their suffix, and how many bytes they are.
fn digits_with_suffix(base: u32, bytes: &[u8]) -> (usize, Piece)
    requires some { 1 ≤ base }
    requires small { base ≤ 36 }
    requires short { length bytes.now ≤ 16384 }
    ensures { result ≡ digits_at base bytes.now }
{
    let length = run_len(Class::Digit(base), bytes);
    if let [c, ..] = &bytes[length..]
        && is_suffix_at(*c)
    {
        return (length + 1, unsigned_piece(base, &bytes[..length]));
    }
    (length, signed_piece(base, &bytes[..length]))
}

fn is_hexadecimal_at(bytes: &[u8]) -> bool
    ensures { result ≡ is_hexadecimal bytes.now }
{
    match bytes {
        [c, d, e, ..] => *c == 48 && *d == 120 && is_in(Class::Digit(16), *e),
        _ => false,
    }
}

/// The number that comes first, and how many bytes it is.
pub fn number(bytes: &[u8]) -> (usize, Piece)
    requires { length bytes.now ≤ 16384 }
    ensures { result ≡ number_at bytes.now }
{
    if !is_hexadecimal_at(bytes) {
        return digits_with_suffix(10, bytes);
    }
    let [_, _, rest @ ..] = bytes else {
        return digits_with_suffix(10, bytes);
    };
    let (length, piece) = digits_with_suffix(16, rest);
    (2 + length, piece)
}
