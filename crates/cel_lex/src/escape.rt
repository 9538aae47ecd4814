//! Escapes.

ghost use Rattle.std.specs.Prelude.{◌≡◌, ◌≤◌};
ghost use Rattle.cel_lex.specs.Escapes.{coded, simple, spelled_by, escape_of};

use crate::bytes::{Class, run_len};
use crate::number::number_up_to;

// The character that so many digits are the code of, if they come first.
fn character(base: u32, count: usize, bytes: &[u8]) -> Option<char>
    requires some { 1 ≤ base }
    requires small { base ≤ 36 }
    ensures { result ≡ coded base count bytes.now }
{
    if run_len(Class::Digit(base), bytes) < count {
        return None;
    }
    let code = number_up_to(0x10_FFFF, base, &bytes[..count])?;
    char::from_u32(code as u32)
}

fn simple_at(c: u8) -> Option<char>
    ensures { result ≡ simple c }
{
    match c {
        b'a' => Some('\u{7}'),
        b'b' => Some('\u{8}'),
        b'f' => Some('\u{c}'),
        b'n' => Some('\n'),
        b'r' => Some('\r'),
        b't' => Some('\t'),
        b'v' => Some('\u{b}'),
        b'\\' | b'?' | b'"' | b'\'' | b'`' => Some(char::from(c)),
        _ => None,
    }
}

// A character, if there is one, with how many bytes spell it.
fn spelled_by(count: usize, found: Option<char>) -> Option<(char, usize)>
    ensures { result ≡ spelled_by count found }
{
    Some((found?, count))
}

/// The character that the bytes after a backslash stand for, and how many they are.
pub fn escape(bytes: &[u8]) -> Option<(char, usize)>
    ensures { result ≡ escape_of bytes.now }
{
    let [c, rest @ ..] = bytes else {
        return None;
    };
    match *c {
        b'x' | b'X' => spelled_by(3, character(16, 2, rest)),
        b'u' => spelled_by(5, character(16, 4, rest)),
        b'U' => spelled_by(9, character(16, 8, rest)),
        b'0'..=b'3' => spelled_by(3, character(8, 3, bytes)),
        _ => spelled_by(1, simple_at(*c)),
    }
}
