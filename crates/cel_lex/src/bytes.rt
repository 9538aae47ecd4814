//! Sets of bytes.

ghost use Rattle.std.specs.Prelude.{◌≡◌, ◌≤◌, ◌<◌, length};
ghost use Rattle.std.specs.List.{prefix_len};
ghost use Rattle.std.specs.Char.{digit_value};
ghost use Rattle.cel_lex.specs.Bytes.{is_letter, is_line_end, test_of};

/// A set of bytes.
#[derive(Clone, Copy)]
pub enum Class {
    Space,
    /// The digits of a base, where letters follow `9`.
    Digit(u32),
    Name,
    /// What ends no line.
    Inline,
    /// What begins no escape.
    Plain,
    All,
}

/// The value of a digit or a letter, and 36 for any other byte.
pub fn digit(c: u8) -> u32
    ensures value { result ≡ digit_value c }
    ensures within { result ≤ 36 }
{
    match c {
        48..=57 => u32::from(c) - 48,
        65..=90 => u32::from(c) - 55,
        97..=122 => u32::from(c) - 87,
        _ => 36,
    }
}

pub fn is_letter_at(c: u8) -> bool
    ensures { result ≡ is_letter c }
{
    97 <= c && c <= 122 || 65 <= c && c <= 90 || c == 95
}

pub fn ends_line(c: u8) -> bool
    ensures { result ≡ is_line_end c }
{
    c == 10 || c == 13
}

pub fn is_in(class: Class, c: u8) -> bool
    ensures { result ≡ test_of class c }
{
    match class {
        Class::Space => c == 9 || c == 10 || c == 12 || c == 13 || c == 32,
        Class::Digit(base) => digit(c) < base,
        Class::Name => is_letter_at(c) || 48 <= c && c <= 57,
        Class::Inline => !ends_line(c),
        Class::Plain => c != 92,
        Class::All => true,
    }
}

/// How many bytes at the front are of the class.
pub fn run_len(class: Class, bytes: &[u8]) -> usize
    ensures value { result ≡ prefix_len (test_of class) bytes.now }
    ensures within { result ≤ length bytes.now }
{
    for (i, c) in bytes.iter().enumerate() {
        if !is_in(class, *c) {
            return i;
        }
    }
    bytes.len()
}
