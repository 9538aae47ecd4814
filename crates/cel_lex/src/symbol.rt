//! Symbols and comments.

ghost use Rattle.std.specs.Prelude.{◌≡◌, ◌≤◌, length};
ghost use Rattle.cel_lex.specs.Symbols.{double, punctuation, single};
ghost use Rattle.cel_lex.specs.Scan.{symbol_at};

use crate::bytes::{Class, run_len};
use crate::piece::Piece;
use crate::token::{Infix, TokenKind};

fn punctuation_at(c: u8) -> Option<TokenKind>
    ensures { result ≡ punctuation c }
{
    match c {
        b'(' => Some(TokenKind::Open),
        b')' => Some(TokenKind::Close),
        b'[' => Some(TokenKind::OpenBracket),
        b']' => Some(TokenKind::CloseBracket),
        b'{' => Some(TokenKind::OpenBrace),
        b'}' => Some(TokenKind::CloseBrace),
        b'.' => Some(TokenKind::Dot),
        b',' => Some(TokenKind::Comma),
        b'?' => Some(TokenKind::Question),
        b':' => Some(TokenKind::Colon),
        b'!' => Some(TokenKind::Bang),
        _ => None,
    }
}

fn single_at(c: u8) -> Option<TokenKind>
    ensures { result ≡ single c }
{
    match c {
        b'<' => Some(TokenKind::Operator(Infix::Less)),
        b'>' => Some(TokenKind::Operator(Infix::Greater)),
        b'+' => Some(TokenKind::Operator(Infix::Add)),
        b'-' => Some(TokenKind::Operator(Infix::Subtract)),
        b'*' => Some(TokenKind::Operator(Infix::Multiply)),
        b'/' => Some(TokenKind::Operator(Infix::Divide)),
        b'%' => Some(TokenKind::Operator(Infix::Remainder)),
        _ => punctuation_at(c),
    }
}

fn double_at(c: u8, d: u8) -> Option<TokenKind>
    ensures { result ≡ double c d }
{
    match (c, d) {
        (b'<', b'=') => Some(TokenKind::Operator(Infix::AtMost)),
        (b'>', b'=') => Some(TokenKind::Operator(Infix::AtLeast)),
        (b'=', b'=') => Some(TokenKind::Operator(Infix::Equal)),
        (b'!', b'=') => Some(TokenKind::Operator(Infix::NotEqual)),
        (b'&', b'&') => Some(TokenKind::Operator(Infix::And)),
        (b'|', b'|') => Some(TokenKind::Operator(Infix::Or)),
        _ => None,
    }
}

/// The comment or the longest symbol that comes first, and how many bytes it is.
pub fn symbol(c: u8, rest: &[u8]) -> Option<(usize, Piece)>
    requires { length rest.now ≤ 16384 }
    ensures { result ≡ symbol_at c rest.now }
{
    if let [d, more @ ..] = rest {
        if c == 47 && *d == 47 {
            return Some((2 + run_len(Class::Inline, more), Piece::Blank));
        }
        if let Some(kind) = double_at(c, *d) {
            return Some((2, Piece::Token(kind)));
        }
    }
    let kind = single_at(c)?;
    Some((1, Piece::Token(kind)))
}
