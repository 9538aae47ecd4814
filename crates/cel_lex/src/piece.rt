//! The piece that is next in a text.

ghost use Rattle.std.specs.Prelude.{◌≡◌, ◌+◌, ◌<◌, ◌≤◌, length, drop, IfOk};
ghost use Rattle.cel_lex.specs.Scan.{next_of, Reads, IsNear};

use crate::bytes::{Class, is_in, is_letter_at, run_len};
use crate::fault::LexFault;
use crate::literal::{literal, opening};
use crate::number::number;
use crate::symbol::symbol;
use crate::token::TokenKind;
use crate::word::token_of;
use std::alloc::{AllocError, Global};

/// What is next in a text.
#[derive(Drop)]
pub enum Piece {
    /// White space or a comment.
    Blank,
    /// What is no token because of a fault, whose place is counted from the start of the piece.
    Faulty(LexFault),
    Token(TokenKind),
}

// The longest piece at a place, and how many bytes it is.
fn next(alloc: Global, text: &str, place: usize) -> Result<Option<(usize, Piece)>, AllocError>
    requires short { length text.now ≤ 16384 }
    requires within { place < length text.now }
    ensures { IfOk result (λ o. o ≡ next_of (drop place text.now)) }
{
    let bytes = text.as_bytes();
    let first = bytes[place];
    let rest = &bytes[place + 1..];
    if is_in(Class::Space, first) {
        return Ok(Some((1 + run_len(Class::Space, rest), Piece::Blank)));
    }
    if is_in(Class::Digit(10), first) {
        return Ok(Some(number(&bytes[place..])));
    }
    if let Some((before, style)) = opening(&bytes[place..]) {
        return Ok(Some(literal(alloc, before, style, text, place + before)?));
    }
    if is_letter_at(first) {
        let length = 1 + run_len(Class::Name, rest);
        let kind = token_of(&bytes[place..place + length]);
        return Ok(Some((length, Piece::Token(kind))));
    }
    Ok(symbol(first, rest))
}

/// The longest piece at a place and how many bytes it is, unless no bytes from there on are one.
// Cut for the prover: that no longer piece begins there, and how far it goes, follow from the very piece that `next` answers.
pub fn longest(
    alloc: Global,
    text: &str,
    place: usize,
) -> Result<Option<(usize, Piece)>, AllocError>
    requires short { length text.now ≤ 16384 }
    requires within { place < length text.now }
    ensures reads { IfOk result (λ o. Reads (drop place text.now) o) }
    ensures near { IfOk result (λ o. IsNear (4 + length text.now) o) }
{
    next(alloc, text, place)
}
