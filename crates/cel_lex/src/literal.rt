//! Literal texts.

ghost use Rattle.std.specs.Prelude.{false, not, ◌&&◌, ◌≡◌, ◌↔◌, ◌+◌, ◌<◌, ◌≤◌, ℕ, IsTrue, IfOk, IfSome};
ghost use Rattle.std.specs.Prelude.{List, Some, None, length, drop, slice_index};
ghost use Rattle.std.specs.Str.{IsCharBoundary};
ghost use Rattle.cel_lex.specs.declared.literal.Style.{Style};
ghost use Rattle.cel_lex.specs.Closing.{ClosesAt};
ghost use Rattle.cel_lex.specs.Texts.{begins_with_two, style_of, closes, keeps, breaks, escapes, closed_at, quotes};
ghost use Rattle.cel_lex.specs.Texts.{opening as opening_of, content_of, faulty};
ghost use Rattle.cel_lex.specs.Bytes.{is_quote};
ghost use Rattle.cel_lex.specs.Scan.{text_at};

use crate::bytes::{Class, ends_line, run_len};
use crate::content::content;
use crate::fault::{LexFault, LexFaultKind};
use crate::piece::Piece;
use crate::token::TokenKind;
use base_containers::Text;
use std::alloc::{AllocError, Global};

/// How a text is written: which quotes are at its ends, whether three of them are, and whether a backslash is a byte
/// like any other.
#[derive(Clone, Copy)]
pub struct Style {
    pub quote: u8,
    pub is_triple: bool,
    pub is_raw: bool,
}

fn begins_with_two_quotes(quote: u8, rest: &[u8]) -> bool
    ensures { result ≡ begins_with_two quote rest.now }
{
    match rest {
        [c, d, ..] => *c == quote && *d == quote,
        _ => false,
    }
}

fn quote_count(style: Style) -> usize
    ensures { result ≡ quotes style }
{
    if style.is_triple { 3 } else { 1 }
}

fn style_at(is_raw: bool, quote: u8, rest: &[u8]) -> Style
    ensures { result ≡ style_of is_raw quote rest.now }
{
    Style {
        quote,
        is_triple: begins_with_two_quotes(quote, rest),
        is_raw,
    }
}

fn is_quote_at(c: u8) -> bool
    ensures { result ≡ is_quote c }
{
    c == 39 || c == 34
}

/// How many bytes a text begins with, a mark and quotes, and its style.
pub fn opening(bytes: &[u8]) -> Option<(usize, Style)>
    ensures { result ≡ opening_of bytes.now }
{
    let [c, rest @ ..] = bytes else {
        return None;
    };
    if is_quote_at(*c) {
        let style = style_at(false, *c, rest);
        return Some((quote_count(style), style));
    }
    if *c != 114 && *c != 82 {
        return None;
    }
    let [quote, rest @ ..] = rest else {
        return None;
    };
    if !is_quote_at(*quote) {
        return None;
    }
    let style = style_at(true, *quote, rest);
    Some((1 + quote_count(style), style))
}

// Whether the closing quotes come first and the first is not escaped.
fn closes_at(style: Style, is_escaped: bool, bytes: &[u8]) -> bool
    ensures { result ≡ (not is_escaped && closes style bytes.now) }
{
    match bytes {
        [c, rest @ ..] => {
            !is_escaped
                && *c == style.quote
                && (!style.is_triple || begins_with_two_quotes(style.quote, rest))
        }
        [] => false,
    }
}

fn breaks_at(style: Style, c: u8) -> bool
    ensures { result ≡ breaks style c }
{
    !style.is_triple && ends_line(c)
}

// Whether the byte after this one is escaped.
fn escapes_at(style: Style, is_escaped: bool, c: u8) -> bool
    ensures { result ≡ (not is_escaped && escapes style c) }
{
    !is_escaped && !style.is_raw && c == 92
}

// How many bytes are before the closing quotes.
fn closing(style: Style, inside: &[u8]) -> Option<usize>
    ensures { result ≡ closed_at style false inside.now }
{
    let mut is_escaped = false;
    for (i, c) in inside.iter().enumerate() {
        if closes_at(style, is_escaped, &inside[i..]) {
            return Some(i);
        }
        if breaks_at(style, *c) {
            return None;
        }
        is_escaped = escapes_at(style, is_escaped, *c);
    }
    None
}

fn fault(kind: LexFaultKind, place: usize) -> Piece
    ensures { result ≡ faulty kind place }
{
    Piece::Faulty(LexFault { kind, place })
}

// What a text is by the bytes between its quotes.
fn content_piece(
    alloc: Global,
    before: usize,
    style: Style,
    body: &str,
) -> Result<Piece, AllocError>
    requires small { before ≤ 4 }
    requires short { length body.now ≤ 16384 }
    ensures { IfOk result (λ p. p ≡ content_of before style body.now) }
{
    if style.is_raw {
        return Ok(Piece::Token(TokenKind::Text(Text::from_str(alloc, body)?)));
    }
    match content(alloc, body)? {
        Ok(text) => Ok(Piece::Token(TokenKind::Text(text))),
        Err(place) => Ok(fault(LexFaultKind::BadEscape, before + place)),
    }
}

/// What a text is, with so many bytes before what is inside, and how many bytes it is. What is inside begins at a place
/// of the whole text.
pub fn literal(
    alloc: Global,
    before: usize,
    style: Style,
    text: &str,
    place: usize,
) -> Result<(usize, Piece), AllocError>
    requires small { before ≤ 4 }
    requires short { length text.now ≤ 16384 }
    requires cut { IsCharBoundary text.now place }
    requires ascii { style.quote < 128 }
    ensures { IfOk result (λ x. x ≡ text_at before style (drop place text.now)) }
{
    let inside = &text.as_bytes()[place..];
    let Some(count) = closing(style, inside) else {
        let class = if style.is_triple {
            Class::All
        } else {
            Class::Inline
        };
        return Ok((
            before + run_len(class, inside),
            fault(LexFaultKind::Unterminated, 0),
        ));
    };
    let piece = content_piece(alloc, before, style, &text[place..place + count])?;
    Ok((before + count + quote_count(style), piece))
}

/// A text's content ends at the first closing quotes that no backslash escapes, and if there are none, the text is not
/// closed.
pub fn text_closing()
    ensures closed { (s : Style) (inside : List ℕ) (n : ℕ) → IsTrue (is_quote s.quote)
        → closed_at s false inside ≡ Some n ↔ ClosesAt s inside n }
    ensures unclosed { (s : Style) (inside : List ℕ) → IsTrue (is_quote s.quote)
        → closed_at s false inside ≡ None ↔ ((n : ℕ) → ClosesAt s inside n → ⊥) }
{}
