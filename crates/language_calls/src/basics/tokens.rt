//! The tokens of texts, and the faults of texts that are not cut.

use calls_notation::{Asked, unknown};
use cel_lex::{Infix, LexError, Token, TokenKind, tokens};
use std::alloc::{AllocError, Global};

/// The answer to a call of tokens.
pub fn answer(alloc: Global, asked: &Asked) -> Result<String, AllocError> {
    match asked.call {
        "tokens" => shown(alloc, asked.input),
        _ => unknown(alloc),
    }
}

fn infix_name(operator: Infix) -> &'static str {
    match operator {
        Infix::Or => "||",
        Infix::And => "&&",
        Infix::Less => "<",
        Infix::AtMost => "<=",
        Infix::Greater => ">",
        Infix::AtLeast => ">=",
        Infix::Equal => "==",
        Infix::NotEqual => "!=",
        Infix::Add => "+",
        Infix::Subtract => "-",
        Infix::Multiply => "*",
        Infix::Divide => "/",
        Infix::Remainder => "%",
    }
}

fn mark_name(kind: &TokenKind) -> &'static str {
    match kind {
        TokenKind::True => "true",
        TokenKind::False => "false",
        TokenKind::Null => "null",
        TokenKind::In => "in",
        TokenKind::Open => "(",
        TokenKind::Close => ")",
        TokenKind::OpenBracket => "[",
        TokenKind::CloseBracket => "]",
        TokenKind::OpenBrace => "{",
        TokenKind::CloseBrace => "}",
        TokenKind::Dot => ".",
        TokenKind::Comma => ",",
        TokenKind::Question => "?",
        TokenKind::Colon => ":",
        TokenKind::Bang => "!",
        _ => "",
    }
}

/// Writes what a token with these bytes is, in words.
fn put_kind(out: &mut String, kind: &TokenKind, word: &str) -> Result<(), AllocError> {
    match kind {
        TokenKind::Int(n) => write!(out, "int {n}"),
        TokenKind::Uint(n) => write!(out, "uint {n}"),
        TokenKind::Text(text) => write!(out, "text {}", text.as_str()),
        TokenKind::Name => write!(out, "name {word}"),
        TokenKind::Reserved => write!(out, "reserved {word}"),
        TokenKind::Operator(operator) => out.push_str(infix_name(*operator)),
        other => out.push_str(mark_name(other)),
    }
}

/// The tokens of a text with their places.
fn cut(alloc: Global, text: &str, found: &[Token]) -> Result<String, AllocError> {
    let mut out = String::new(alloc);
    for token in found {
        let word = text.get(token.start..token.end).unwrap_or("");
        put_kind(&mut out, &token.kind, word)?;
        write!(out, " {}..{};", token.start, token.end)?;
    }
    Ok(out)
}

/// The tokens of a text with their places, or its fault.
fn shown(alloc: Global, text: &str) -> Result<String, AllocError> {
    match tokens(alloc, text) {
        Ok(found) => cut(alloc, text, found.as_slice()),
        Err(LexError::Fault(fault)) => format!(in alloc; "{:?} at {}", fault.kind, fault.place),
        Err(LexError::OutOfMemory) => Err(AllocError),
    }
}
