//! What documents hold. A row is a text; what it spells is written out off its tape (`opened`) or off its tree (`read`).
//!
//! Texts and names are written by their bytes, after `t`; numbers after `u`, `n` (one below 0) and `f` (the bits of a float);
//! members in the order of their names.

use base_containers::{Number, Part, opened};
use calls_notation::{Asked, unknown};
use json::Scratch;
use serde_json::Value as Json;
use std::alloc::{AllocError, Global};

/// The most pieces of a document that are written out.
const MOST_PIECES: u32 = 1_048_576;

/// What is still to be written.
#[derive(Drop)]
enum Piece<'t, 'a> {
    Whole(Part<'t, 'a>),
    Name(&'a str),
    Mark(&'static str),
}

/// The answer to a call of documents.
pub fn answer(alloc: Global, asked: &Asked) -> Result<String, AllocError> {
    match asked.call {
        "opened" => by_tape(alloc, asked.input),
        "read" => by_tree(alloc, asked.input),
        _ => unknown(alloc),
    }
}

fn none(alloc: Global) -> Result<String, AllocError> {
    String::from_str(alloc, "no document")
}

fn by_tape(alloc: Global, text: &str) -> Result<String, AllocError> {
    let mut scratch = Scratch::new(alloc);
    match opened(alloc, text, &mut scratch)? {
        Some(tape) => written(alloc, Part::new(tape.root())),
        None => none(alloc),
    }
}

fn by_tree(alloc: Global, text: &str) -> Result<String, AllocError> {
    match Json::from_str(alloc, text) {
        Ok(json) => written(alloc, Part::of_tree(&json)),
        Err(error) if error.is_memory() => Err(AllocError),
        Err(_) => none(alloc),
    }
}

fn written(alloc: Global, document: Part<'_, '_>) -> Result<String, AllocError> {
    let mut out = String::new(alloc);
    let mut pieces = Vec::new(alloc);
    pieces.push(Piece::Whole(document))?;
    for _ in 0..MOST_PIECES {
        match pieces.pop() {
            Some(Piece::Whole(part)) => put(alloc, &mut out, &mut pieces, &part)?,
            Some(Piece::Name(name)) => put_text(&mut out, name)?,
            Some(Piece::Mark(mark)) => out.push_str(mark)?,
            None => return Ok(out),
        }
    }
    String::from_str(alloc, "too many pieces")
}

/// Writes a part that has none of its own, or puts off what it has.
fn put<'t, 'a>(
    alloc: Global,
    out: &mut String,
    pieces: &mut Vec<Piece<'t, 'a>>,
    part: &Part<'t, 'a>,
) -> Result<(), AllocError> {
    if let Some(items) = part.items(alloc)? {
        return put_items(pieces, items);
    }
    if let Some(members) = part.members(alloc)? {
        return put_members(pieces, members);
    }
    put_scalar(out, part)
}

/// Puts off items, the last first.
fn put_items<'t, 'a>(
    pieces: &mut Vec<Piece<'t, 'a>>,
    items: Vec<Part<'t, 'a>>,
) -> Result<(), AllocError> {
    let mut items = items;
    pieces.push(Piece::Mark("]"))?;
    for _ in 0..items.len() {
        if let Some(item) = items.pop() {
            pieces.push(Piece::Mark(","))?;
            pieces.push(Piece::Whole(item))?;
        }
    }
    pieces.push(Piece::Mark("["))?;
    Ok(())
}

fn put_members<'t, 'a>(
    pieces: &mut Vec<Piece<'t, 'a>>,
    members: Vec<(&'a str, Part<'t, 'a>)>,
) -> Result<(), AllocError> {
    let mut members = members;
    pieces.push(Piece::Mark("}"))?;
    for _ in 0..members.len() {
        if let Some((name, member)) = members.pop() {
            pieces.push(Piece::Mark(","))?;
            pieces.push(Piece::Whole(member))?;
            pieces.push(Piece::Mark(":"))?;
            pieces.push(Piece::Name(name))?;
        }
    }
    pieces.push(Piece::Mark("{"))?;
    Ok(())
}

fn put_scalar(out: &mut String, part: &Part<'_, '_>) -> Result<(), AllocError> {
    if let Some(text) = part.as_str() {
        return put_text(out, text);
    }
    if let Some(truth) = part.as_bool() {
        return write!(out, "{truth}");
    }
    match part.as_number() {
        Some(Number::Unsigned(number)) => write!(out, "u{number}"),
        Some(Number::Negative(number)) => write!(out, "n{number}"),
        Some(Number::Float(number)) => put_float(out, number),
        None if part.is_null() => out.push_str("null"),
        None => out.push_str("nothing"),
    }
}

/// Writes a float by its bits: no document has a NaN.
fn put_float(out: &mut String, number: f64) -> Result<(), AllocError> {
    if number.is_nan() {
        out.push_str("nan")
    } else {
        write!(out, "f{}", number.to_bits())
    }
}

fn put_text(out: &mut String, text: &str) -> Result<(), AllocError> {
    out.push_str("t")?;
    for byte in text.as_bytes() {
        write!(out, "{byte:02x}")?;
    }
    Ok(())
}
