//! Texts: where one occurs in another, letters, texts in a row, and numbers as texts.

use base_containers::Text;
use calls_notation::{Asked, json, unknown, unreadable};
use cel_operators::{
    concat, contains, ends_with, joined, lower_ascii, printed_int, printed_uint, read_int,
    read_uint, starts_with, upper_ascii,
};
use cel_value::{Value, code_points};
use serde_json::Value as Json;
use std::alloc::{AllocError, Global};
use vap_match::items_of;

/// The answer to a call of texts.
pub fn answer(alloc: Global, asked: &Asked) -> Result<String, AllocError> {
    match asked.call {
        "parts" => parts(alloc, asked.input),
        "letters" => letters(alloc, asked.input),
        "read" => read(alloc, asked.input),
        "printed" => printed(alloc, asked.input),
        "joined" => row_of(alloc, asked.input),
        _ => unknown(alloc),
    }
}

/// How many code points a text has, and the text.
fn counted(alloc: Global, text: &Text) -> Result<String, AllocError> {
    let count = code_points(text.as_str());
    format!(in alloc; "{count} {}", text.as_str())
}

fn beside(alloc: Global, text: &str, part: &str) -> Result<String, AllocError> {
    let both = concat(alloc, text, part)?;
    let both = counted(alloc, &both)?;
    let (first, last) = (starts_with(text, part), ends_with(text, part));
    let within = contains(text, part);
    format!(in alloc; "{first} {last} {within}; {}", both.as_str())
}

/// For two texts, whether the first begins with the second, ends with it and has it somewhere, and both in a row.
fn parts(alloc: Global, row: &str) -> Result<String, AllocError> {
    let row = json(alloc, row)?;
    match items_of(&row) {
        [Json::String(text), Json::String(part)] => beside(alloc, text.as_str(), part.as_str()),
        _ => unreadable(alloc),
    }
}

/// A text in small letters, and in capital ones.
fn letters(alloc: Global, row: &str) -> Result<String, AllocError> {
    let lower = lower_ascii(alloc, row)?;
    let upper = upper_ascii(alloc, row)?;
    format!(in alloc; "{} {}", lower.as_str(), upper.as_str())
}

/// The integer that a text spells, and the unsigned one.
fn read(alloc: Global, row: &str) -> Result<String, AllocError> {
    let (int, uint) = (read_int(row), read_uint(row));
    format!(in alloc; "{int:?} {uint:?}")
}

fn printed_number(alloc: Global, row: &str) -> Result<Text, AllocError> {
    match row.parse::<i64>() {
        Ok(number) => printed_int(alloc, number),
        Err(_) => printed_uint(alloc, row.parse::<u64>().unwrap_or(0)),
    }
}

/// The number that a row spells, printed: as an integer if it is one, otherwise as an unsigned one.
fn printed(alloc: Global, row: &str) -> Result<String, AllocError> {
    let text = printed_number(alloc, row)?;
    counted(alloc, &text)
}

/// A text as a value, and null for what is none.
fn part_of(alloc: Global, json: &Json) -> Result<Value, AllocError> {
    match json {
        Json::String(text) => Ok(Value::Text(Text::from_str(alloc, text.as_str())?)),
        _ => Ok(Value::Null),
    }
}

fn values_of(alloc: Global, row: &[Json]) -> Result<Vec<Value>, AllocError> {
    let mut parts = Vec::new(alloc);
    for json in row {
        parts.push(part_of(alloc, json)?)?;
    }
    Ok(parts)
}

fn put_together(alloc: Global, parts: &[Value], separator: &str) -> Result<String, AllocError> {
    match joined(alloc, parts, separator)? {
        Some(text) => counted(alloc, &text),
        None => String::from_str(alloc, "none"),
    }
}

fn in_a_row(alloc: Global, separator: &str, row: &[Json]) -> Result<String, AllocError> {
    let parts = values_of(alloc, row)?;
    put_together(alloc, parts.as_slice(), separator)
}

/// Texts in a row, with the separator that is first.
fn row_of(alloc: Global, row: &str) -> Result<String, AllocError> {
    let row = json(alloc, row)?;
    match items_of(&row) {
        [Json::String(separator), rest @ ..] => in_a_row(alloc, separator.as_str(), rest),
        _ => unreadable(alloc),
    }
}
