//! Fields of operands, lent and not.

use calls_notation::{Asked, json, shown, unknown, unreadable, value_at};
use cel_machine::{Operand, field};
use cel_value::{CelError, Value};
use serde_json::Value as Json;
use std::alloc::{AllocError, Global};
use vap_match::items_of;

/// The answer to a call of operands.
pub fn answer(alloc: Global, asked: &Asked) -> Result<String, AllocError> {
    match asked.call {
        "fields" => fields(alloc, asked.input),
        _ => unknown(alloc),
    }
}

fn part_text(alloc: Global, part: &Result<Operand, CelError>) -> Result<String, AllocError> {
    match part {
        Ok(operand) => shown(alloc, operand.get()),
        Err(error) => String::from_str(alloc, error.name()),
    }
}

fn field_text(alloc: Global, operand: Operand, name: &str) -> Result<String, AllocError> {
    match field(alloc, Ok(operand), name)? {
        Some(part) => part_text(alloc, &part),
        None => String::from_str(alloc, "none"),
    }
}

fn both_texts(alloc: Global, value: &Value, name: &str) -> Result<String, AllocError> {
    let lent = field_text(alloc, Operand::lent(value), name)?;
    let own = field_text(alloc, Operand::own(value.copy(alloc)?), name)?;
    if lent.as_str() == own.as_str() {
        Ok(lent)
    } else {
        String::from_str(alloc, "another")
    }
}

fn field_at(
    alloc: Global,
    cel_type: &Json,
    document: &Json,
    name: &str,
) -> Result<String, AllocError> {
    let value = value_at(alloc, cel_type, document)?;
    both_texts(alloc, &value, name)
}

/// The field of a document's value under a name, if the value is lent and if it is a copy.
fn fields(alloc: Global, row: &str) -> Result<String, AllocError> {
    let row = json(alloc, row)?;
    match items_of(&row) {
        [cel_type, document, Json::String(name)] => {
            field_at(alloc, cel_type, document, name.as_str())
        }
        _ => unreadable(alloc),
    }
}
