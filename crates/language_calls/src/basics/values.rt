//! Types and values: copies, weights, what fits, what may be used where, joins and equality.

use calls_notation::{
    Asked, json, shown, shown_type, type_of, types_of, unknown, unreadable, value_at,
};
use cel_value::{
    CelType, Value, assignable, code_points, copy_types, equal, fits, join, length, max_length,
    max_weight, tenths, weight,
};
use serde_json::Value as Json;
use std::alloc::{AllocError, Global};
use vap_match::items_of;

/// The answer to a call of types and values.
pub fn answer(alloc: Global, asked: &Asked) -> Result<String, AllocError> {
    match asked.call {
        "types" => types(alloc, asked.input),
        "values" => values(alloc, asked.input),
        "unsigned" => unsigned(alloc, asked.input),
        "integers" => integers(alloc, asked.input),
        "length" => format!(in alloc; "{}", code_points(asked.input)),
        "tenths" => format!(in alloc; "{}", tenths(natural(asked.input))),
        _ => unknown(alloc),
    }
}

fn one_type(alloc: Global, cel_type: &CelType) -> Result<String, AllocError> {
    let text = shown_type(alloc, cel_type)?;
    let greatest = max_weight(cel_type);
    let longest = max_length(cel_type);
    format!(in alloc; "{}, at most {greatest}, length {longest}", text.as_str())
}

fn joined(alloc: Global, left: &CelType, right: &CelType) -> Result<String, AllocError> {
    match join(alloc, left, right)? {
        Some(joined) => shown_type(alloc, &joined),
        None => String::from_str(alloc, "none"),
    }
}

fn two_types(alloc: Global, left: &CelType, right: &CelType) -> Result<String, AllocError> {
    let text = joined(alloc, left, right)?;
    let may = if assignable(left, right) { "" } else { "not " };
    format!(in alloc; "{}, {may}assignable", text.as_str())
}

fn copied_types(alloc: Global, types: &[CelType]) -> Result<String, AllocError> {
    let copies = copy_types(alloc, types)?;
    match copies.as_slice() {
        [cel_type] => one_type(alloc, cel_type),
        [left, right] => two_types(alloc, left, right),
        _ => unreadable(alloc),
    }
}

/// For one type its copy, its greatest weight and its greatest length; for two their join, and whether what has the first
/// may be used where the second is asked for.
fn types(alloc: Global, row: &str) -> Result<String, AllocError> {
    let row = json(alloc, row)?;
    let types = types_of(alloc, items_of(&row))?;
    copied_types(alloc, types.as_slice())
}

fn copied(alloc: Global, value: &Value) -> Result<String, AllocError> {
    let copy = value.copy(alloc)?;
    if equal(&copy, value) {
        shown(alloc, &copy)
    } else {
        String::from_str(alloc, "another")
    }
}

fn at_type(alloc: Global, value: &Value, cel_type: &CelType) -> Result<String, AllocError> {
    let text = copied(alloc, value)?;
    let may = if fits(value, cel_type) { "" } else { "not " };
    let (own, long) = (weight(value), length(value));
    format!(in alloc;
        "{}, weight {own}, length {long}, {may}fitting",
        text.as_str()
    )
}

fn at_other(alloc: Global, value: &Value, other: &Json) -> Result<String, AllocError> {
    let other = type_of(alloc, other)?;
    at_type(alloc, value, &other)
}

fn one_value(
    alloc: Global,
    cel_type: &Json,
    document: &Json,
    other: &Json,
) -> Result<String, AllocError> {
    let value = value_at(alloc, cel_type, document)?;
    at_other(alloc, &value, other)
}

fn beside(
    alloc: Global,
    left: &Value,
    right_type: &Json,
    right: &Json,
) -> Result<String, AllocError> {
    let right = value_at(alloc, right_type, right)?;
    let may = if equal(left, &right) { "" } else { "not " };
    format!(in alloc; "{may}equal")
}

fn two_values(
    alloc: Global,
    left_type: &Json,
    left: &Json,
    right_type: &Json,
    right: &Json,
) -> Result<String, AllocError> {
    let left = value_at(alloc, left_type, left)?;
    beside(alloc, &left, right_type, right)
}

fn listed_values(alloc: Global, row: &[Json]) -> Result<String, AllocError> {
    match row {
        [cel_type, document, other] => one_value(alloc, cel_type, document, other),
        [left_type, left, right_type, right] => two_values(
            alloc, left_type, left, right_type, right,
        ),
        _ => unreadable(alloc),
    }
}

/// For a document at a type the copy of its value, the weight, the length, and whether the value fits another type; for two, each at
/// its type, whether their values are equal.
fn values(alloc: Global, row: &str) -> Result<String, AllocError> {
    let row = json(alloc, row)?;
    listed_values(alloc, items_of(&row))
}

/// The same for the unsigned value 7, which no document has.
fn unsigned(alloc: Global, row: &str) -> Result<String, AllocError> {
    let cel_type = json(alloc, row)?;
    at_other(alloc, &Value::Uint(7), &cel_type)
}

fn natural(row: &str) -> u64 {
    row.parse::<u64>().unwrap_or(0)
}

/// Whether a number is the same as an integer and as an unsigned value.
fn integers(alloc: Global, row: &str) -> Result<String, AllocError> {
    let is_equal = equal(
        &Value::Int(row.parse::<i64>().unwrap_or(0)),
        &Value::Uint(natural(row)),
    );
    String::from_str(alloc, if is_equal { "equal" } else { "not equal" })
}
