//! Values and types as texts that no other value or type has.

use base_containers::TextMap;
use cel_value::{CelType, Field, Timestamp, Value};
use std::alloc::{AllocError, Global};

/// A value.
pub fn shown(alloc: Global, value: &Value) -> Result<String, AllocError> {
    let mut out = String::new(alloc);
    put(&mut out, value)?;
    Ok(out)
}

/// Writes a value.
#[cycle(put)]
pub fn put(out: &mut String, value: &Value) -> Result<(), AllocError> {
    match value {
        Value::Null => out.push_str("null"),
        Value::Bool(truth) => write!(out, "{truth}"),
        Value::Int(number) => write!(out, "{number}"),
        Value::Uint(number) => write!(out, "{number}u"),
        Value::Timestamp(timestamp) => put_timestamp(out, *timestamp),
        Value::Duration(duration) => write!(out, "duration {duration}ns"),
        Value::Text(text) => write!(out, "'{}'", text.as_str()),
        Value::List(items) => put_items(out, items.as_slice()),
        Value::Map(entries) => put_entries(out, "map", entries),
        Value::Object(entries) => put_entries(out, "", entries),
        Value::Opaque => out.push_str("opaque"),
    }
}

/// The whole seconds since 1970 began, rounded down, and the nanoseconds after them.
fn put_timestamp(out: &mut String, timestamp: Timestamp) -> Result<(), AllocError> {
    let nanosecond = timestamp.nanosecond().rem_euclid(1_000_000_000) as u32;
    write!(out, "timestamp {}s {nanosecond}ns", timestamp.second())
}

#[cycle(put)]
fn put_items(out: &mut String, items: &[Value]) -> Result<(), AllocError> {
    out.push_str("[")?;
    for item in items {
        put(out, item)?;
        out.push_str(",")?;
    }
    out.push_str("]")
}

#[cycle(put)]
fn put_entries(out: &mut String, kind: &str, entries: &TextMap<Value>) -> Result<(), AllocError> {
    write!(out, "{kind}{{")?;
    for entry in entries.as_slice() {
        write!(out, "{}:", entry.key.as_str())?;
        put(out, &entry.value)?;
        out.push_str(",")?;
    }
    out.push_str("}")
}

/// A type: a limit is written after `<=`, a list that is not plain is a set, and a field that may be absent has a `?`.
pub fn shown_type(alloc: Global, cel_type: &CelType) -> Result<String, AllocError> {
    let mut out = String::new(alloc);
    put_type(&mut out, cel_type)?;
    Ok(out)
}

/// Writes a type.
#[cycle(put_type)]
pub fn put_type(out: &mut String, cel_type: &CelType) -> Result<(), AllocError> {
    match cel_type {
        CelType::Never => out.push_str("never"),
        CelType::Null => out.push_str("null"),
        CelType::Bool => out.push_str("bool"),
        CelType::Int => out.push_str("int"),
        CelType::Uint => out.push_str("uint"),
        CelType::Timestamp => out.push_str("timestamp"),
        CelType::Duration => out.push_str("duration"),
        CelType::Text { max } => put_limit(out, "text", *max, ""),
        CelType::List { max, plain, item } => {
            let kind = if *plain { "list" } else { "set" };
            let front = put_limit(out, kind, *max, " ");
            put_behind(out, front, item.get())
        }
        CelType::Map { max, key_max, item } => {
            let front = put_limits(out, *max, *key_max);
            put_behind(out, front, item.get())
        }
        CelType::Object { fields } => put_fields(out, fields.get()),
        CelType::Nullable(item) => {
            let front = out.push_str("nullable ");
            put_behind(out, front, item.get())
        }
        CelType::Opaque => out.push_str("opaque"),
    }
}

fn put_limit(out: &mut String, kind: &str, max: u32, back: &str) -> Result<(), AllocError> {
    write!(out, "{kind}<={max}{back}")
}

fn put_limits(out: &mut String, max: u32, key_max: u32) -> Result<(), AllocError> {
    put_limit(out, "map", max, " ")?;
    put_limit(out, "text", key_max, " ")
}

/// Writes a type after its front, if that was written.
#[cycle(put_type)]
fn put_behind(
    out: &mut String,
    front: Result<(), AllocError>,
    item: &CelType,
) -> Result<(), AllocError> {
    front?;
    put_type(out, item)
}

#[cycle(put_type)]
fn put_fields(out: &mut String, fields: &TextMap<Field<CelType>>) -> Result<(), AllocError> {
    out.push_str("{")?;
    for field in fields.as_slice() {
        let mark = if field.value.required { "" } else { "?" };
        write!(out, "{}{mark}:", field.key.as_str())?;
        put_type(out, &field.value.cel_type)?;
        out.push_str(",")?;
    }
    out.push_str("}")
}
