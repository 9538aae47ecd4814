//! Types in words.

use base_containers::TextMap;
use cel_value::{CelType, Field};
use std::alloc::AllocError;

/// Types, each after a blank.
pub fn put_types(out: &mut String, types: &[CelType]) -> Result<(), AllocError> {
    for cel_type in types {
        out.push_str(" ")?;
        put_type(out, cel_type)?;
    }
    Ok(())
}

/// A type with its limits, as the language's document writes it; a name is quoted.
#[cycle(put_type)]
pub fn put_type(out: &mut String, cel_type: &CelType) -> Result<(), AllocError> {
    match cel_type {
        CelType::Never => out.push_str("Never"),
        CelType::Null => out.push_str("Null"),
        CelType::Bool => out.push_str("Bool"),
        CelType::Int => out.push_str("Int"),
        CelType::Uint => out.push_str("Uint"),
        CelType::Timestamp => out.push_str("Timestamp"),
        CelType::Duration => out.push_str("Duration"),
        CelType::Text { max } => write!(out, "Text{{{max}}}"),
        CelType::List { max, plain, item } => {
            let kind = if *plain { "plain" } else { "not plain" };
            let front = put_list_front(out, *max, kind);
            put_inside(out, front, item.get())
        }
        CelType::Map { max, key_max, item } => {
            let front = put_map_front(out, *max, *key_max);
            put_inside(out, front, item.get())
        }
        CelType::Object { fields } => put_fields(out, fields.get()),
        CelType::Nullable(item) => {
            let front = out.push_str("Nullable{");
            put_inside(out, front, item.get())
        }
        CelType::Opaque => out.push_str("Opaque"),
    }
}

fn put_list_front(out: &mut String, max: u32, kind: &str) -> Result<(), AllocError> {
    write!(out, "List{{{max}, {kind}, ")
}

fn put_map_front(out: &mut String, max: u32, key_max: u32) -> Result<(), AllocError> {
    write!(out, "Map{{{max}, {key_max}, ")
}

// A type after its front, if that was written, and the brace that closes it.
#[cycle(put_type)]
fn put_inside(
    out: &mut String,
    front: Result<(), AllocError>,
    item: &CelType,
) -> Result<(), AllocError> {
    front?;
    put_type(out, item)?;
    out.push_str("}")
}

#[cycle(put_type)]
fn put_fields(out: &mut String, fields: &TextMap<Field<CelType>>) -> Result<(), AllocError> {
    out.push_str("Object{")?;
    for (number, field) in fields.as_slice().iter().enumerate() {
        let comma = if number == 0 { "" } else { ", " };
        let mark = if field.value.required { "" } else { "?" };
        write!(out, "{comma}{:?}{mark}: ", field.key.as_str())?;
        put_type(out, &field.value.cel_type)?;
    }
    out.push_str("}")
}
