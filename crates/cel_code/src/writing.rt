//! Numbers, truth values, texts and types, after what is written.

ghost use Rattle.std.specs.Prelude.{◌≡◌, ◌++◌, OnOk};
ghost use Rattle.cel_code.specs.Spelling.{be32, text, truth, listed, type_spelling};
ghost use Rattle.cel_code.specs.Writing.{spelt_field};

use base_containers::{Keyed, TextMap};
use cel_value::{CelType, Field};
use std::alloc::AllocError;

/// Four bytes, of a number that they can spell.
pub fn put_number(out: &mut Vec<u8>, number: usize) -> Result<(), AllocError>
    ensures { OnOk result (out.new.items ≡ out.old.items ++ be32 number) }
{
    let bytes = (number as u64).to_be_bytes();
    out.extend_from_slice(&[bytes[4], bytes[5], bytes[6], bytes[7]])?;
    Ok(())
}

pub fn put_truth(out: &mut Vec<u8>, holds: bool) -> Result<(), AllocError>
    ensures { OnOk result (out.new.items ≡ out.old.items ++ truth holds) }
{
    out.push(if holds { 1 } else { 0 })?;
    Ok(())
}

pub fn put_text(out: &mut Vec<u8>, content: &str) -> Result<(), AllocError>
    ensures { OnOk result (out.new.items ≡ out.old.items ++ text content.now) }
{
    put_number(out, content.len())?;
    out.extend_from_slice(content.as_bytes())?;
    Ok(())
}

// A field's name, and whether each object has it.
fn put_name(out: &mut Vec<u8>, field: &Keyed<Field<CelType>>) -> Result<(), AllocError>
    ensures { OnOk result (out.new.items ≡ out.old.items ++ (text field.now.key ++ truth field.now.value.required)) }
{
    put_text(out, field.key.as_str())?;
    put_truth(out, field.value.required)
}

#[cycle(writing)]
pub fn put_type(out: &mut Vec<u8>, cel_type: &CelType) -> Result<(), AllocError>
    ensures { OnOk result (out.new.items ≡ out.old.items ++ type_spelling cel_type.now) }
{
    match cel_type {
        CelType::Never => out.push(0)?,
        CelType::Null => out.push(1)?,
        CelType::Bool => out.push(2)?,
        CelType::Int => out.push(3)?,
        CelType::Uint => out.push(4)?,
        CelType::Text { max } => {
            out.push(5)?;
            put_number(out, *max as usize)?;
        }
        CelType::List { max, plain, item } => {
            out.push(6)?;
            put_number(out, *max as usize)?;
            put_truth(out, *plain)?;
            put_type(out, item.get())?;
        }
        CelType::Map { max, key_max, item } => {
            out.push(7)?;
            put_number(out, *max as usize)?;
            put_number(out, *key_max as usize)?;
            put_type(out, item.get())?;
        }
        CelType::Object { fields } => {
            out.push(8)?;
            put_fields(out, fields.get())?;
        }
        CelType::Nullable(item) => {
            out.push(9)?;
            put_type(out, item.get())?;
        }
        CelType::Opaque => out.push(10)?,
        CelType::Timestamp => out.push(11)?,
        CelType::Duration => out.push(12)?,
    }
    Ok(())
}

#[cycle(writing)]
fn put_fields(out: &mut Vec<u8>, fields: &TextMap<Field<CelType>>) -> Result<(), AllocError>
    ensures { OnOk result (out.new.items ≡ out.old.items ++ listed spelt_field fields.now) }
{
    let fields = fields.as_slice();
    put_number(out, fields.len())?;
    for field in fields {
        put_name(out, field)?;
        put_type(out, &field.value.cel_type)?;
    }
    Ok(())
}
