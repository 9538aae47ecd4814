//! Values as JSON.
//!
//! [`to_json`] writes a value as compact JSON: integers in decimal digits, timestamps and durations as the texts that
//! `cel_value` prints, the members of maps and objects by the bytes of their keys, and what has no type as null. Its text is
//! that of the definition, to the byte.

ghost use Rattle.std.specs.Prelude.{◌≡◌, [], ◌∷◌, ◌++◌, IfOk, OnOk, string_bytes};
ghost use Rattle.json.specs.Token.{begin_array, begin_object, end_array, end_object, string};
ghost use Rattle.cel_value.specs.Printed.{timestamp_text, duration_text};
ghost use Rattle.cel_value.specs.JsonText.{json_text, items_tokens, members_tokens, tokens_of};

use crate::instant::Timestamp;
use crate::printing::{printed_duration, printed_timestamp};
use crate::value::Value;
use base_containers::TextMap;
use json::Writer;
use std::alloc::{AllocError, Global};

/// A value as compact JSON.
pub fn to_json(alloc: Global, value: &Value) -> Result<String, AllocError>
    ensures { IfOk result (λ text. string_bytes text ≡ json_text value.now) }
{
    let mut out = Writer::new(Vec::new(alloc));
    put(alloc, &mut out, value)?;
    Ok(String::from_utf8(out.into_inner()).unwrap())
}

#[cycle(put)]
fn put(alloc: Global, out: &mut Writer, value: &Value) -> Result<(), AllocError>
    ensures tokens { OnOk result (out.new.tokens ≡ out.old.tokens ++ tokens_of value.now) }
    ensures before { out.new.before ≡ out.old.before }
{
    match value {
        Value::Null | Value::Opaque => out.null(),
        Value::Bool(truth) => out.boolean(*truth),
        Value::Int(number) => out.i64(*number),
        Value::Uint(number) => out.u64(*number),
        Value::Timestamp(timestamp) => put_timestamp(alloc, out, *timestamp),
        Value::Duration(duration) => put_duration(alloc, out, *duration),
        Value::Text(text) => out.string(text.as_str()),
        Value::List(items) => put_items(alloc, out, items.as_slice()),
        Value::Map(entries) | Value::Object(entries) => put_members(alloc, out, entries),
    }
}

fn put_timestamp(alloc: Global, out: &mut Writer, timestamp: Timestamp) -> Result<(), AllocError>
    ensures tokens { OnOk result (out.new.tokens ≡ out.old.tokens ++ string (timestamp_text timestamp) ∷ []) }
    ensures before { out.new.before ≡ out.old.before }
{
    let text = printed_timestamp(alloc, timestamp)?;
    out.string(text.as_str())
}

fn put_duration(alloc: Global, out: &mut Writer, duration: i64) -> Result<(), AllocError>
    ensures tokens { OnOk result (out.new.tokens ≡ out.old.tokens ++ string (duration_text duration) ∷ []) }
    ensures before { out.new.before ≡ out.old.before }
{
    let text = printed_duration(alloc, duration)?;
    out.string(text.as_str())
}

#[cycle(put)]
fn put_items(alloc: Global, out: &mut Writer, items: &[Value]) -> Result<(), AllocError>
    ensures tokens { OnOk result
        (out.new.tokens ≡ out.old.tokens ++ begin_array ∷ (items_tokens items.now ++ end_array ∷ [])) }
    ensures before { out.new.before ≡ out.old.before }
{
    out.begin_array()?;
    for item in items {
        put(alloc, out, item)?;
    }
    out.end_array()
}

#[cycle(put)]
fn put_members(alloc: Global, out: &mut Writer, entries: &TextMap<Value>) -> Result<(), AllocError>
    ensures tokens { OnOk result
        (out.new.tokens ≡ out.old.tokens ++ begin_object ∷ (members_tokens entries.now ++ end_object ∷ [])) }
    ensures before { out.new.before ≡ out.old.before }
{
    out.begin_object()?;
    for entry in entries.as_slice() {
        out.key(entry.key.as_str())?;
        put(alloc, out, &entry.value)?;
    }
    out.end_object()
}
