//! The keywords that the schema of a definition takes over, and the schemas that are made of them.

use serde_json::{Map, Value as Json, put};
use std::alloc::{AllocError, Global};
use vap_match::{are_texts, text_in};

/// The members of a JSON object.
pub type Members = Map<String, Json>;

/// Puts a text under a key.
pub fn put_text(
    members: &mut Members,
    alloc: Global,
    key: &str,
    text: &str,
) -> Result<(), AllocError> {
    let value = String::from_str(alloc, text)?;
    put(members, alloc, key, Json::String(value))
}

/// Takes over a keyword that is a number without a sign.
fn keep_limit(
    members: &mut Members,
    alloc: Global,
    schema: &Json,
    key: &str,
) -> Result<(), AllocError> {
    match schema.get(key) {
        Some(value) if value.is_u64() => put(members, alloc, key, value.clone()?),
        _ => Ok(()),
    }
}

/// Takes over a keyword that is true.
fn keep_flag(
    members: &mut Members,
    alloc: Global,
    schema: &Json,
    key: &str,
) -> Result<(), AllocError> {
    match schema.get(key) {
        Some(Json::Bool(true)) => put(members, alloc, key, Json::Bool(true)),
        _ => Ok(()),
    }
}

fn keep_text(
    members: &mut Members,
    alloc: Global,
    schema: &Json,
    key: &str,
) -> Result<(), AllocError> {
    match schema.get(key) {
        Some(Json::String(text)) => put_text(members, alloc, key, text.as_str()),
        _ => Ok(()),
    }
}

/// Takes over the names of required properties.
fn keep_required(members: &mut Members, alloc: Global, schema: &Json) -> Result<(), AllocError> {
    match schema.get("required") {
        Some(value) => match value {
            Json::Array(names) if are_texts(names.as_slice()) => {
                put(members, alloc, "required", value.clone()?)
            }
            _ => Ok(()),
        },
        None => Ok(()),
    }
}

/// The members of a schema of a type.
fn typed(alloc: Global, word: &str) -> Result<Members, AllocError> {
    let mut members = Map::new(alloc);
    put_text(&mut members, alloc, "type", word)?;
    Ok(members)
}

/// A schema that says only that a keyword is true.
fn flagged(alloc: Global, key: &str) -> Result<Json, AllocError> {
    let mut members = Map::new(alloc);
    put(&mut members, alloc, key, Json::Bool(true))?;
    Ok(Json::Object(members))
}

/// The schema of something of which nothing is said.
pub fn unknown(alloc: Global) -> Result<Json, AllocError> {
    flagged(alloc, "x-kubernetes-preserve-unknown-fields")
}

/// The schema of an integer or a text.
pub fn either(alloc: Global) -> Result<Json, AllocError> {
    flagged(alloc, "x-kubernetes-int-or-string")
}

/// The schema of an object of which nothing more is said.
pub fn bare_object(alloc: Global) -> Result<Json, AllocError> {
    Ok(Json::Object(typed(alloc, "object")?))
}

/// The schema of an object that may hold anything.
pub fn open_object(alloc: Global) -> Result<Json, AllocError> {
    let mut members = typed(alloc, "object")?;
    let key = "x-kubernetes-preserve-unknown-fields";
    put(&mut members, alloc, key, Json::Bool(true))?;
    Ok(Json::Object(members))
}

/// The schema of an object that may hold anything under any names.
pub fn open_entries(alloc: Global) -> Result<Json, AllocError> {
    let mut members = typed(alloc, "object")?;
    put(
        &mut members,
        alloc,
        "additionalProperties",
        Json::Bool(true),
    )?;
    Ok(Json::Object(members))
}

fn is_time(format: &str) -> bool {
    format == "date-time" || format == "date" || format == "duration"
}

/// Takes over what is said of a text. A time may be null: that is how one that is not set is written.
fn keep_text_form(members: &mut Members, alloc: Global, schema: &Json) -> Result<(), AllocError> {
    let format = text_in(schema, "format");
    if is_time(format) {
        put_text(members, alloc, "format", format)?;
    }
    if format == "date-time" {
        put(members, alloc, "nullable", Json::Bool(true))?;
    }
    keep_limit(members, alloc, schema, "maxLength")
}

/// The schema of a truth value, a number or a text.
pub fn leaf_of(alloc: Global, schema: &Json) -> Result<Json, AllocError> {
    let word = text_in(schema, "type");
    let mut members = typed(alloc, word)?;
    keep_flag(&mut members, alloc, schema, "nullable")?;
    if word == "string" {
        keep_text_form(&mut members, alloc, schema)?;
    }
    Ok(Json::Object(members))
}

/// The schema of a list with these items.
pub fn list_of(alloc: Global, schema: &Json, items: Json) -> Result<Json, AllocError> {
    let mut members = typed(alloc, "array")?;
    put(&mut members, alloc, "items", items)?;
    keep_flag(&mut members, alloc, schema, "nullable")?;
    keep_limit(&mut members, alloc, schema, "maxItems")?;
    keep_text(&mut members, alloc, schema, "x-kubernetes-list-type")?;
    Ok(Json::Object(members))
}

/// The schema of an object with such entries under any names.
pub fn map_of(alloc: Global, schema: &Json, entry: Json) -> Result<Json, AllocError> {
    let mut members = typed(alloc, "object")?;
    put(&mut members, alloc, "additionalProperties", entry)?;
    keep_flag(&mut members, alloc, schema, "nullable")?;
    keep_limit(&mut members, alloc, schema, "maxProperties")?;
    Ok(Json::Object(members))
}

/// The schema of an object with these properties.
pub fn object_of(alloc: Global, schema: &Json, properties: Members) -> Result<Json, AllocError> {
    let mut members = typed(alloc, "object")?;
    put(&mut members, alloc, "properties", Json::Object(properties))?;
    keep_flag(&mut members, alloc, schema, "nullable")?;
    keep_required(&mut members, alloc, schema)?;
    Ok(Json::Object(members))
}
