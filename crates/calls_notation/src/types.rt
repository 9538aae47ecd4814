//! Types as rows write them, in JSON: a word, as `"int"`; a number, the limit of a text; `["list",2,"int"]`, and so
//! `set`; `["map",2,9,"int"]`; `["nullable","int"]`; and `{"a":"int","b?":"bool"}`, an object with `b` optional.

use crate::question::json;
use base_containers::{Items, Part, Shared, Text, TextMap};
use cel_value::{CelType, Field, Value};
use serde_json::{Map, Value as Json};
use std::alloc::{AllocError, Global};
use vap_schema::{FitError, fit};

/// The type that a row writes.
pub fn typed(alloc: Global, text: &str) -> Result<CelType, AllocError> {
    type_of(alloc, &json(alloc, text)?)
}

/// The types that are written.
pub fn types_of(alloc: Global, row: &[Json]) -> Result<Items<CelType>, AllocError> {
    let mut types = Items::new(alloc);
    match put_types(alloc, &mut types, row) {
        Ok(()) => Ok(types),
        Err(error) => Err(error),
    }
}

/// Puts the types that are written after others.
pub fn put_types(
    alloc: Global,
    types: &mut Items<CelType>,
    row: &[Json],
) -> Result<(), AllocError> {
    for json in row {
        types.push(type_of(alloc, json)?)?;
    }
    Ok(())
}

/// The value of a document at a type. A document that is none is as null.
pub fn value_at(alloc: Global, cel_type: &Json, document: &Json) -> Result<Value, AllocError> {
    part_at(alloc, cel_type, &Part::of_tree(document))
}

/// The value of a part at a type. A part that is none is as null.
pub fn part_at(
    alloc: Global,
    cel_type: &Json,
    document: &Part<'_, '_>,
) -> Result<Value, AllocError> {
    let cel_type = type_of(alloc, cel_type)?;
    match fit(alloc, document, &cel_type, "") {
        Ok(value) => Ok(value),
        Err(FitError::Fault(_)) => Ok(Value::Null),
        Err(FitError::OutOfMemory) => Err(AllocError),
    }
}

/// The type that is written. What is no type is as never, of which no such row has the answer.
#[cycle(type_of)]
pub fn type_of(alloc: Global, json: &Json) -> Result<CelType, AllocError> {
    match json {
        Json::String(word) => Ok(word_type(word.as_str())),
        Json::Number(_) => Ok(CelType::Text { max: limit(json) }),
        Json::Array(parts) => wrapped(alloc, parts.as_slice()),
        Json::Object(members) => object(alloc, members),
        _ => Ok(CelType::Never),
    }
}

fn word_type(word: &str) -> CelType {
    match word {
        "null" => CelType::Null,
        "bool" => CelType::Bool,
        "int" => CelType::Int,
        "uint" => CelType::Uint,
        "timestamp" => CelType::Timestamp,
        "duration" => CelType::Duration,
        "opaque" => CelType::Opaque,
        _ => CelType::Never,
    }
}

fn limit(json: &Json) -> u32 {
    match json.as_u64() {
        Some(number) => u32::try_from(number).unwrap_or(0),
        None => 0,
    }
}

#[cycle(type_of)]
fn wrapped(alloc: Global, parts: &[Json]) -> Result<CelType, AllocError> {
    match parts {
        [.., inner] => {
            let inner = type_of(alloc, inner)?;
            Ok(around(parts, Shared::new(alloc, inner)?))
        }
        [] => Ok(CelType::Never),
    }
}

/// The type that is written around its inner type.
fn around(parts: &[Json], item: Shared<CelType>) -> CelType {
    match parts {
        [_, _] => CelType::Nullable(item),
        [kind, max, _] => CelType::List {
            max: limit(max),
            plain: kind.as_str() == Some("list"),
            item,
        },
        [_, max, key_max, _] => CelType::Map {
            max: limit(max),
            key_max: limit(key_max),
            item,
        },
        _ => CelType::Never,
    }
}

#[cycle(type_of)]
fn object(alloc: Global, members: &Map<String, Json>) -> Result<CelType, AllocError> {
    let mut fields = TextMap::new(alloc);
    for (name, json) in members.iter() {
        let key = Text::from_str(alloc, name.strip_suffix('?').unwrap_or(name.as_str()))?;
        put(
            &mut fields,
            key,
            !name.ends_with('?'),
            type_of(alloc, json)?,
        )?;
    }
    Ok(CelType::Object {
        fields: Shared::new(alloc, fields)?,
    })
}

/// Puts a field under its name, unless one is there.
fn put(
    fields: &mut TextMap<Field<CelType>>,
    key: Text,
    required: bool,
    cel_type: CelType,
) -> Result<(), AllocError> {
    if fields.get(key.as_str()).is_none() {
        return fields.insert(key, Field { required, cel_type });
    }
    Ok(())
}
