//! What a schema of an OpenAPI document is by its own keywords.

use serde_json::{Map, Value as Json};
use vap_match::text_in;

/// The form of a schema.
#[derive(Clone, Copy)]
pub enum Form<'a> {
    /// Another schema, which has this reference, is used in its place.
    Reference(&'a str),
    /// The one schema that it is all of.
    Wrapped(&'a Json),
    /// An integer or a text.
    Either,
    /// Nothing says what is there.
    Open,
    /// A truth value, a number or a text.
    Leaf,
    List(&'a Json),
    /// Anything under any names.
    AnyEntries,
    Entries(&'a Json),
    Record(&'a Map<String, Json>),
}

/// Whether a keyword is true.
fn is_set(schema: &Json, keyword: &str) -> bool {
    match schema.get(keyword) {
        Some(value) => value.as_bool() == Some(true),
        None => false,
    }
}

fn is_either(schema: &Json) -> bool {
    is_set(schema, "x-kubernetes-int-or-string") || text_in(schema, "format") == "int-or-string"
}

/// The one schema that a schema is all of.
fn wrapped_in(schema: &Json) -> Option<&Json> {
    match schema.get("allOf") {
        Some(Json::Array(schemas)) => match schemas.as_slice() {
            [only] => Some(only),
            _ => None,
        },
        _ => None,
    }
}

fn list_form(schema: &Json) -> Form<'_> {
    match schema.get("items") {
        Some(items) => Form::List(items),
        None => Form::Open,
    }
}

fn entries_form(schema: &Json) -> Form<'_> {
    match schema.get("additionalProperties") {
        Some(Json::Bool(true)) => Form::AnyEntries,
        Some(entry) if entry.is_object() => Form::Entries(entry),
        _ => Form::Open,
    }
}

fn object_form(schema: &Json) -> Form<'_> {
    match schema.get("properties") {
        Some(Json::Object(properties)) if !properties.is_empty() => Form::Record(properties),
        _ => entries_form(schema),
    }
}

fn typed_form(schema: &Json) -> Form<'_> {
    match text_in(schema, "type") {
        "boolean" | "integer" | "number" | "string" => Form::Leaf,
        "array" => list_form(schema),
        "object" => object_form(schema),
        _ => Form::Open,
    }
}

/// The form of a schema.
pub fn form_of(schema: &Json) -> Form<'_> {
    if let Some(Json::String(reference)) = schema.get("$ref") {
        return Form::Reference(reference.as_str());
    }
    if let Some(wrapped) = wrapped_in(schema) {
        return Form::Wrapped(wrapped);
    }
    if is_either(schema) {
        Form::Either
    } else {
        typed_form(schema)
    }
}
