//! The keywords of one schema (OpenAPI v3, "Schema Object"; Kubernetes, "Specifying a structural schema").

ghost use Rattle.std.specs.Prelude.{◌≡◌, IfOk, option_map};
ghost use Rattle.serde_json.specs.View.{view, items_view};
ghost use Rattle.vap_schema.specs.Keywords.{value_of, flag, limit, absent, type_word, stated_word, time_format, stated_format};
ghost use Rattle.vap_schema.specs.Keywords.{is_plain, all_texts, required_names, properties_of, entry_of};
ghost use Rattle.vap_schema.specs.Keywords.{NamesAre, PropertiesAre, EntryIs};
ghost use Rattle.vap_schema.specs.Schemas.{is_named, IsInTextOrder, AreTexts};

use crate::own_fault::{Keyword, OwnFault};
use serde_json::{Map, Value as Json};
use std::alloc::{AllocError, Global};

/// The words of `type`.
#[derive(Clone, Copy)]
pub enum TypeWord {
    Boolean,
    Integer,
    Number,
    String,
    Array,
    Object,
}

/// The formats of texts that spell a time.
#[derive(Clone, Copy)]
pub enum TimeFormat {
    Timestamp,
    Duration,
}

/// What a schema has under a keyword.
pub fn value_of(schema: &Json, keyword: Keyword) -> Option<&Json>
    ensures { option_map (λ v. view v.now) result ≡ value_of keyword (view schema.now) }
{
    schema.get(keyword.name())
}

/// A keyword that is true or false, and false if it is absent.
pub fn flag(schema: &Json, keyword: Keyword) -> Result<bool, OwnFault>
    ensures { result ≡ flag keyword (view schema.now) }
{
    match value_of(schema, keyword) {
        Some(value) => match value.as_bool() {
            Some(truth) => Ok(truth),
            None => Err(OwnFault::Keyword(keyword)),
        },
        None => Ok(false),
    }
}

/// A keyword that is a limit, with what it is if it is absent.
pub fn limit(schema: &Json, keyword: Keyword, unstated: u32) -> Result<u32, OwnFault>
    ensures { result ≡ limit keyword unstated (view schema.now) }
{
    match value_of(schema, keyword) {
        Some(value) => match value.as_u64() {
            Some(number) => {
                if number < 4_294_967_296 {
                    Ok(number as u32)
                } else {
                    Err(OwnFault::Keyword(keyword))
                }
            }
            None => Err(OwnFault::Keyword(keyword)),
        },
        None => Ok(unstated),
    }
}

/// Refuses a keyword that may not be there.
pub fn check_absent(schema: &Json, keyword: Keyword) -> Result<(), OwnFault>
    ensures { result ≡ absent keyword (view schema.now) }
{
    match value_of(schema, keyword) {
        Some(_) => Err(OwnFault::Keyword(keyword)),
        None => Ok(()),
    }
}

/// The word of `type`, if there is one.
pub fn stated_word(schema: &Json) -> Result<Option<TypeWord>, OwnFault>
    ensures { result ≡ stated_word (view schema.now) }
{
    match value_of(schema, Keyword::Type) {
        Some(value) => match value.as_str() {
            Some(text) => match type_word(text) {
                Some(word) => Ok(Some(word)),
                None => Err(OwnFault::Keyword(Keyword::Type)),
            },
            None => Err(OwnFault::Keyword(Keyword::Type)),
        },
        None => Ok(None),
    }
}

fn type_word(text: &str) -> Option<TypeWord>
    ensures { result ≡ type_word text.now }
{
    if text == "boolean" {
        Some(TypeWord::Boolean)
    } else if text == "integer" {
        Some(TypeWord::Integer)
    } else if text == "number" {
        Some(TypeWord::Number)
    } else if text == "string" {
        Some(TypeWord::String)
    } else if text == "array" {
        Some(TypeWord::Array)
    } else if text == "object" {
        Some(TypeWord::Object)
    } else {
        None
    }
}

/// The time that a text spells by its `format`, if it spells one.
pub fn stated_format(schema: &Json) -> Result<Option<TimeFormat>, OwnFault>
    ensures { result ≡ stated_format (view schema.now) }
{
    match value_of(schema, Keyword::Format) {
        Some(value) => match value.as_str() {
            Some(text) => Ok(time_format(text)),
            None => Err(OwnFault::Keyword(Keyword::Format)),
        },
        None => Ok(None),
    }
}

fn time_format(text: &str) -> Option<TimeFormat>
    ensures { result ≡ time_format text.now }
{
    if text == "date-time" || text == "date" {
        Some(TimeFormat::Timestamp)
    } else if text == "duration" {
        Some(TimeFormat::Duration)
    } else {
        None
    }
}

/// Whether a list is plain: neither a set nor an associative list.
pub fn is_plain(schema: &Json) -> Result<bool, OwnFault>
    ensures { result ≡ is_plain (view schema.now) }
{
    match value_of(schema, Keyword::ListType) {
        Some(value) => match value.as_str() {
            Some(text) => Ok(!(text == "set" || text == "map")),
            None => Err(OwnFault::Keyword(Keyword::ListType)),
        },
        None => Ok(true),
    }
}

/// The names of required fields.
pub fn required_names(schema: &Json) -> Result<&[Json], OwnFault>
    ensures { NamesAre (required_names (view schema.now)) result }
{
    match value_of(schema, Keyword::Required) {
        Some(Json::Array(names)) => {
            if all_texts(names.as_slice()) {
                Ok(names.as_slice())
            } else {
                Err(OwnFault::Keyword(Keyword::Required))
            }
        }
        Some(_) => Err(OwnFault::Keyword(Keyword::Required)),
        None => Ok(&[]),
    }
}

fn all_texts(names: &[Json]) -> bool
    ensures { result ≡ all_texts (items_view names.now) }
{
    for name in names {
        if !name.is_string() {
            return false;
        }
    }
    true
}

/// The names in the order of their texts, so that one is found without looking at all of them.
pub fn in_text_order(alloc: Global, names: &[Json]) -> Result<Vec<&str>, AllocError>
    ensures same { IfOk result (λ texts. AreTexts texts.items (items_view names.now)) }
    ensures ordered { IfOk result (λ texts. IsInTextOrder texts.items) }
{
    let mut texts = texts_of(alloc, names)?;
    texts.sort_unstable();
    Ok(texts)
}

fn texts_of(alloc: Global, names: &[Json]) -> Result<Vec<&str>, AllocError>
    ensures { IfOk result (λ texts. AreTexts texts.items (items_view names.now)) }
{
    let mut texts = Vec::with_capacity(alloc, names.len())?;
    for name in names {
        if let Some(text) = name.as_str() {
            texts.push(text)?;
        }
    }
    Ok(texts)
}

/// Whether a name is one of these, which are in order.
pub fn is_named(texts: &[&str], name: &str) -> bool
    requires { IsInTextOrder texts.now }
    ensures { result ≡ is_named name.now texts.now }
{
    texts.binary_search(&name).is_ok()
}

/// The properties, if they are named.
pub fn properties_of(schema: &Json) -> Result<Option<&Map<String, Json>>, OwnFault>
    ensures { PropertiesAre (properties_of (view schema.now)) result }
{
    match value_of(schema, Keyword::Properties) {
        Some(Json::Object(properties)) => Ok(Some(properties)),
        Some(_) => Err(OwnFault::Keyword(Keyword::Properties)),
        None => Ok(None),
    }
}

/// What may be under any name, if anything may: true or a schema.
pub fn entry_of(schema: &Json) -> Result<Option<&Json>, OwnFault>
    ensures { EntryIs (entry_of (view schema.now)) result }
{
    match value_of(schema, Keyword::AdditionalProperties) {
        Some(entry) => match entry {
            Json::Bool(truth) => Ok(if *truth { Some(entry) } else { None }),
            Json::Object(_) => Ok(Some(entry)),
            _ => Err(OwnFault::Keyword(Keyword::AdditionalProperties)),
        },
        None => Ok(None),
    }
}
