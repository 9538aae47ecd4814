//! What is under a member, empty if its form is another.

ghost use Rattle.std.specs.Prelude.{◌≡◌, IfOk};
ghost use Rattle.serde_json.specs.Find.{get};
ghost use Rattle.serde_json.specs.View.{view, items_view};
ghost use Rattle.vap_match.specs.Parts.{optional_text, text_of, text_in, items_of, items_in, each_item, texts_in};

use base_containers::{Items, Text};
use serde_json::Value as Json;
use std::alloc::{AllocError, Global};

/// A copy of the text of a member, if it is a text.
pub fn optional_text(alloc: Global, json: &Json, name: &str) -> Result<Option<Text>, AllocError>
    ensures { IfOk result (λ text. text ≡ optional_text (get name.now (view json.now))) }
{
    match json.get(name) {
        Some(found) => match found.as_str() {
            Some(text) => Ok(Some(Text::from_str(alloc, text)?)),
            None => Ok(None),
        },
        None => Ok(None),
    }
}

/// The text, empty if there is none.
pub fn text_of(json: &Json) -> &str
    ensures { result.now ≡ text_of (view json.now) }
{
    match json.as_str() {
        Some(text) => text,
        None => "",
    }
}

/// The text of a member, empty if there is none.
pub fn text_in<'a>(json: &'a Json, name: &str) -> &'a str
    ensures { result.now ≡ text_in (get name.now (view json.now)) }
{
    match json.get(name) {
        Some(found) => text_of(found),
        None => "",
    }
}

/// The items of a document, none if it is no list.
pub fn items_of(json: &Json) -> &[Json]
    ensures { items_view result.now ≡ items_of (view json.now) }
{
    match json {
        Json::Array(items) => items.as_slice(),
        _ => &[],
    }
}

/// The items of a member, none if it is no list.
pub fn items_in<'a>(json: &'a Json, name: &str) -> &'a [Json]
    ensures { items_view result.now ≡ items_in (get name.now (view json.now)) }
{
    match json.get(name) {
        Some(found) => items_of(found),
        None => &[],
    }
}

/// The texts of a member, none if it is no list.
pub fn texts_in(alloc: Global, json: &Json, name: &str) -> Result<Items<Text>, AllocError>
    ensures { IfOk result (λ texts. texts ≡ texts_in (get name.now (view json.now))) }
{
    texts_of(alloc, items_in(json, name))
}

/// The texts of items; an item that is no text gives an empty one.
pub fn texts_of(alloc: Global, items: &[Json]) -> Result<Items<Text>, AllocError>
    ensures { IfOk result (λ texts. texts ≡ each_item text_of (items_view items.now)) }
{
    let mut texts = Vec::with_capacity(alloc, items.len())?;
    for item in items {
        texts.push(Text::from_str(alloc, text_of(item))?)?;
    }
    Ok(Items::from_vec(texts))
}
