//! Objects that are documents by themselves, and the one of a line that is at fault.

use base_containers::Part;
use serde_json::{Map, Value as Json, put};
use std::alloc::{AllocError, Global};
use vap_cli::{DocumentError, document_of};
use vap_match::{has_text, items_in, text_in};
use vap_read::{Event, EventError, LineKind, line_kind};

/// The watch event that adds an object.
pub fn added(alloc: Global, object: Json) -> Result<Json, AllocError> {
    let word = String::from_str(alloc, "ADDED")?;
    let mut members = Map::new(alloc);
    put(&mut members, alloc, "object", object)?;
    put(&mut members, alloc, "type", Json::String(word))?;
    Ok(Json::Object(members))
}

/// What kind of line a document is.
pub fn kind_of(json: &Json) -> LineKind {
    line_kind(&Part::of_tree(json))
}

/// Whether a document is an object by itself: it is of no kind of lines, and has an apiVersion and a kind.
pub fn is_alone(json: &Json) -> bool {
    kind_of(json) == LineKind::Unknown && has_text(json, "apiVersion") && has_text(json, "kind")
}

fn name_of(object: &Json) -> &str {
    match object.get("metadata") {
        Some(metadata) => text_in(metadata, "name"),
        None => "",
    }
}

/// An object's kind and name, before what is said of it.
fn label_of(alloc: Global, object: &Json) -> Result<String, AllocError> {
    let (kind, name) = (text_in(object, "kind"), name_of(object));
    format!(in alloc; "{kind:?} {name:?}: ")
}

/// Whether an object is read as one.
fn is_read(alloc: Global, object: &Json) -> Result<bool, AllocError> {
    let copy = object.clone()?;
    match Event::from_json(alloc, added(alloc, copy)?) {
        Ok(_) => Ok(true),
        Err(EventError::Fault(_)) => Ok(false),
        Err(EventError::OutOfMemory) => Err(AllocError),
    }
}

/// The first item of a List that is not read, with its place.
fn item_at_fault(alloc: Global, list: &Json) -> Result<String, AllocError> {
    for (at, item) in items_in(list, "items").iter().enumerate() {
        if !is_read(alloc, item)? {
            let label = label_of(alloc, item)?;
            return format!(in alloc; "items[{at}], {}", label.as_str());
        }
    }
    Ok(String::new(alloc))
}

fn part_of(alloc: Global, json: &Json) -> Result<String, AllocError> {
    match kind_of(json) {
        LineKind::ObjectList => item_at_fault(alloc, json),
        LineKind::WatchEvent => match json.get("object") {
            Some(object) => label_of(alloc, object),
            None => Ok(String::new(alloc)),
        },
        LineKind::Review | LineKind::Unknown => Ok(String::new(alloc)),
    }
}

/// The object at fault in a document that is refused: which item it is, its kind and its name; empty if none is.
pub fn part_at_fault(alloc: Global, bytes: &[u8]) -> Result<String, AllocError> {
    match document_of(alloc, bytes) {
        Ok(json) if is_alone(&json) => label_of(alloc, &json),
        Ok(json) => part_of(alloc, &json),
        Err(DocumentError::Fault(_)) => Ok(String::new(alloc)),
        Err(DocumentError::OutOfMemory) => Err(AllocError),
    }
}
