//! Which selectors, rules, policies, bindings, documents, objects, events and types are the same.

use base_containers::{Same, Text};
use calls_notation::{Asked, typed, unknown};
use serde_json::Value as Json;
use std::alloc::{AllocError, Global};
use vap_match::{Rules, Selector, text_in};
use vap_read::{Binding, Content, Document, Event, EventError, Key, Object, Policy, PolicyError};

/// The answer to a call of what is the same.
pub fn answer(alloc: Global, asked: &Asked) -> Result<String, AllocError> {
    let read = read_as(asked.text(0));
    match asked.call {
        "both" => both(alloc, read, asked.input),
        "changed" => changed(alloc, read, asked.text(1), asked.input),
        "copied" => copied(alloc, asked.input),
        _ => unknown(alloc),
    }
}

/// What a text is read as.
#[derive(Clone, Copy)]
enum Read {
    Selector,
    Rules,
    Policy,
    Binding,
    Document,
    /// An object of two texts: its key with what it was read as, and after a semicolon its document.
    Object,
    Event,
    Type,
}

fn read_as(word: &str) -> Read {
    match word {
        "selector" => Read::Selector,
        "rules" => Read::Rules,
        "policy" => Read::Policy,
        "binding" => Read::Binding,
        "object" => Read::Object,
        "event" => Read::Event,
        "type" => Read::Type,
        _ => Read::Document,
    }
}

/// A JSON text's value, null if it is none.
fn json(alloc: Global, text: &str) -> Json {
    match Json::from_str(alloc, text) {
        Ok(json) => json,
        Err(_) => Json::Null,
    }
}

fn word<T: Same>(left: &T, right: &T) -> &'static str {
    if !left.same(left) || !right.same(right) {
        "not the same as itself"
    } else if left.same(right) != right.same(left) {
        "the same on one side"
    } else if left.same(right) {
        "same"
    } else {
        "different"
    }
}

fn told<T: Same + Drop, E: Drop>(left: Result<T, E>, right: Result<T, E>) -> &'static str {
    match (&left, &right) {
        (Ok(left), Ok(right)) => word(left, right),
        _ => "not read",
    }
}

fn document(alloc: Global, text: &str) -> Result<Document, AllocError> {
    Ok(Document::new(json(alloc, text)))
}

fn key(alloc: Global, json: &Json) -> Result<Key, AllocError> {
    Ok(Key {
        api_version: Text::from_str(alloc, text_in(json, "apiVersion"))?,
        kind: Text::from_str(alloc, text_in(json, "kind"))?,
        namespace: Text::from_str(alloc, text_in(json, "namespace"))?,
        name: Text::from_str(alloc, text_in(json, "name"))?,
    })
}

fn content(alloc: Global, json: &Json) -> Result<Content, PolicyError> {
    match (json.get("policy"), json.get("binding")) {
        (Some(found), _) => Ok(Content::Policy(Policy::from_json(alloc, found)?)),
        (None, Some(found)) => Ok(Content::Binding(Binding::from_json(alloc, found)?)),
        _ => Ok(Content::Other),
    }
}

fn object_of(
    key: Result<Key, AllocError>,
    content: Result<Content, PolicyError>,
    document: Document,
) -> Option<Object> {
    match (key, content) {
        (Ok(key), Ok(content)) => Some(Object {
            key,
            content,
            document,
        }),
        _ => None,
    }
}

fn object(alloc: Global, text: &str) -> Option<Object> {
    let (about, document) = text.split_once(" ; ")?;
    let about = json(alloc, about);
    object_of(
        key(alloc, &about),
        content(alloc, &about),
        Document::new(json(alloc, document)),
    )
}

fn event(alloc: Global, text: &str) -> Result<Event, EventError> {
    Event::from_json(alloc, json(alloc, text))
}

fn word_of(alloc: Global, read: Read, left: &str, right: &str) -> &'static str {
    match read {
        Read::Selector => told(
            Selector::from_json(alloc, &json(alloc, left)),
            Selector::from_json(alloc, &json(alloc, right)),
        ),
        Read::Rules => told(
            Rules::from_json(alloc, &json(alloc, left)),
            Rules::from_json(alloc, &json(alloc, right)),
        ),
        Read::Policy => told(
            Policy::from_json(alloc, &json(alloc, left)),
            Policy::from_json(alloc, &json(alloc, right)),
        ),
        Read::Binding => told(
            Binding::from_json(alloc, &json(alloc, left)),
            Binding::from_json(alloc, &json(alloc, right)),
        ),
        Read::Document => told(document(alloc, left), document(alloc, right)),
        Read::Object => told(
            object(alloc, left).ok_or(AllocError),
            object(alloc, right).ok_or(AllocError),
        ),
        Read::Event => told(event(alloc, left), event(alloc, right)),
        Read::Type => told(typed(alloc, left), typed(alloc, right)),
    }
}

/// Whether the texts before and after a bar are the same.
fn both(alloc: Global, read: Read, row: &str) -> Result<String, AllocError> {
    match row.split_once(" | ") {
        Some((left, right)) => String::from_str(alloc, word_of(alloc, read, left, right)),
        None => String::from_str(alloc, "no two texts"),
    }
}

/// The text with what is after an arrow in place of what is before it.
fn with_change(alloc: Global, text: &str, change: &str) -> Result<String, AllocError> {
    let (old, new) = change.split_once(" -> ").unwrap_or((change, change));
    match text.split_once(old) {
        Some((before, behind)) => format!(in alloc; "{before}{new}{behind}"),
        None => Ok(String::new(alloc)),
    }
}

/// Whether a text is the same with a change.
fn changed(alloc: Global, read: Read, text: &str, change: &str) -> Result<String, AllocError> {
    let other = with_change(alloc, text, change)?;
    if other.is_empty() {
        String::from_str(alloc, "nothing to change")
    } else {
        String::from_str(alloc, word_of(alloc, read, text, other.as_str()))
    }
}

fn copy_word(event: &Event, copy: Result<Event, AllocError>) -> &'static str {
    match &copy {
        Ok(copy) => word(event, copy),
        Err(AllocError) => "not copied",
    }
}

/// Whether the event of a line and its copy are the same.
fn copied(alloc: Global, row: &str) -> Result<String, AllocError> {
    match &event(alloc, row) {
        Ok(event) => String::from_str(alloc, copy_word(event, event.copy())),
        Err(_) => String::from_str(alloc, "not read"),
    }
}
