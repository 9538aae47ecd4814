//! Events for one policy with one binding: what they do to other policies and bindings is left out.

use crate::pairs::BoundPair;
use base_containers::Shared;
use serde_json::{Map, Value as Json, push, put};
use std::alloc::{AllocError, Global};
use vap_read::{Content, Event, EventError, Key, Object, ObjectMap};
use vap_read_objects::{is_binding, is_policy};

/// Whether a policy or a binding is not of the pair.
fn is_other(key: &Key, pair: &BoundPair) -> bool {
    if is_policy(key) {
        key.name.as_str() != pair.policy.as_str()
    } else {
        is_binding(key) && key.name.as_str() != pair.binding.as_str()
    }
}

/// An object's document with this member in its `spec`.
fn with_member(alloc: Global, document: &Json, key: &str, value: Json) -> Result<Json, AllocError> {
    let mut document = document.clone()?;
    if let Some(Json::Object(spec)) = document.get_mut("spec") {
        put(spec, alloc, key, value)?;
    }
    Ok(document)
}

/// An object as it is read again from its document.
fn read_again(alloc: Global, document: Json) -> Result<Event, AllocError> {
    let mut line = Map::new(alloc);
    put(&mut line, alloc, "object", document)?;
    let word = String::from_str(alloc, "ADDED")?;
    put(&mut line, alloc, "type", Json::String(word))?;
    match Event::from_json(alloc, Json::Object(line)) {
        Ok(event) => Ok(event),
        Err(EventError::Fault(_)) => Ok(Event::Passed),
        Err(EventError::OutOfMemory) => Err(AllocError),
    }
}

/// A policy whose failures all count.
fn failing(alloc: Global, document: &Json) -> Result<Json, AllocError> {
    let word = String::from_str(alloc, "Fail")?;
    with_member(alloc, document, "failurePolicy", Json::String(word))
}

/// A binding that keeps all failures with the decision, and does nothing else.
fn auditing(alloc: Global, document: &Json) -> Result<Json, AllocError> {
    let word = String::from_str(alloc, "Audit")?;
    let mut words = Vec::new(alloc);
    push(&mut words, Json::String(word))?;
    with_member(alloc, document, "validationActions", Json::Array(words))
}

fn put_event(alloc: Global, object: &Shared<Object>) -> Result<Event, AllocError> {
    let document = object.get().document.json();
    match &object.get().content {
        Content::Policy(_) => read_again(alloc, failing(alloc, document)?),
        Content::Binding(_) => read_again(alloc, auditing(alloc, document)?),
        Content::Other => Ok(Event::Put(object.share()?)),
    }
}

fn put_narrowed(
    alloc: Global,
    object: &Shared<Object>,
    pair: &BoundPair,
    objects: &mut ObjectMap,
) -> Result<(), AllocError> {
    if is_other(&object.get().key, pair) {
        return Ok(());
    }
    match put_event(alloc, object)? {
        Event::Put(object) => objects.put(object),
        _ => Ok(()),
    }
}

fn narrowed_objects(
    alloc: Global,
    objects: &ObjectMap,
    pair: &BoundPair,
) -> Result<ObjectMap, AllocError> {
    let mut kept = ObjectMap::new(alloc);
    for (_, object) in objects.iter() {
        put_narrowed(alloc, object, pair, &mut kept)?;
    }
    Ok(kept)
}

/// What an event does for a pair.
pub fn narrowed(alloc: Global, event: &Event, pair: &BoundPair) -> Result<Event, AllocError> {
    match event {
        Event::Put(object) if is_other(&object.get().key, pair) => Ok(Event::Passed),
        Event::Put(object) => put_event(alloc, object),
        Event::Removed(key) if is_other(key.get(), pair) => Ok(Event::Passed),
        Event::Removed(_) | Event::Passed => event.copy(),
        Event::Replaced(objects) => {
            let kept = narrowed_objects(alloc, objects.get(), pair)?;
            Ok(Event::Replaced(Shared::new(alloc, kept)?))
        }
    }
}
