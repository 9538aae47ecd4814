//! Which events lines are, and of which kind lines are.

use crate::matching::read::agreed;
use base_containers::Part;
use calls_notation::{Asked, json, unknown};
use std::alloc::{AllocError, Global};
use vap_read::{Content, Event, EventError, Key, LineKind, Object, ObjectMap, line_kind};

/// The answer to a call of lines as events.
pub fn answer(alloc: Global, asked: &Asked) -> Result<String, AllocError> {
    match asked.call {
        "event" => event(alloc, asked.input),
        "read" => read(alloc, asked.input),
        "kind" => kind(alloc, asked.input),
        _ => unknown(alloc),
    }
}

/// Writes a key: version, kind, namespace and name.
pub fn push_key(out: &mut String, key: &Key) -> Result<(), AllocError> {
    let (version, kind) = (key.api_version.as_str(), key.kind.as_str());
    write!(
        out,
        "{version} {kind} {}/{}",
        key.namespace.as_str(),
        key.name.as_str()
    )
}

/// What an object was read as: a policy with its expressions, a binding with its policy's name.
fn push_content(out: &mut String, content: &Content) -> Result<(), AllocError> {
    match content {
        Content::Policy(policy) => {
            out.push_str(", policy")?;
            for validation in policy.spec.get().validations.as_slice() {
                write!(out, " {}", validation.expression.as_str())?;
            }
            Ok(())
        }
        Content::Binding(binding) => {
            write!(out, ", binding {}", binding.spec.get().policy_name.as_str())
        }
        Content::Other => out.push_str(", other"),
    }
}

/// An object's key, what it was read as, and its data.
fn push_object(out: &mut String, alloc: Global, object: &Object) -> Result<(), AllocError> {
    push_key(out, &object.key)?;
    push_content(out, &object.content)?;
    match object.document.json().get("data") {
        Some(data) => write!(out, ", {}", data.to_string(alloc)?.as_str()),
        None => Ok(()),
    }
}

fn push_objects(out: &mut String, alloc: Global, objects: &ObjectMap) -> Result<(), AllocError> {
    write!(out, "all {}", objects.len())?;
    for (_, object) in objects.iter() {
        out.push_str("; ")?;
        push_object(out, alloc, object.get())?;
    }
    Ok(())
}

fn push_event(out: &mut String, alloc: Global, event: &Event) -> Result<(), AllocError> {
    match event {
        Event::Put(object) => {
            out.push_str("put ")?;
            push_object(out, alloc, object.get())
        }
        Event::Removed(key) => {
            out.push_str("remove ")?;
            push_key(out, key.get())
        }
        Event::Passed => out.push_str("pass"),
        Event::Replaced(objects) => push_objects(out, alloc, objects.get()),
    }
}

fn shown(alloc: Global, event: &Event) -> Result<String, AllocError> {
    let mut out = String::new(alloc);
    push_event(&mut out, alloc, event)?;
    Ok(out)
}

fn shown_of(alloc: Global, event: Event) -> Result<String, AllocError> {
    shown(alloc, &event)
}

/// What an event and its copy do, if both do the same.
fn shown_twice(alloc: Global, event: &Event) -> Result<String, AllocError> {
    let copy = shown_of(alloc, event.copy()?)?;
    let first = shown(alloc, event)?;
    agreed(alloc, first.as_str(), copy.as_str())
}

/// The name of a fault of a line.
pub fn refusal(alloc: Global, error: EventError) -> Result<String, AllocError> {
    match error {
        EventError::Fault(fault) => String::from_str(alloc, fault.name()),
        EventError::OutOfMemory => Err(AllocError),
    }
}

/// What a line does, which a copy does too, or the line's fault.
fn event(alloc: Global, row: &str) -> Result<String, AllocError> {
    match Event::from_json(alloc, json(alloc, row)?) {
        Ok(event) => shown_twice(alloc, &event),
        Err(error) => refusal(alloc, error),
    }
}

/// Whether a line is an event, or its fault.
fn read(alloc: Global, row: &str) -> Result<String, AllocError> {
    match Event::from_json(alloc, json(alloc, row)?) {
        Ok(_) => String::from_str(alloc, "an event"),
        Err(error) => refusal(alloc, error),
    }
}

/// The name of the kind of a line.
fn kind(alloc: Global, row: &str) -> Result<String, AllocError> {
    let line = json(alloc, row)?;
    let name = match line_kind(&Part::of_tree(&line)) {
        LineKind::WatchEvent => "watch event",
        LineKind::ObjectList => "list",
        LineKind::Review => "review",
        LineKind::Unknown => "unknown",
    };
    String::from_str(alloc, name)
}
