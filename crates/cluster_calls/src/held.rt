//! What the names of a policy's expressions hold at a request.

use crate::matching::take_line;
use base_containers::Part;
use calls_notation::{Asked, json, put, request_in, shown, shown_type, type_of, unknown};
use cel_value::{CelError, CelType, Value};
use json::Scratch;
use serde_json::Value as Json;
use std::alloc::{AllocError, Global};
use vap_match::{OpenRequest, Request, ReviewError};
use vap_policy_programs::{FixedTypes, Held, held_at, request_type, request_value};
use vap_read::Object;
use vap_read_objects::Objects;

/// The answer to a call of what is held.
pub fn answer(alloc: Global, asked: &Asked) -> Result<String, AllocError> {
    match asked.call {
        "type" => member_type(alloc, asked.input),
        "member" => member(alloc, asked.text(0), asked.input),
        "objects" => objects(alloc, asked.input),
        "namespace" => namespace(alloc, asked.text(0), asked.input),
        "request" => request(alloc, asked.text(0), asked.input),
        _ => unknown(alloc),
    }
}

// ---- the type of `request`

fn member_type_in(alloc: Global, cel_type: &CelType, name: &str) -> Result<String, AllocError> {
    match cel_type {
        CelType::Object { fields } => match fields.get().get(name) {
            Some(field) if field.required => shown_type(alloc, &field.cel_type),
            Some(_) => String::from_str(alloc, "may be absent"),
            None => String::from_str(alloc, "no member"),
        },
        _ => String::from_str(alloc, "no object"),
    }
}

/// The type of a member of `request`.
fn member_type(alloc: Global, name: &str) -> Result<String, AllocError> {
    let cel_type = request_type(alloc)?;
    member_type_in(alloc, &cel_type, name)
}

// ---- the value of `request`

/// What a review's request must have.
const NEEDED: [(&str, &str); 4] = [
    ("uid", "\"u\""),
    ("kind", "{}"),
    ("resource", "{}"),
    ("operation", "\"CREATE\""),
];

/// The text of a review whose request has these members, and those that it needs except the one of this name.
fn review_with(alloc: Global, name: &str, members: &str) -> Result<String, AllocError> {
    let mut text = String::from_str(alloc, "{\"request\":{\"options\":null")?;
    for (needed, least) in &NEEDED {
        if *needed != name {
            write!(text, ",\"{needed}\":{least}")?;
        }
    }
    write!(text, "{members}}}}}")?;
    Ok(text)
}

fn shown_member(alloc: Global, value: &Value, name: &str) -> Result<String, AllocError> {
    match value {
        Value::Object(entries) => match entries.get(name) {
            Some(value) => shown(alloc, value),
            None => String::from_str(alloc, "no member"),
        },
        _ => String::from_str(alloc, "no object"),
    }
}

fn shown_member_of(alloc: Global, request: &Request, name: &str) -> Result<String, AllocError> {
    let value = request_value(alloc, request)?;
    shown_member(alloc, &value, name)
}

/// What `request` holds under a name, if the review's request has these members, each after a comma.
fn member(alloc: Global, name: &str, members: &str) -> Result<String, AllocError> {
    let review = review_with(alloc, name, members)?;
    match request_in(alloc, review.as_str()) {
        Ok(request) => shown_member_of(alloc, &request, name),
        Err(ReviewError::Fault(fault)) => String::from_str(alloc, fault.name()),
        Err(ReviewError::OutOfMemory) => Err(AllocError),
    }
}

// ---- what all names hold

fn put_outcome(out: &mut String, outcome: &Result<Value, CelError>) -> Result<(), AllocError> {
    match outcome {
        Ok(value) => put(out, value),
        Err(error) => out.push_str(error.name()),
    }
}

fn shown_objects(alloc: Global, held: &Held) -> Result<String, AllocError> {
    let mut out = shown(alloc, &held.object)?;
    out.push_str("; ")?;
    put_outcome(&mut out, &held.old_object)?;
    Ok(out)
}

fn shown_namespace(alloc: Global, held: &Held) -> Result<String, AllocError> {
    shown(alloc, &held.namespace)
}

fn shown_request(alloc: Global, held: &Held, name: &str) -> Result<String, AllocError> {
    shown_member(alloc, &held.request, name)
}

/// Which name's content is asked.
#[derive(Clone, Copy)]
enum Slot<'a> {
    Objects,
    Namespace,
    Request(&'a str),
}

fn shown_slot(alloc: Global, held: &Held, slot: Slot<'_>) -> Result<String, AllocError> {
    match slot {
        Slot::Objects => shown_objects(alloc, held),
        Slot::Namespace => shown_namespace(alloc, held),
        Slot::Request(name) => shown_request(alloc, held, name),
    }
}

/// The Namespace of the name of a request's.
fn namespace_of<'a>(
    alloc: Global,
    objects: &'a Objects,
    request: &Request,
) -> Result<Option<&'a Object>, AllocError> {
    let name = request.admission().namespace.as_str();
    match objects.namespace(alloc, name)? {
        Some(object) => Ok(Some(object.get())),
        None => Ok(None),
    }
}

/// What a name holds at a request, or the fault of its object.
fn held(
    alloc: Global,
    objects: &Objects,
    cel_type: &CelType,
    request: &Request,
    slot: Slot<'_>,
) -> Result<String, AllocError> {
    let namespace = namespace_of(alloc, objects, request)?;
    let types = FixedTypes::new(alloc)?;
    let mut scratch = Scratch::new(alloc);
    let tape = request.admission().review.tape(alloc, &mut scratch)?;
    let open = OpenRequest::new(request, Part::new(tape.root()));
    match held_at(alloc, &types, namespace, cel_type, &open)? {
        Ok(held) => shown_slot(alloc, &held, slot),
        Err(fault) => format!(in alloc; "{}: {}", fault.path.as_str(), fault.kind.name()),
    }
}

/// The same of the request of a review.
fn held_of(
    alloc: Global,
    objects: &Objects,
    cel_type: &CelType,
    review: &str,
    slot: Slot<'_>,
) -> Result<String, AllocError> {
    match request_in(alloc, review) {
        Ok(request) => held(alloc, objects, cel_type, &request, slot),
        Err(ReviewError::Fault(fault)) => String::from_str(alloc, fault.name()),
        Err(ReviewError::OutOfMemory) => Err(AllocError),
    }
}

/// What a name holds at a request whose members are these, each after a comma, all of them except `uid`, `kind` and `resource`.
fn held_with(
    alloc: Global,
    objects: &Objects,
    cel_type: &CelType,
    members: &str,
    slot: Slot<'_>,
) -> Result<String, AllocError> {
    let review = review_with(alloc, "operation", members)?;
    held_of(alloc, objects, cel_type, review.as_str(), slot)
}

/// The type of the rows of objects: an integer that there is, and a text that may be absent.
const SPEC: &str = r#"{"n":"int","t?":2}"#;

/// What `object` and `oldObject` hold at that type.
fn objects(alloc: Global, members: &str) -> Result<String, AllocError> {
    let cel_type = type_of(alloc, &json(alloc, SPEC)?)?;
    let none = Objects::new(alloc);
    held_with(alloc, &none, &cel_type, members, Slot::Objects)
}

/// What `namespaceObject` holds if there are the objects of a List, and the objects are of an unknown kind.
fn namespace(alloc: Global, list: &str, members: &str) -> Result<String, AllocError> {
    let mut objects = Objects::new(alloc);
    take_line(alloc, &mut objects, json(alloc, list)?)?;
    let review = review_with(alloc, "resource", members)?;
    held_of(
        alloc,
        &objects,
        &CelType::Opaque,
        review.as_str(),
        Slot::Namespace,
    )
}

/// What `request` holds under a name at a request whose members are these, each after a comma.
fn request(alloc: Global, name: &str, members: &str) -> Result<String, AllocError> {
    let none = Objects::new(alloc);
    held_with(alloc, &none, &CelType::Opaque, members, Slot::Request(name))
}
