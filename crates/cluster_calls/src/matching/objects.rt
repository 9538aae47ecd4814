//! What events leave, and what is read off it. A row is a JSON list of lines; a line that is refused, or for which there is no
//! room, is left out.

use crate::matching::events::push_key;
use crate::matching::read::sign;
use base_containers::{Keyed, Part, Shared, Text};
use calls_notation::{Asked, json, unknown};
use serde_json::Value as Json;
use std::alloc::{AllocError, Global};
use vap_match::Labels;
use vap_read::{Binding, Event, EventError, Key, Object, Policy};
use vap_read_objects::{
    Kind, Objects, all_miss_definitions, all_miss_kind, all_miss_namespaces, all_miss_rules,
    bindings_of, misses_key,
};

/// The answer to a call of objects.
pub fn answer(alloc: Global, asked: &Asked) -> Result<String, AllocError> {
    match asked.call {
        "listed" => listed(alloc, asked.input),
        "bound" => bound(alloc, asked.input),
        "kinds" => kinds(alloc, asked.input),
        "held" => held(alloc, asked.input),
        "missed" => missed(alloc, asked.input),
        "filled" => filled(alloc, asked.number(0) as usize, asked.input, asked.text(1)),
        "passed" => passed(alloc, asked.number(0)),
        _ => unknown(alloc),
    }
}

fn take_event(alloc: Global, objects: &mut Objects, event: &Event) -> Result<(), AllocError> {
    if objects.takes(event) {
        objects.apply(alloc, event)
    } else {
        Ok(())
    }
}

/// What a line leaves, if it is an event for which there is room.
pub fn take_line(alloc: Global, objects: &mut Objects, line: Json) -> Result<(), AllocError> {
    match Event::from_json(alloc, line) {
        Ok(event) => take_event(alloc, objects, &event),
        Err(EventError::Fault(_)) => Ok(()),
        Err(EventError::OutOfMemory) => Err(AllocError),
    }
}

fn take_lines(alloc: Global, objects: &mut Objects, lines: Json) -> Result<(), AllocError> {
    match lines {
        Json::Array(lines) => {
            let mut taken = Ok(());
            for line in lines {
                if taken.is_ok() {
                    taken = take_line(alloc, objects, line);
                }
            }
            taken
        }
        _ => Ok(()),
    }
}

/// The objects that lines leave.
pub fn after(alloc: Global, row: &str) -> Result<Objects, AllocError> {
    let mut objects = Objects::new(alloc);
    take_lines(alloc, &mut objects, json(alloc, row)?)?;
    Ok(objects)
}

fn push_policies(out: &mut String, policies: &[Keyed<Policy>]) -> Result<(), AllocError> {
    for policy in policies {
        write!(out, ", {}", policy.key.as_str())?;
    }
    Ok(())
}

fn push_bindings(out: &mut String, bindings: &[Keyed<Binding>]) -> Result<(), AllocError> {
    for binding in bindings {
        let policy = binding.value.spec.get().policy_name.as_str();
        write!(out, ", {} of {policy}", binding.key.as_str())?;
    }
    Ok(())
}

/// How many events there were, the policies by name, and the bindings by name.
fn listed(alloc: Global, row: &str) -> Result<String, AllocError> {
    let objects = after(alloc, row)?;
    let mut out = format!(in alloc; "{}", objects.events())?;
    let policies = objects.policies(alloc)?;
    push_policies(&mut out, policies.as_slice())?;
    let bindings = objects.bindings(alloc)?;
    push_bindings(&mut out, bindings.as_slice())?;
    Ok(out)
}

/// The bindings of the policy p.
fn bound(alloc: Global, row: &str) -> Result<String, AllocError> {
    let objects = after(alloc, row)?;
    let bindings = objects.bindings(alloc)?;
    let mut out = String::new(alloc);
    let bound = bindings_of(alloc, "p", bindings.as_slice())?;
    push_bindings(&mut out, bound.as_slice())?;
    Ok(out)
}

// ---- kinds

fn push_kind(out: &mut String, kind: &Kind) -> Result<(), AllocError> {
    let (group, version) = (kind.group.as_str(), kind.version.as_str());
    let (name, plural) = (kind.kind.as_str(), kind.plural.as_str());
    let scope = if kind.namespaced {
        "Namespaced"
    } else {
        "Cluster"
    };
    let known = if kind.object_type.is_some() {
        ""
    } else {
        " refused"
    };
    write!(out, "{group}/{version} {name} {plural} {scope}{known}; ")
}

fn push_kinds(out: &mut String, kinds: &[Kind]) -> Result<(), AllocError> {
    for kind in kinds {
        push_kind(out, kind)?;
    }
    Ok(())
}

/// The kinds that definitions define, after the two that need none.
fn kinds(alloc: Global, row: &str) -> Result<String, AllocError> {
    let objects = after(alloc, row)?;
    let kinds = objects.kinds(alloc)?;
    let mut out = String::new(alloc);
    match kinds.as_slice() {
        [_, _, more @ ..] => push_kinds(&mut out, more)?,
        _ => out.push_str("too few")?,
    }
    Ok(out)
}

// ---- objects of a kind, and labels

fn push_keys(out: &mut String, objects: &[Shared<Object>]) -> Result<(), AllocError> {
    for object in objects {
        push_key(out, &object.get().key)?;
        out.push_str("; ")?;
    }
    Ok(())
}

fn push_named(out: &mut String, labels: &[(&str, Part<'_, '_>)]) -> Result<(), AllocError> {
    for label in labels {
        write!(out, "{}={},", label.0, label.1.as_str().unwrap_or("?"))?;
    }
    Ok(())
}

fn push_labels(out: &mut String, alloc: Global, labels: &Labels<'_, '_>) -> Result<(), AllocError> {
    match &labels.found {
        Some(found) => match found.members(alloc)? {
            Some(labels) => push_named(out, labels.as_slice()),
            None => out.push_str("no object"),
        },
        None => out.push_str("none"),
    }
}

/// The ConfigMaps, and the labels of the Namespace d.
fn push_held(out: &mut String, alloc: Global, objects: &Objects) -> Result<(), AllocError> {
    push_keys(out, objects.of_kind(alloc, "v1", "ConfigMap")?.as_slice())?;
    push_labels(out, alloc, &objects.namespace_labels(alloc, "d")?)
}

/// The ConfigMaps, and the labels of the Namespace d, after the lines of a row.
fn held(alloc: Global, row: &str) -> Result<String, AllocError> {
    let mut out = String::new(alloc);
    push_held(&mut out, alloc, &after(alloc, row)?)?;
    Ok(out)
}

// ---- what events do not touch

/// Puts the event of a line after others.
fn push_read(alloc: Global, events: &mut Vec<Event>, line: Json) -> Result<(), AllocError> {
    match Event::from_json(alloc, line) {
        Ok(event) => {
            events.push(event)?;
            Ok(())
        }
        Err(EventError::Fault(_)) => Ok(()),
        Err(EventError::OutOfMemory) => Err(AllocError),
    }
}

fn events_in(alloc: Global, lines: Json) -> Result<Vec<Event>, AllocError> {
    let mut events = Vec::new(alloc);
    if let Json::Array(lines) = lines {
        let mut read = Ok(());
        for line in lines {
            if read.is_ok() {
                read = push_read(alloc, &mut events, line);
            }
        }
        read?;
    }
    Ok(events)
}

/// The key of the Namespace d.
fn key_of_namespace(alloc: Global) -> Result<Key, AllocError> {
    Ok(Key {
        api_version: Text::from_str(alloc, "v1")?,
        kind: Text::from_str(alloc, "Namespace")?,
        namespace: Text::from_str(alloc, "")?,
        name: Text::from_str(alloc, "d")?,
    })
}

/// Which of these no event of a row touches: policies, bindings and definitions; definitions alone; Namespaces; the Namespace d;
/// ConfigMaps.
fn missed(alloc: Global, row: &str) -> Result<String, AllocError> {
    let read = events_in(alloc, json(alloc, row)?)?;
    let events = read.as_slice();
    let mut out = String::new(alloc);
    out.push_str(sign(all_miss_rules(events)))?;
    out.push_str(sign(all_miss_definitions(events)))?;
    out.push_str(sign(all_miss_namespaces(events)))?;
    out.push_str(sign(misses_key(events, &key_of_namespace(alloc)?)))?;
    out.push_str(sign(all_miss_kind(events, "v1", "ConfigMap")))?;
    Ok(out)
}

// ---- limits

/// Writes objects of each number from 1 on, each after a comma.
fn push_items(
    out: &mut String,
    count: usize,
    before: &str,
    behind: &str,
) -> Result<(), AllocError> {
    for number in 1..count {
        write!(out, ",{before}{number}{behind}")?;
    }
    Ok(())
}

/// A List of so many objects that have these parts round the numbers in their names.
fn list_of(alloc: Global, count: usize, before: &str, behind: &str) -> Result<String, AllocError> {
    let mut out = format!(in alloc;
        r#"{{"apiVersion":"v1","kind":"List","items":[{before}0{behind}"#
    )?;
    push_items(&mut out, count, before, behind)?;
    out.push_str("]}")?;
    Ok(out)
}

/// A line that puts the object of a number.
fn put_of(alloc: Global, number: usize, before: &str, behind: &str) -> Result<String, AllocError> {
    format!(in alloc; r#"{{"type":"ADDED","object":{before}{number}{behind}}}"#)
}

/// How many events are taken once a List of so many objects came, once the first of them is put again, and once one more is.
fn filled(alloc: Global, count: usize, before: &str, behind: &str) -> Result<String, AllocError> {
    let mut objects = Objects::new(alloc);
    let list = list_of(alloc, count, before, behind)?;
    take_line(alloc, &mut objects, json(alloc, list.as_str())?)?;
    let listed = objects.events();
    let first = put_of(alloc, 0, before, behind)?;
    take_line(alloc, &mut objects, json(alloc, first.as_str())?)?;
    let again = objects.events();
    let more = put_of(alloc, count, before, behind)?;
    take_line(alloc, &mut objects, json(alloc, more.as_str())?)?;
    format!(in alloc; "{listed} {again} {}", objects.events())
}

/// How many are taken of so many events that change nothing.
fn passed(alloc: Global, count: u64) -> Result<String, AllocError> {
    let mut objects = Objects::new(alloc);
    for _ in 0..count {
        take_event(alloc, &mut objects, &Event::Passed)?;
    }
    format!(in alloc; "{}", objects.events())
}
