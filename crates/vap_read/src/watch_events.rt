//! From a line's document to its event.

ghost use Rattle.std.specs.Prelude.{◌≡◌, List, Result, Some};
ghost use Rattle.serde_json.specs.View.{view, items_view};
ghost use Rattle.base_containers.specs.Failures.{Answers, made};
ghost use Rattle.vap_read.specs.declared.policy_fault.PolicyFault.{PolicyFault as PolicyFaultOf};
ghost use Rattle.vap_schema.specs.FixedTypes.{metadata_type};
ghost use Rattle.vap_read.specs.Objects.{key_of, member_in};
ghost use Rattle.vap_read.specs.Reading.{read_content, with_content, read_object, read_key, read_all};
ghost use Rattle.vap_read.specs.Reading.{read_line, read_list};
ghost use Rattle.vap_read.specs.declared.event.Event.TheVariants.{Put, Removed, Replaced};
ghost use Rattle.vap_read.specs.declared.event_fault.EventFault.{EventFault as EventFaultOf};
ghost use Rattle.vap_read.specs.declared.line.LineKind.TheVariants.{WatchEvent};
ghost use Rattle.vap_read.specs.declared.key.Key.{Key as KeyOf};
ghost use Rattle.vap_read.specs.declared.object.Content.{Content as ContentOf};
ghost use Rattle.vap_read.specs.declared.object.Object.{Object as ObjectOf};

use crate::binding::Binding;
use crate::document::Document;
use crate::event::Event;
use crate::event_fault::{EventError, EventFault};
use crate::key::Key;
use crate::line::{Action, action_in, is_of};
use crate::object::{Content, Object};
use crate::object_form::{is_object, key_of};
use crate::object_map::ObjectMap;
use crate::policy::Policy;
use crate::policy_fault::PolicyError;
use base_containers::{Part, Shared};
use cel_value::CelType;
use serde_json::Value as Json;
use std::alloc::Global;
use std::mem;

/// The version of policies and bindings.
const POLICY_VERSION: &str = "admissionregistration.k8s.io/v1";

/// What is under a member, null if nothing is.
pub fn taken(line: Json, name: &str) -> Json
    ensures { view result ≡ member_in name.now (view line) }
{
    let mut line = line;
    match line.get_mut(name) {
        Some(found) => mem::replace(found, Json::Null),
        None => Json::Null,
    }
}

/// The event that the line of a watch event is.
pub fn watched(alloc: Global, line: Json, fixed: &CelType) -> Result<Event, EventError>
    requires of_metadata { fixed.now ≡ metadata_type }
    ensures { Answers (read_line WatchEvent (view line)) result }
{
    match action_in(&line) {
        Some(Action::Put) => put(alloc, taken(line, "object"), fixed),
        Some(Action::Remove) => removed(alloc, taken(line, "object"), fixed),
        Some(Action::Pass) => Ok(Event::Passed),
        None => Err(EventError::Fault(EventFault::BadType)),
    }
}

fn put(alloc: Global, json: Json, fixed: &CelType) -> Result<Event, EventError>
    requires of_metadata { fixed.now ≡ metadata_type }
    ensures { Answers (made Put (read_object (view json))) result }
{
    Ok(Event::Put(object_of(alloc, json, fixed)?))
}

fn removed(alloc: Global, json: Json, fixed: &CelType) -> Result<Event, EventError>
    requires of_metadata { fixed.now ≡ metadata_type }
    ensures { Answers (made Removed (read_key (view json))) result }
{
    let removed = Shared::new(alloc, read_key(alloc, &json, fixed)?)?;
    Ok(Event::Removed(removed))
}

/// The event that a List is, from what is under its items.
pub fn listed(alloc: Global, items: Json, fixed: &CelType) -> Result<Event, EventError>
    requires of_metadata { fixed.now ≡ metadata_type }
    ensures { Answers (read_list (view items)) result }
{
    match items {
        Json::Array(items) => replaced(alloc, objects_of(alloc, items, fixed)),
        _ => Err(EventError::Fault(EventFault::BadObject)),
    }
}

// Cut for the prover: it takes the result of a call, so that no list of objects is held across a `?` of its caller.
fn replaced(alloc: Global, objects: Result<ObjectMap, EventError>) -> Result<Event, EventError>
    ensures { (want : Result (List (KeyOf × ObjectOf)) EventFaultOf) → Answers want objects → Answers (made Replaced want) result }
{
    Ok(Event::Replaced(Shared::new(alloc, objects?)?))
}

#[tactic(auto, using(crate::proofs::ItemSteps::with_item, crate::proofs::ItemSteps::at_fault))]
fn objects_of(alloc: Global, items: Vec<Json>, fixed: &CelType) -> Result<ObjectMap, EventError>
    requires of_metadata { fixed.now ≡ metadata_type }
    ensures { Answers (read_all (items_view items.items)) result }
{
    let mut objects = ObjectMap::new(alloc);
    for item in items {
        objects.put(object_of(alloc, item, fixed)?)?;
    }
    Ok(objects)
}

fn read_key(alloc: Global, json: &Json, fixed: &CelType) -> Result<Key, EventError>
    requires of_metadata { fixed.now ≡ metadata_type }
    ensures { Answers (read_key (view json.now)) result }
{
    if is_object(alloc, json, fixed)? {
        Ok(key_of(alloc, json)?)
    } else {
        Err(EventError::Fault(EventFault::BadObject))
    }
}

fn content_of(alloc: Global, json: &Json) -> Result<Content, PolicyError>
    ensures { Answers (read_content (view json.now)) result }
{
    let document = Part::of_tree(json);
    if is_of(&document, POLICY_VERSION, "ValidatingAdmissionPolicy") {
        Ok(Content::Policy(Policy::from_json(alloc, json)?))
    } else if is_of(
        &document,
        POLICY_VERSION,
        "ValidatingAdmissionPolicyBinding",
    ) {
        Ok(Content::Binding(Binding::from_json(alloc, json)?))
    } else {
        Ok(Content::Other)
    }
}

fn object_of(alloc: Global, json: Json, fixed: &CelType) -> Result<Shared<Object>, EventError>
    requires of_metadata { fixed.now ≡ metadata_type }
    ensures { Answers (read_object (view json)) result }
{
    let key = read_key(alloc, &json, fixed)?;
    object_with(alloc, key, content_of(alloc, &json), json)
}

fn object_with(
    alloc: Global,
    key: Key,
    content: Result<Content, PolicyError>,
    json: Json,
) -> Result<Shared<Object>, EventError>
    ensures { key ≡ key_of (view json) → (want : Result ContentOf PolicyFaultOf) → Answers want content
        → Answers (with_content (view json) want) result }
{
    let content = match content {
        Ok(content) => content,
        Err(error) => return Err(error.widened()),
    };
    let object = Object {
        key,
        content,
        document: Document::new(json),
    };
    Ok(Shared::new(alloc, object)?)
}
