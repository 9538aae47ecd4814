//! The kinds that the paths of a document serve.

use base_containers::{Items, Text};
use serde_json::{Map, Value as Json};
use std::alloc::{AllocError, Global};
use vap_match::{has_text, text_in};

/// The member that names a kind.
pub const KIND_KEY: &str = "x-kubernetes-group-version-kind";

/// A kind, with the name of its resource.
#[derive(Drop)]
pub struct Resource {
    pub group: Text,
    pub version: Text,
    pub kind: Text,
    pub plural: Text,
    pub namespaced: bool,
}

/// What a path to one object by its name says.
#[derive(Clone, Copy)]
struct Place<'a> {
    plural: &'a str,
    namespaced: bool,
}

/// What a path says, if it leads to one object by its name, and does not watch it.
fn place_of(path: &str) -> Option<Place<'_>> {
    let front = path.strip_suffix("/{name}")?;
    let (before, plural) = front.rsplit_once('/')?;
    if before.contains("/watch/") || before.ends_with("/watch") {
        return None;
    }
    Some(Place {
        plural,
        namespaced: before.ends_with("/namespaces/{namespace}"),
    })
}

fn is_kind(json: &Json) -> bool {
    has_text(json, "group") && has_text(json, "version") && has_text(json, "kind")
}

fn kind_under<'a>(item: &'a Json, operation: &str) -> Option<&'a Json> {
    let found = item.get(operation)?.get(KIND_KEY)?;
    if is_kind(found) { Some(found) } else { None }
}

/// The kind of the objects that the operations of a path are on.
fn kind_in(item: &Json) -> Option<&Json> {
    for operation in ["get", "put", "patch", "delete"] {
        let found = kind_under(item, operation);
        if found.is_some() {
            return found;
        }
    }
    None
}

/// Whether a document names the kind of a resource.
pub fn is_of(json: &Json, resource: &Resource) -> bool {
    text_in(json, "group") == resource.group.as_str()
        && text_in(json, "version") == resource.version.as_str()
        && text_in(json, "kind") == resource.kind.as_str()
}

fn has_kind(resources: &[Resource], kind: &Json) -> bool {
    for resource in resources {
        if is_of(kind, resource) {
            return true;
        }
    }
    false
}

fn put_resource(
    alloc: Global,
    place: Place<'_>,
    kind: &Json,
    resources: &mut Items<Resource>,
) -> Result<(), AllocError> {
    if has_kind(resources.as_slice(), kind) {
        return Ok(());
    }
    let group = Text::from_str(alloc, text_in(kind, "group"))?;
    let version = Text::from_str(alloc, text_in(kind, "version"))?;
    let plural = Text::from_str(alloc, place.plural)?;
    let kind = Text::from_str(alloc, text_in(kind, "kind"))?;
    resources.push(Resource {
        group,
        version,
        kind,
        plural,
        namespaced: place.namespaced,
    })
}

/// The kinds whose objects are served by name, in the order of the paths.
pub fn resources_of(
    alloc: Global,
    paths: &Map<String, Json>,
) -> Result<Items<Resource>, AllocError> {
    let mut resources = Items::new(alloc);
    for (path, item) in paths.iter() {
        if let (Some(place), Some(kind)) = (place_of(path.as_str()), kind_in(item)) {
            put_resource(alloc, place, kind, &mut resources)?;
        }
    }
    Ok(resources)
}
