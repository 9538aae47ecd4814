//! The events that define kinds.

use crate::expansion::{Source, root_schema};
use crate::keywords::{open_object, put_text};
use crate::kinds_fault::{KindsError, KindsFault};
use crate::resources::{KIND_KEY, Resource, is_of};
use base_containers::{LONGEST_LINE, Text};
use serde_json::{Map, Value as Json, push, put};
use std::alloc::{AllocError, Global};
use vap_match::items_in;

fn has_kind(schema: &Json, resource: &Resource) -> bool {
    for kind in items_in(schema, KIND_KEY) {
        if is_of(kind, resource) {
            return true;
        }
    }
    false
}

/// The schema of a kind among those of a document, with its name there.
fn schema_of<'a>(source: Source<'a>, resource: &Resource) -> Option<(&'a str, &'a Json)> {
    for (name, schema) in source.schemas.iter() {
        if has_kind(schema, resource) {
            return Some((name.as_str(), schema));
        }
    }
    None
}

/// How a kind is called in a fault.
fn kind_name(alloc: Global, resource: &Resource) -> Result<Text, AllocError> {
    let (group, version) = (resource.group.as_str(), resource.version.as_str());
    let kind = resource.kind.as_str();
    Ok(Text::from_string(if group.is_empty() {
        format!(in alloc; "{version} {kind}")?
    } else {
        format!(in alloc; "{group}/{version} {kind}")?
    }))
}

/// The name of a definition. It has the version, so that there can be definitions of several documents at the same time.
fn definition_name(alloc: Global, resource: &Resource) -> Result<String, AllocError> {
    let (plural, version) = (resource.plural.as_str(), resource.version.as_str());
    let group = resource.group.as_str();
    if group.is_empty() {
        format!(in alloc; "{plural}.{version}")
    } else {
        format!(in alloc; "{plural}.{version}.{group}")
    }
}

/// An object with one member.
fn single(alloc: Global, key: &str, value: Json) -> Result<Json, AllocError> {
    let mut members = Map::new(alloc);
    put(&mut members, alloc, key, value)?;
    Ok(Json::Object(members))
}

fn names_of(alloc: Global, resource: &Resource) -> Result<Json, AllocError> {
    let mut names = Map::new(alloc);
    put_text(&mut names, alloc, "kind", resource.kind.as_str())?;
    put_text(&mut names, alloc, "plural", resource.plural.as_str())?;
    Ok(Json::Object(names))
}

fn versions_of(alloc: Global, resource: &Resource, schema: Json) -> Result<Json, AllocError> {
    let schema = single(alloc, "openAPIV3Schema", schema)?;
    let mut version = Map::new(alloc);
    put(&mut version, alloc, "schema", schema)?;
    put_text(&mut version, alloc, "name", resource.version.as_str())?;
    let mut versions = Vec::new(alloc);
    push(&mut versions, Json::Object(version))?;
    Ok(Json::Array(versions))
}

fn spec_of(alloc: Global, resource: &Resource, schema: Json) -> Result<Json, AllocError> {
    let versions = versions_of(alloc, resource, schema)?;
    let scope = if resource.namespaced {
        "Namespaced"
    } else {
        "Cluster"
    };
    let mut spec = Map::new(alloc);
    put(&mut spec, alloc, "versions", versions)?;
    put(&mut spec, alloc, "names", names_of(alloc, resource)?)?;
    put_text(&mut spec, alloc, "group", resource.group.as_str())?;
    put_text(&mut spec, alloc, "scope", scope)?;
    Ok(Json::Object(spec))
}

fn definition_of(alloc: Global, resource: &Resource, schema: Json) -> Result<Json, AllocError> {
    let spec = spec_of(alloc, resource, schema)?;
    let name = definition_name(alloc, resource)?;
    let metadata = single(alloc, "name", Json::String(name))?;
    let mut definition = Map::new(alloc);
    put(&mut definition, alloc, "spec", spec)?;
    put(&mut definition, alloc, "metadata", metadata)?;
    put_text(
        &mut definition,
        alloc,
        "apiVersion",
        "apiextensions.k8s.io/v1",
    )?;
    put_text(&mut definition, alloc, "kind", "CustomResourceDefinition")?;
    Ok(Json::Object(definition))
}

/// The line of the event that adds the definition of a kind with a schema, without its line feed.
fn line_with(alloc: Global, resource: &Resource, schema: Json) -> Result<String, AllocError> {
    let definition = definition_of(alloc, resource, schema)?;
    let mut event = Map::new(alloc);
    put(&mut event, alloc, "object", definition)?;
    put_text(&mut event, alloc, "type", "ADDED")?;
    Json::Object(event).to_string(alloc)
}

/// The line of the event that adds the definition of a kind. A kind whose schema is too long for a line is left open.
pub fn line_of(source: Source<'_>, resource: &Resource) -> Result<String, KindsError> {
    let alloc = source.alloc;
    let Some((name, schema)) = schema_of(source, resource) else {
        let kind = kind_name(alloc, resource)?;
        return Err(KindsError::Fault(KindsFault::NoSchema { kind }));
    };
    let schema = root_schema(source, name, schema)?;
    let line = line_with(alloc, resource, schema)?;
    if line.len() <= LONGEST_LINE {
        return Ok(line);
    }
    Ok(line_with(alloc, resource, open_object(alloc)?)?)
}
