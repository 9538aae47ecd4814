//! What a CustomResourceDefinition says.

ghost use Rattle.std.specs.Prelude.{◌≡◌, codes};
ghost use Rattle.serde_json.specs.Find.{get};
ghost use Rattle.serde_json.specs.View.{view, items_view};
ghost use Rattle.vap_match.specs.Forms.{there_and};
ghost use Rattle.vap_match.specs.Parts.{lent};
ghost use Rattle.vap_read_objects.specs.Definitions.{is_definition, versions_of, version_count, has_names, is_scope, is_formed, name_in};
ghost use Rattle.vap_read_objects.specs.Definitions.{schema_in, named_schema};

use serde_json::Value as Json;
use vap_match::{has_text, items_in, text_in};
use vap_read::Key;

/// Whether the object of a key is a definition.
pub fn is_definition(key: &Key) -> bool
    ensures { result ≡ is_definition key.now }
{
    key.api_version.as_str() == "apiextensions.k8s.io/v1"
        && key.kind.as_str() == "CustomResourceDefinition"
}

fn versions_of(json: &Json) -> &[Json]
    ensures { items_view result.now ≡ versions_of (view json.now) }
{
    match json.get("spec") {
        Some(spec) => items_in(spec, "versions"),
        None => &[],
    }
}

/// How many versions a definition has, whatever their form.
pub fn version_count(json: &Json) -> usize
    ensures { result ≡ version_count (view json.now) }
{
    versions_of(json).len()
}

fn has_both_names(json: &Json) -> bool
    ensures { result ≡ has_names (view json.now) }
{
    has_text(json, "kind") && has_text(json, "plural")
}

fn has_names(spec: &Json) -> bool
    ensures { result ≡ there_and has_names (get (codes "names") (view spec.now)) }
{
    match spec.get("names") {
        Some(names) => has_both_names(names),
        None => false,
    }
}

fn is_scope(word: &str) -> bool
    ensures { result ≡ is_scope word.now }
{
    word == "Namespaced" || word == "Cluster"
}

/// Whether what a definition says has all its members, apart from the versions.
pub fn is_formed(spec: &Json) -> bool
    ensures { result ≡ is_formed (view spec.now) }
{
    has_text(spec, "group") && has_names(spec) && is_scope(text_in(spec, "scope"))
}

/// A text among the names, empty if there is none.
pub fn name_in<'a>(spec: &'a Json, name: &str) -> &'a str
    ensures { result.now ≡ name_in name.now (view spec.now) }
{
    match spec.get("names") {
        Some(names) => text_in(names, name),
        None => "",
    }
}

fn schema_in(version: &Json) -> Option<&Json>
    ensures { lent result ≡ schema_in (view version.now) }
{
    match version.get("schema") {
        Some(schema) => schema.get("openAPIV3Schema"),
        None => None,
    }
}

/// The schema of a version that has a name.
pub fn named_schema(version: &Json) -> Option<&Json>
    ensures { lent result ≡ named_schema (view version.now) }
{
    if has_text(version, "name") {
        schema_in(version)
    } else {
        None
    }
}
