//! Which documents are objects, and under which keys.

ghost use Rattle.std.specs.Prelude.{◌≡◌, IfOk, Result, codes, is_ok};
ghost use Rattle.serde_json.specs.Find.{get};
ghost use Rattle.serde_json.specs.View.{view};
ghost use Rattle.base_containers.specs.Failures.{Answers};
ghost use Rattle.vap_match.specs.Forms.{there_and};
ghost use Rattle.cel_value.specs.declared.value.Value.{Value as ValueOf};
ghost use Rattle.vap_schema.specs.declared.fit_fault.FitFault.{FitFault as FitFaultOf};
ghost use Rattle.vap_schema.specs.FixedTypes.{metadata_type};
ghost use Rattle.vap_read.specs.Objects.{is_metadata, is_object, key_of, text_under};

use crate::key::Key;
use base_containers::{Part, Text};
use cel_value::{CelType, Value};
use serde_json::Value as Json;
use std::alloc::{AllocError, Global};
use vap_match::{has_text, text_in};
use vap_schema::{FitError, fit};

/// Whether a document was of its type.
fn is_fitted(fitted: Result<Value, FitError>) -> Result<bool, AllocError>
    ensures { (want : Result ValueOf FitFaultOf) → Answers want fitted → IfOk result (λ truth. truth ≡ is_ok want) }
{
    match &fitted {
        Ok(_) => Ok(true),
        Err(FitError::Fault(_)) => Ok(false),
        Err(FitError::OutOfMemory) => Err(AllocError),
    }
}

fn is_metadata(alloc: Global, json: &Json, fixed: &CelType) -> Result<bool, AllocError>
    requires of_metadata { fixed.now ≡ metadata_type }
    ensures { IfOk result (λ truth. truth ≡ is_metadata (view json.now)) }
{
    if has_text(json, "name") {
        is_fitted(fit(alloc, &Part::of_tree(json), fixed, "metadata"))
    } else {
        Ok(false)
    }
}

fn has_metadata(alloc: Global, json: &Json, fixed: &CelType) -> Result<bool, AllocError>
    requires of_metadata { fixed.now ≡ metadata_type }
    ensures { IfOk result (λ truth. truth ≡ there_and is_metadata (get (codes "metadata") (view json.now))) }
{
    match json.get("metadata") {
        Some(found) => is_metadata(alloc, found, fixed),
        None => Ok(false),
    }
}

/// Whether a document is an object: it has a version, a kind, and metadata with a name.
pub fn is_object(alloc: Global, json: &Json, fixed: &CelType) -> Result<bool, AllocError>
    requires of_metadata { fixed.now ≡ metadata_type }
    ensures { IfOk result (λ truth. truth ≡ is_object (view json.now)) }
{
    if has_text(json, "apiVersion") && has_text(json, "kind") {
        has_metadata(alloc, json, fixed)
    } else {
        Ok(false)
    }
}

/// The text of a member of the metadata, empty if there is none.
fn text_under<'a>(json: &'a Json, name: &str) -> &'a str
    ensures { result.now ≡ text_under name.now (view json.now) }
{
    match json.get("metadata") {
        Some(found) => text_in(found, name),
        None => "",
    }
}

/// The key of an object.
pub fn key_of(alloc: Global, json: &Json) -> Result<Key, AllocError>
    ensures { IfOk result (λ key. key ≡ key_of (view json.now)) }
{
    Ok(Key {
        api_version: Text::from_str(alloc, text_in(json, "apiVersion"))?,
        kind: Text::from_str(alloc, text_in(json, "kind"))?,
        namespace: Text::from_str(alloc, text_under(json, "namespace"))?,
        name: Text::from_str(alloc, text_under(json, "name"))?,
    })
}
