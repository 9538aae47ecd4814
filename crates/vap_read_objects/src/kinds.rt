//! From definitions to the kinds that they define.

ghost use Rattle.std.specs.Prelude.{◌≡◌, ◌++◌, codes, IfOk, OnOk, Result, Some};
ghost use Rattle.serde_json.specs.Find.{get};
ghost use Rattle.serde_json.specs.View.{view, items_view};
ghost use Rattle.base_containers.specs.Failures.{Answers};
ghost use Rattle.vap_match.specs.Parts.{lent};
ghost use Rattle.cel_value.specs.declared.cel_type.CelType.{CelType as TypeOf};
ghost use Rattle.vap_schema.specs.declared.schema_fault.SchemaFault.{SchemaFault as SchemaFaultOf};
ghost use Rattle.vap_read_objects.specs.Kinds.{accepted, kind_by, kind_of, kinds_by, kinds_in, own_kinds};
ghost use Rattle.vap_read_objects.specs.Kinds.{with_kind, with_kinds, with_spec, with_definitions, kinds_of};

use crate::definition::{is_formed, name_in, named_schema};
use crate::fixed_kinds::fixed_kinds;
use crate::kind::{Kind, has_named};
use crate::read_definition::ReadDefinition;
use base_containers::{Items, Keyed, Shared, Text};
use cel_value::CelType;
use serde_json::Value as Json;
use std::alloc::{AllocError, Global};
use vap_match::{items_in, text_in};
use vap_read::Object;
use vap_schema::{Schema, SchemaError};

/// The type that a schema gives, unless the schema was refused.
fn accepted(read: Result<Schema, SchemaError>) -> Result<Option<CelType>, AllocError>
    ensures { (want : Result TypeOf SchemaFaultOf) → Answers want read → IfOk result (λ t. t ≡ accepted want) }
{
    match &read {
        Ok(schema) => Ok(Some(schema.object_type().copy()?)),
        Err(SchemaError::Fault(_)) => Ok(None),
        Err(SchemaError::OutOfMemory) => Err(AllocError),
    }
}

fn kind_of(alloc: Global, spec: &Json, version: &Json, schema: &Json) -> Result<Kind, AllocError>
    ensures { IfOk result (λ kind. kind ≡ kind_of (view spec.now) (view version.now) (view schema.now)) }
{
    Ok(Kind {
        group: Text::from_str(alloc, text_in(spec, "group"))?,
        version: Text::from_str(alloc, text_in(version, "name"))?,
        kind: Text::from_str(alloc, name_in(spec, "kind"))?,
        plural: Text::from_str(alloc, name_in(spec, "plural"))?,
        namespaced: text_in(spec, "scope") == "Namespaced",
        object_type: accepted(Schema::from_json(alloc, schema))?,
    })
}

fn put_version(
    alloc: Global,
    spec: &Json,
    version: &Json,
    schema: Option<&Json>,
    kinds: &mut Vec<Kind>,
) -> Result<(), AllocError>
    ensures { OnOk result (kinds.new.items ≡ kinds.old.items ++ kind_by (view spec.now) (view version.now) (lent schema.entry)) }
{
    match schema {
        Some(schema) => {
            kinds.push(kind_of(alloc, spec, version, schema)?)?;
            Ok(())
        }
        None => Ok(()),
    }
}

fn put_versions(
    alloc: Global,
    spec: &Json,
    versions: &[Json],
    kinds: &mut Vec<Kind>,
) -> Result<(), AllocError>
    ensures { OnOk result (kinds.new.items ≡ kinds.old.items ++ kinds_by (view spec.now) (items_view versions.now)) }
{
    for version in versions {
        put_version(alloc, spec, version, named_schema(version), kinds)?;
    }
    Ok(())
}

fn put_formed(alloc: Global, spec: &Json, kinds: &mut Vec<Kind>) -> Result<(), AllocError>
    ensures { OnOk result (kinds.new.items ≡ kinds.old.items ++ own_kinds (Some (view spec.now))) }
{
    if is_formed(spec) {
        put_versions(alloc, spec, items_in(spec, "versions"), kinds)
    } else {
        Ok(())
    }
}

fn put_spec(alloc: Global, spec: Option<&Json>, kinds: &mut Vec<Kind>) -> Result<(), AllocError>
    ensures { OnOk result (kinds.new.items ≡ kinds.old.items ++ own_kinds (lent spec.entry)) }
{
    match spec {
        Some(spec) => put_formed(alloc, spec, kinds),
        None => Ok(()),
    }
}

/// The kinds that a definition defines by itself: each schema in it is read.
pub fn kinds_in(alloc: Global, definition: &Object) -> Result<Items<Kind>, AllocError>
    ensures { IfOk result (λ kinds. kinds ≡ kinds_in definition.now) }
{
    let mut kinds = Vec::new(alloc);
    put_spec(alloc, definition.document.json().get("spec"), &mut kinds)?;
    Ok(Items::from_vec(kinds))
}

/// Adds a kind, unless one of the kinds has its name.
#[tactic(auto, unfolding(crate::specs::Kinds::with_kind))]
fn add_kind(kind: &Kind, kinds: &mut Vec<Kind>) -> Result<(), AllocError>
    ensures { OnOk result (kinds.new.items ≡ with_kind kind.now kinds.old.items) }
{
    let group = kind.group.as_str();
    let version = kind.version.as_str();
    if has_named(kinds.as_slice(), group, version, kind.kind.as_str()) {
        return Ok(());
    }
    kinds.push(kind.copy()?)?;
    Ok(())
}

/// Adds the kinds that a definition defines by itself.
fn add_kinds(more: &[Kind], kinds: &mut Vec<Kind>) -> Result<(), AllocError>
    ensures { OnOk result (kinds.new.items ≡ with_kinds more.now kinds.old.items) }
{
    for kind in more {
        add_kind(kind, kinds)?;
    }
    Ok(())
}

/// Adds the kinds of a definition that is read.
#[tactic(auto, using(crate::proofs::OwnKinds::by_spec))]
fn add_definition(definition: &ReadDefinition, kinds: &mut Vec<Kind>) -> Result<(), AllocError>
    ensures { OnOk result (kinds.new.items ≡ with_spec (get (codes "spec") definition.now.document) kinds.old.items) }
{
    add_kinds(definition.kinds(), kinds)
}

fn add_definitions(
    definitions: &[Keyed<Shared<ReadDefinition>>],
    kinds: &mut Vec<Kind>,
) -> Result<(), AllocError>
    ensures { OnOk result (kinds.new.items ≡ with_definitions definitions.now kinds.old.items) }
{
    for definition in definitions {
        add_definition(definition.value.get(), kinds)?;
    }
    Ok(())
}

/// The kinds that definitions, in the order of their names, define, after those that are known without one: of two of one group,
/// version and name the first counts.
pub fn kinds_of(
    alloc: Global,
    definitions: &[Keyed<Shared<ReadDefinition>>],
) -> Result<Items<Kind>, AllocError>
    ensures { IfOk result (λ kinds. kinds ≡ kinds_of definitions.now) }
{
    let mut kinds = fixed_kinds(alloc)?;
    add_definitions(definitions, &mut kinds)?;
    Ok(Items::from_vec(kinds))
}
