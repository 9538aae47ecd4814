//! From a schema to the type of what it describes.

ghost use Rattle.std.specs.Prelude.{◌≡◌, IfOk, Ok};
ghost use Rattle.cel_value.specs.declared.cel_type.CelType as T;
ghost use Rattle.serde_json.specs.View.{view, items_view, members_view};
ghost use Rattle.base_containers.specs.Failures.{Answers};
ghost use Rattle.vap_schema.specs.Seen.{Carries};
ghost use Rattle.vap_schema.specs.Forms.{form_in};
ghost use Rattle.vap_schema.specs.Schemas.{schema_type, form_type, or_null, entry_type, record_type};
ghost use Rattle.vap_schema.specs.Schemas.{fields_of, object_type_of, is_named, IsInTextOrder};

use crate::fixed_types::with_fixed_fields;
use crate::form::{Form, nested_form, root_form};
use crate::keywords::{in_text_order, is_named};
use crate::schema_fault::{SchemaError, SchemaFault};
use base_containers::{Keyed, Shared, Text, TextMap};
use cel_value::{CelType, Field};
use serde_json::{Map, Value as Json};
use std::alloc::{AllocError, Global};
use std::marker::Model;

/// The schema of a kind, which contracts see as the type of the kind's objects.
#[derive(Drop)]
pub struct Schema {
    object_type: CelType,
}

impl Model for Schema {
    ghost use Rattle.std.specs.Coded.{codes};
    ghost use Rattle.cel_value.specs.contracts.cel_type.CelType as cel_type;
    ghost use Rattle.cel_value.specs.declared.cel_type.CelType.{CelType};

    ghost Value = { CelType };

    ghost coded = { Prim.hlevel (codes, cel_type.the_row.coded) };

    ghost view = { λ s. s.object_type };
}

impl Schema {
    /// The schema of a kind, or its first fault: of a schema before those inside it, these in document order.
    pub fn from_json(alloc: Global, json: &Json) -> Result<Schema, SchemaError>
        ensures { Answers (object_type_of (view json.now)) result }
    {
        let form = root_form(json)?;
        let object_type = read_form(99, alloc, form)?;
        Ok(Schema {
            object_type: with_fixed_fields(alloc, object_type)?,
        })
    }

    /// The type of the kind's objects.
    pub fn object_type(&self) -> &CelType
        ensures { result.now ≡ self.now }
    {
        &self.object_type
    }
}

/// The type of a schema that is no root, if at most `levels` schemas may be inside each other.
#[cycle(read_schema)]
fn read_schema(levels: u32, alloc: Global, schema: &Json) -> Result<CelType, SchemaError>
    ensures { Answers (schema_type levels (view schema.now)) result }
{
    if levels == 0 {
        return Err(SchemaError::Fault(SchemaFault::TooDeep));
    }
    let (nullable, form) = nested_form(schema)?;
    nullable_type(alloc, nullable, read_form(levels - 1, alloc, form))
}

/// The type of a form, if at most `levels` schemas may be inside each other in it.
#[cycle(read_schema)]
fn read_form(levels: u32, alloc: Global, form: Form<'_>) -> Result<CelType, SchemaError>
    ensures { Answers (form_type (schema_type levels) (form_in form.entry)) result }
{
    match form {
        Form::Opaque => Ok(CelType::Opaque),
        Form::Bool => Ok(CelType::Bool),
        Form::Int => Ok(CelType::Int),
        Form::Timestamp => Ok(CelType::Timestamp),
        Form::Duration => Ok(CelType::Duration),
        Form::Text { max } => Ok(CelType::Text { max }),
        Form::List { max, plain, items } => {
            list_of(alloc, max, plain, read_schema(levels, alloc, items))
        }
        Form::Map { max, entry } => map_of(alloc, max, read_entry(levels, alloc, entry)),
        Form::Record {
            required,
            properties,
        } => read_record(levels, alloc, required, properties),
        Form::Bare => object_of(alloc, Ok(TextMap::new(alloc))),
    }
}

/// What is under each name of a map: anything, or what a schema gives.
#[cycle(read_schema)]
fn read_entry(levels: u32, alloc: Global, entry: &Json) -> Result<CelType, SchemaError>
    ensures { Answers (entry_type (schema_type levels) (view entry.now)) result }
{
    match entry {
        Json::Bool(_) => Ok(CelType::Opaque),
        _ => read_schema(levels, alloc, entry),
    }
}

/// An object of the fields that its properties name.
#[cycle(read_schema)]
fn read_record(
    levels: u32,
    alloc: Global,
    required: &[Json],
    properties: &Map<String, Json>,
) -> Result<CelType, SchemaError>
    ensures { Answers (record_type (schema_type levels) (items_view required.now) (members_view properties.now.entries)) result }
{
    let required = in_text_order(alloc, required)?;
    object_of(
        alloc,
        read_fields(levels, alloc, required.as_slice(), properties),
    )
}

#[cycle(read_schema)]
fn read_fields(
    levels: u32,
    alloc: Global,
    required: &[&str],
    properties: &Map<String, Json>,
) -> Result<TextMap<Field<CelType>>, SchemaError>
    requires { IsInTextOrder required.now }
    ensures { Answers (fields_of (schema_type levels) (λ k. is_named k required.now) (members_view properties.now.entries)) result }
{
    let mut fields = Vec::with_capacity(alloc, properties.len())?;
    for (name, schema) in properties.iter() {
        let name = name.as_str();
        let is_required = is_named(required, name);
        let cel_type = read_schema(levels, alloc, schema);
        fields.push(field_of(alloc, is_required, name, cel_type)?)?;
    }
    Ok(TextMap::from_vec(fields))
}

fn field_of(
    alloc: Global,
    required: bool,
    name: &str,
    cel_type: Result<CelType, SchemaError>,
) -> Result<Keyed<Field<CelType>>, SchemaError>
    ensures { Carries cel_type result (λ t. Ok (record { key = name.now; value = record { required = required; cel_type = t } })) }
{
    let cel_type = cel_type?;
    let key = Text::from_str(alloc, name)?;
    Ok(Keyed {
        key,
        value: Field { required, cel_type },
    })
}

/// A type, or the one that null has too.
fn nullable_type(
    alloc: Global,
    nullable: bool,
    cel_type: Result<CelType, SchemaError>,
) -> Result<CelType, SchemaError>
    ensures { Carries cel_type result (or_null nullable) }
{
    if nullable {
        Ok(CelType::Nullable(Shared::new(alloc, cel_type?)?))
    } else {
        cel_type
    }
}

fn list_of(
    alloc: Global,
    max: u32,
    plain: bool,
    item: Result<CelType, SchemaError>,
) -> Result<CelType, SchemaError>
    ensures { Carries item result (λ t. Ok (T.List max plain t)) }
{
    Ok(CelType::List {
        max,
        plain,
        item: Shared::new(alloc, item?)?,
    })
}

fn map_of(
    alloc: Global,
    max: u32,
    item: Result<CelType, SchemaError>,
) -> Result<CelType, SchemaError>
    ensures { Carries item result (λ t. Ok (T.Map max 1048576 t)) }
{
    Ok(CelType::Map {
        max,
        key_max: 1_048_576,
        item: Shared::new(alloc, item?)?,
    })
}

fn object_of(
    alloc: Global,
    fields: Result<TextMap<Field<CelType>>, SchemaError>,
) -> Result<CelType, SchemaError>
    ensures { Carries fields result (λ fs. Ok (T.Object fs)) }
{
    Ok(CelType::Object {
        fields: Shared::new(alloc, fields?)?,
    })
}
