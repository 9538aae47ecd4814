//! What a schema says by its own keywords. The schemas inside it are not read.

ghost use Rattle.serde_json.specs.View.{view, items_view};
ghost use Rattle.vap_schema.specs.Keywords.{members_seen, entry_seen};
ghost use Rattle.vap_schema.specs.Forms.{root_form, nested_form, own_form, untyped_form, text_form, list_form, object_form};
ghost use Rattle.vap_schema.specs.Forms.{object_by, FormIs, NestedIs};

use crate::keywords::{
    TimeFormat, TypeWord, check_absent, entry_of, flag, is_plain, limit, properties_of,
    required_names, stated_format, stated_word, value_of,
};
use crate::own_fault::{Keyword, OwnFault};
use serde_json::{Map, Value as Json};

/// The form of a schema's type, apart from null.
#[derive(Clone, Copy)]
pub enum Form<'a> {
    Opaque,
    Bool,
    Int,
    Timestamp,
    Duration,
    Text {
        max: u32,
    },
    List {
        max: u32,
        plain: bool,
        items: &'a Json,
    },
    /// Entries under any names: true, or the schema of each.
    Map {
        max: u32,
        entry: &'a Json,
    },
    Record {
        required: &'a [Json],
        properties: &'a Map<String, Json>,
    },
    /// An object without fields.
    Bare,
}

/// The form of a root, or the fault that it has itself.
pub fn root_form(schema: &Json) -> Result<Form<'_>, OwnFault>
    ensures { FormIs (root_form (view schema.now)) result }
{
    if !schema.is_object() {
        return Err(OwnFault::NoObject);
    }
    own_form(schema)
}

/// Whether a schema that is no root gives null too, and its form, or the fault that it has itself.
pub fn nested_form(schema: &Json) -> Result<(bool, Form<'_>), OwnFault>
    ensures { NestedIs (nested_form (view schema.now)) result }
{
    if !schema.is_object() {
        return Err(OwnFault::NoObject);
    }
    let nullable = flag(schema, Keyword::Nullable)?;
    let form = own_form(schema)?;
    Ok((nullable, form))
}

/// The form of a schema, apart from null.
fn own_form(schema: &Json) -> Result<Form<'_>, OwnFault>
    ensures { FormIs (own_form (view schema.now)) result }
{
    check_absent(schema, Keyword::Reference)?;
    match stated_word(schema)? {
        None => untyped_form(schema),
        Some(TypeWord::Boolean) => Ok(Form::Bool),
        Some(TypeWord::Integer) => Ok(Form::Int),
        Some(TypeWord::Number) => Ok(Form::Opaque),
        Some(TypeWord::String) => text_form(schema),
        Some(TypeWord::Array) => list_form(schema),
        Some(TypeWord::Object) => object_form(schema),
    }
}

fn untyped_form(schema: &Json) -> Result<Form<'_>, OwnFault>
    ensures { FormIs (untyped_form (view schema.now)) result }
{
    let kept = flag(schema, Keyword::PreserveUnknownFields)?;
    let either = flag(schema, Keyword::IntOrString)?;
    if kept || either {
        Ok(Form::Opaque)
    } else {
        Err(OwnFault::NoType)
    }
}

/// A text that spells a time has no limit of its own.
fn text_form(schema: &Json) -> Result<Form<'_>, OwnFault>
    ensures { FormIs (text_form (view schema.now)) result }
{
    match stated_format(schema)? {
        Some(TimeFormat::Timestamp) => Ok(Form::Timestamp),
        Some(TimeFormat::Duration) => Ok(Form::Duration),
        None => {
            let max = limit(schema, Keyword::MaxLength, 1_048_576)?;
            Ok(Form::Text { max })
        }
    }
}

fn list_form(schema: &Json) -> Result<Form<'_>, OwnFault>
    ensures { FormIs (list_form (view schema.now)) result }
{
    let max = limit(schema, Keyword::MaxItems, 524_287)?;
    let plain = is_plain(schema)?;
    match value_of(schema, Keyword::Items) {
        Some(items) => Ok(Form::List { max, plain, items }),
        None => Err(OwnFault::Keyword(Keyword::Items)),
    }
}

/// An object: every keyword that some object has is read, no matter which of them then count.
fn object_form(schema: &Json) -> Result<Form<'_>, OwnFault>
    ensures { FormIs (object_form (view schema.now)) result }
{
    let properties = properties_of(schema)?;
    let required = required_names(schema)?;
    let entry = entry_of(schema)?;
    let max = limit(schema, Keyword::MaxProperties, 524_287)?;
    let kept = flag(schema, Keyword::PreserveUnknownFields)?;
    one_form(properties, required, entry, max, kept)
}

/// The form of an object by its properties or by what is under any name. An object may not have both.
fn one_form<'a>(
    properties: Option<&'a Map<String, Json>>,
    required: &'a [Json],
    entry: Option<&'a Json>,
    max: u32,
    kept: bool,
) -> Result<Form<'a>, OwnFault>
    ensures { FormIs (object_by (members_seen properties.entry) (items_view required.now) (entry_seen entry.entry) max kept) result }
{
    match (properties, entry) {
        (Some(properties), None) => Ok(Form::Record {
            required,
            properties,
        }),
        (None, Some(entry)) => Ok(Form::Map { max, entry }),
        (None, None) => Ok(if kept { Form::Opaque } else { Form::Bare }),
        (Some(_), Some(_)) => Err(OwnFault::Keyword(Keyword::AdditionalProperties)),
    }
}
