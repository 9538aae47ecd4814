//! The place of the first fault of a schema. It takes no memory until a fault is reported.

ghost use Rattle.std.specs.Prelude.{◌≡◌, [], IfOk, Err, map};
ghost use Rattle.serde_json.specs.View.{view, members_view};
ghost use Rattle.vap_schema.specs.Schemas.{object_type_of};
ghost use Rattle.vap_schema.specs.Forms.{form_in};
ghost use Rattle.vap_schema.specs.Places.{Found, under, own_place, form_place, members_place, entry_place};
ghost use Rattle.vap_schema.specs.Places.{schema_place, document_place};
ghost use Rattle.vap_schema.specs.Answers.{IsPlace, IsPlaceBackwards, IsFaultOf, backwards};

use crate::form::{Form, nested_form, root_form};
use crate::own_fault::{Keyword, OwnFault};
use crate::schema_fault::SchemaFault;
use serde_json::{Map, Value as Json};
use std::alloc::{AllocError, Global};

/// A fault of a schema, and the names of keywords and properties that lead to it, as `properties`, `spec`, `type`.
#[derive(Drop)]
pub struct FaultPlace<'a> {
    pub fault: SchemaFault,
    pub path: Vec<&'a str>,
}

/// The first fault of a document that is to be the schema of a kind, with its place; none if it is one.
pub fn fault_place(alloc: Global, schema: &Json) -> Result<Option<FaultPlace<'_>>, AllocError>
    ensures place { IfOk result (IsPlace (document_place (view schema.now))) }
    ensures fault { IfOk result (IsFaultOf (object_type_of (view schema.now))) }
{
    match place_in_root(alloc, schema)? {
        Some(place) => Ok(Some(turned(place))),
        None => Ok(None),
    }
}

/// The place with its path from the outermost name on.
fn turned(place: FaultPlace<'_>) -> FaultPlace<'_>
    ensures fault { result.fault ≡ place.entry.fault }
    ensures path { map (λ name. name.now) result.path.items ≡ backwards place.entry.path.items }
{
    let FaultPlace { fault, mut path } = place;
    path.reverse();
    FaultPlace { fault, path }
}

/// The place in a root. Here and below a path goes from the innermost name on.
fn place_in_root(alloc: Global, schema: &Json) -> Result<Option<FaultPlace<'_>>, AllocError>
    ensures { IfOk result (IsPlaceBackwards (document_place (view schema.now))) }
{
    match root_form(schema) {
        Ok(form) => place_in_form(99, alloc, form),
        Err(own) => own_place(alloc, own),
    }
}

/// The place in a schema that is no root, if at most `levels` schemas may be inside each other.
#[cycle(place_in)]
fn place_in(levels: u32, alloc: Global, schema: &Json) -> Result<Option<FaultPlace<'_>>, AllocError>
    ensures { IfOk result (IsPlaceBackwards (schema_place levels (view schema.now))) }
{
    if levels == 0 {
        return Ok(Some(here(alloc, SchemaFault::TooDeep)));
    }
    match nested_form(schema) {
        Ok((_, form)) => place_in_form(levels - 1, alloc, form),
        Err(own) => own_place(alloc, own),
    }
}

/// The place in the schemas inside a form.
#[cycle(place_in)]
fn place_in_form<'a>(
    levels: u32,
    alloc: Global,
    form: Form<'a>,
) -> Result<Option<FaultPlace<'a>>, AllocError>
    ensures { IfOk result (IsPlaceBackwards (form_place (schema_place levels) (form_in form.entry))) }
{
    match form {
        Form::List { items, .. } => { under(Keyword::Items.name(), place_in(levels, alloc, items)) }
        Form::Map { entry, .. } => {
            under(
                Keyword::AdditionalProperties.name(),
                place_in_entry(levels, alloc, entry),
            )
        }
        Form::Record { properties, .. } => {
            under(
                Keyword::Properties.name(),
                place_among(levels, alloc, properties),
            )
        }
        _ => Ok(None),
    }
}

#[cycle(place_in)]
fn place_in_entry(
    levels: u32,
    alloc: Global,
    entry: &Json,
) -> Result<Option<FaultPlace<'_>>, AllocError>
    ensures { IfOk result (IsPlaceBackwards (entry_place (schema_place levels) (view entry.now))) }
{
    match entry {
        Json::Bool(_) => Ok(None),
        _ => place_in(levels, alloc, entry),
    }
}

/// The place in the first property that has a fault.
#[cycle(place_in)]
fn place_among(
    levels: u32,
    alloc: Global,
    properties: &Map<String, Json>,
) -> Result<Option<FaultPlace<'_>>, AllocError>
    ensures { IfOk result (IsPlaceBackwards (members_place (schema_place levels) (members_view properties.now.entries))) }
{
    for (name, schema) in properties.iter() {
        let found = under(name.as_str(), place_in(levels, alloc, schema))?;
        if found.is_some() {
            return Ok(found);
        }
    }
    Ok(None)
}

/// The place one name further out.
fn under<'a>(
    name: &'a str,
    found: Result<Option<FaultPlace<'a>>, AllocError>,
) -> Result<Option<FaultPlace<'a>>, AllocError>
    ensures { (want : Found) → IfOk found.entry (IsPlaceBackwards want) → IfOk result (IsPlaceBackwards (under name.now want)) }
{
    match found? {
        Some(mut place) => {
            place.path.push(name)?;
            Ok(Some(place))
        }
        None => Ok(None),
    }
}

/// The place of a fault that a schema has itself.
fn own_place<'a>(alloc: Global, own: OwnFault) -> Result<Option<FaultPlace<'a>>, AllocError>
    ensures { IfOk result (IsPlaceBackwards (Err (own_place own))) }
{
    let mut place = here(alloc, own.fault());
    if let OwnFault::Keyword(keyword) = own {
        place.path.push(keyword.name())?;
    }
    Ok(Some(place))
}

/// The place of a schema itself.
fn here<'a>(alloc: Global, fault: SchemaFault) -> FaultPlace<'a>
    ensures fault { result.fault ≡ fault }
    ensures path { result.path.items ≡ [] }
{
    FaultPlace {
        fault,
        path: Vec::new(alloc),
    }
}
