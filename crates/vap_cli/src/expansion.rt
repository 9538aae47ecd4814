//! Schemas with all that they refer to put in place.

use crate::form::{Form, form_of};
use crate::keywords;
use crate::keywords::Members;
use crate::kinds_fault::{KindsError, KindsFault};
use base_containers::Text;
use serde_json::{Map, Value as Json, put};
use std::alloc::{AllocError, Global};

/// How many schemas may be inside each other, so that a line nests no deeper than a line may.
const MOST_LEVELS: u32 = 50;

/// How many schemas one kind may have; what comes after them is left open.
const MOST_SCHEMAS: u32 = 6_000;

/// Where the references of a document lead.
const SCHEMAS: &str = "#/components/schemas/";

/// The schemas of a document by their names.
#[derive(Clone, Copy)]
pub struct Source<'a> {
    pub alloc: Global,
    pub schemas: &'a Map<String, Json>,
}

/// The names of the schemas that are being put in place, from the outermost on, and how many more there may be.
#[derive(Drop)]
struct Progress {
    within: Vec<Text>,
    left: u32,
}

impl Progress {
    /// Whether a schema is being put in place.
    fn is_within(&self, name: &str) -> bool {
        self.within.iter().any(|other| other.as_str() == name)
    }

    /// The name of the innermost schema.
    fn innermost(&self) -> &str {
        match self.within.last() {
            Some(name) => name.as_str(),
            None => "",
        }
    }
}

/// The schema of a kind, whose own schema has this name.
pub fn root_schema(source: Source<'_>, name: &str, schema: &Json) -> Result<Json, KindsError> {
    let mut within = Vec::new(source.alloc);
    within.push(Text::from_str(source.alloc, name)?)?;
    let mut progress = Progress {
        within,
        left: MOST_SCHEMAS,
    };
    match form_of(schema) {
        Form::Record(properties) => {
            let properties = root_properties(source, &mut progress, properties)?;
            Ok(keywords::object_of(source.alloc, schema, properties)?)
        }
        _ => expanded(MOST_LEVELS, source, &mut progress, schema),
    }
}

/// The properties of a kind's own schema. Metadata is the same for each kind.
fn root_properties(
    source: Source<'_>,
    progress: &mut Progress,
    properties: &Map<String, Json>,
) -> Result<Members, KindsError> {
    let mut members = Map::new(source.alloc);
    for (name, schema) in properties.iter() {
        let name = name.as_str();
        let made = if name == "metadata" {
            keywords::bare_object(source.alloc)?
        } else {
            expanded(MOST_LEVELS, source, progress, schema)?
        };
        put(&mut members, source.alloc, name, made)?;
    }
    Ok(members)
}

/// A schema with all that it refers to put in place, if `levels` schemas may be inside each other.
#[cycle(expanded)]
fn expanded(
    levels: u32,
    source: Source<'_>,
    progress: &mut Progress,
    schema: &Json,
) -> Result<Json, KindsError> {
    if levels == 0 || progress.left == 0 {
        return Ok(keywords::unknown(source.alloc)?);
    }
    progress.left -= 1;
    expanded_form(levels - 1, source, progress, schema)
}

/// The same by the schema's form.
#[cycle(expanded)]
fn expanded_form(
    levels: u32,
    source: Source<'_>,
    progress: &mut Progress,
    schema: &Json,
) -> Result<Json, KindsError> {
    let alloc = source.alloc;
    match form_of(schema) {
        Form::Reference(reference) => referred(levels, source, progress, reference),
        Form::Wrapped(inner) => expanded(levels, source, progress, inner),
        Form::Either => Ok(keywords::either(alloc)?),
        Form::Open => Ok(keywords::unknown(alloc)?),
        Form::AnyEntries => Ok(keywords::open_entries(alloc)?),
        Form::Leaf => Ok(keywords::leaf_of(alloc, schema)?),
        Form::List(items) => {
            let items = expanded(levels, source, progress, items)?;
            Ok(keywords::list_of(alloc, schema, items)?)
        }
        Form::Entries(entry) => {
            let entry = expanded(levels, source, progress, entry)?;
            Ok(keywords::map_of(alloc, schema, entry)?)
        }
        Form::Record(properties) => {
            let properties = expanded_properties(levels, source, progress, properties)?;
            Ok(keywords::object_of(alloc, schema, properties)?)
        }
    }
}

/// Properties with all that they refer to put in place.
#[cycle(expanded)]
fn expanded_properties(
    levels: u32,
    source: Source<'_>,
    progress: &mut Progress,
    properties: &Map<String, Json>,
) -> Result<Members, KindsError> {
    let mut members = Map::new(source.alloc);
    for (name, schema) in properties.iter() {
        let made = expanded(levels, source, progress, schema)?;
        put(&mut members, source.alloc, name.as_str(), made)?;
    }
    Ok(members)
}

/// The schema to which a reference leads, put in place. One that is inside itself is left open there.
#[cycle(expanded)]
fn referred(
    levels: u32,
    source: Source<'_>,
    progress: &mut Progress,
    reference: &str,
) -> Result<Json, KindsError> {
    let alloc = source.alloc;
    let name = reference.strip_prefix(SCHEMAS).unwrap_or("");
    let Some(schema) = source.schemas.get(name) else {
        return Err(nowhere(alloc, progress, reference)?);
    };
    if progress.is_within(name) {
        return Ok(keywords::unknown(alloc)?);
    }
    progress.within.push(Text::from_str(alloc, name)?)?;
    let made = expanded(levels, source, progress, schema);
    let _ = progress.within.pop();
    made
}

/// The fault of a reference that leads to no schema.
fn nowhere(alloc: Global, progress: &Progress, reference: &str) -> Result<KindsError, AllocError> {
    let reference = Text::from_str(alloc, reference)?;
    let inside = Text::from_str(alloc, progress.innermost())?;
    Ok(KindsError::Fault(KindsFault::Nowhere { reference, inside }))
}
