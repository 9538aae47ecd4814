//! The types of schemas and the values of documents, and the faults of both.

use base_containers::Part;
use calls_notation::{Asked, json, shown, shown_type, unknown};
use cel_value::{CelType, Value, fits, max_weight, to_json, weight};
use serde_json::Value as Json;
use std::alloc::{AllocError, Global};
use vap_schema::{FitError, Schema, SchemaError, fit};

/// The answer to a call of schemas.
pub fn answer(alloc: Global, asked: &Asked) -> Result<String, AllocError> {
    match asked.call {
        "schema" => schema(alloc, asked.input),
        "document" => document(alloc, asked.text(0), asked.text(1), asked.input),
        "row" => row(alloc, asked.input),
        _ => unknown(alloc),
    }
}

fn refusal(alloc: Global, error: SchemaError) -> Result<String, AllocError> {
    match error {
        SchemaError::Fault(fault) => String::from_str(alloc, fault.name()),
        SchemaError::OutOfMemory => Err(AllocError),
    }
}

fn read(alloc: Global, schema: &Json) -> Result<String, AllocError> {
    match Schema::from_json(alloc, schema) {
        Ok(schema) => shown_type(alloc, schema.object_type()),
        Err(error) => refusal(alloc, error),
    }
}

/// The type of a schema, or its fault.
fn schema(alloc: Global, row: &str) -> Result<String, AllocError> {
    let schema = json(alloc, row)?;
    read(alloc, &schema)
}

/// A value of a type, within the type's limits.
fn within(alloc: Global, value: &Value, cel_type: &CelType) -> Result<String, AllocError> {
    if fits(value, cel_type) && weight(value) <= max_weight(cel_type) {
        shown(alloc, value)
    } else {
        String::from_str(alloc, "past its type")
    }
}

fn fitted(
    alloc: Global,
    cel_type: &CelType,
    document: &Json,
    root: &str,
) -> Result<String, AllocError> {
    match fit(alloc, &Part::of_tree(document), cel_type, root) {
        Ok(value) => within(alloc, &value, cel_type),
        Err(FitError::Fault(fault)) => format!(in alloc; "{fault}"),
        Err(FitError::OutOfMemory) => Err(AllocError),
    }
}

fn at_root(
    alloc: Global,
    schema: &Json,
    document: &Json,
    root: &str,
) -> Result<String, AllocError> {
    match Schema::from_json(alloc, schema) {
        Ok(schema) => fitted(alloc, schema.object_type(), document, root),
        Err(error) => refusal(alloc, error),
    }
}

/// What a document is at a schema: its value, or its fault with the path from `root`, or the fault of the schema.
fn document(alloc: Global, schema: &str, root: &str, row: &str) -> Result<String, AllocError> {
    let schema = json(alloc, schema)?;
    let document = json(alloc, row)?;
    at_root(alloc, &schema, &document, root)
}

/// What a row of a `schema`, a `document` and the `path` that names the document results in: the value that the document is at
/// the schema's type, with its weight and the greatest weight of the type, or the first fault of the document or of the schema;
/// for what is no such row, what it lacks.
fn row(alloc: Global, row: &str) -> Result<String, AllocError> {
    let row = json(alloc, row)?;
    match (row.get("schema"), row.get("document"), row.get("path")) {
        (Some(schema), Some(document), Some(Json::String(path))) => {
            at_schema(alloc, schema, document, path.as_str())
        }
        _ => String::from_str(alloc, "a row lacks its schema, its document or its path"),
    }
}

fn at_schema(
    alloc: Global,
    schema: &Json,
    document: &Json,
    path: &str,
) -> Result<String, AllocError> {
    match Schema::from_json(alloc, schema) {
        Ok(schema) => at_type(alloc, schema.object_type(), document, path),
        Err(SchemaError::Fault(fault)) => format!(in alloc; "refused: {}", fault.name()),
        Err(SchemaError::OutOfMemory) => Err(AllocError),
    }
}

fn at_type(
    alloc: Global,
    cel_type: &CelType,
    document: &Json,
    path: &str,
) -> Result<String, AllocError> {
    let greatest = max_weight(cel_type);
    match fit(alloc, &Part::of_tree(document), cel_type, path) {
        Ok(value) => told(alloc, &value, greatest),
        Err(FitError::Fault(fault)) => format!(in alloc;
            "refused: {} at {}; greatest weight {greatest}",
            fault.kind.name(),
            fault.path.as_str()
        ),
        Err(FitError::OutOfMemory) => Err(AllocError),
    }
}

fn told(alloc: Global, value: &Value, greatest: u64) -> Result<String, AllocError> {
    let text = to_json(alloc, value)?;
    format!(in alloc; "{text}; weight {} of {greatest}", weight(value))
}
