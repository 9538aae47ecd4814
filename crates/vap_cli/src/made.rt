//! From a document to an expression over the objects of its schema.

ghost use Rattle.std.specs.Prelude.{◌≡◌, codes, option_map, option_and_then, Some, IfOk};
ghost use Rattle.serde_json.specs.Find.{get, as_str};
ghost use Rattle.serde_json.specs.View.{view};
ghost use Rattle.vap_schema.specs.Schemas.{object_type_of};
ghost use Rattle.vap_cli.specs.Checks.{IsMade, IsMadeFrom, IsMadeIn, IsMadeOver, IsMadeUnder, names_over};

use crate::evaluation::choice_for;
use crate::refusal::FileRefusal;
use base_containers::{Items, Keyed, Shared, Text};
use cel_expression::{CompileError, CompileFault, Compiled, compile_text};
use cel_value::CelType;
use serde_json::Value as Json;
use std::alloc::{AllocError, Global};
use vap_schema::{Schema, SchemaError};

/// An expression that may be run, and the schema of its objects.
#[derive(Drop)]
pub struct Made {
    pub schema: Schema,
    pub compiled: Compiled,
}

/// The expression of a document over its schema, or why the document is refused.
pub fn made_in(alloc: Global, json: &Json) -> Result<Result<Made, FileRefusal>, AllocError>
    ensures made { IfOk result (IsMadeIn (view json.now)) }
    ensures scope { IfOk result (λ made. IfOk made (λ m. m.compiled.names ≡ names_over m.schema)) }
{
    match json.get("schema") {
        Some(schema) => made_with(alloc, schema, expression_in(json)),
        None => Ok(Err(FileRefusal::BadJson)),
    }
}

// The same if there is a schema.
fn made_with(
    alloc: Global,
    schema: &Json,
    text: Option<&str>,
) -> Result<Result<Made, FileRefusal>, AllocError>
    ensures made { IfOk result (IsMadeFrom (Some (view schema.now)) (option_map (λ t. t.now) text.entry)) }
    ensures scope { IfOk result (λ made. IfOk made (λ m. m.compiled.names ≡ names_over m.schema)) }
{
    match text {
        Some(text) => made_under(alloc, schema, text),
        None => Ok(Err(FileRefusal::BadJson)),
    }
}

/// The text of a document's expression.
pub fn expression_in(json: &Json) -> Option<&str>
    ensures { option_map (λ text. text.now) result ≡ option_and_then as_str (get (codes "expression") (view json.now)) }
{
    match json.get("expression") {
        Some(found) => found.as_str(),
        None => None,
    }
}

// An expression under a schema that is to be read.
fn made_under(
    alloc: Global,
    schema: &Json,
    text: &str,
) -> Result<Result<Made, FileRefusal>, AllocError>
    ensures made { IfOk result (IsMadeUnder (object_type_of (view schema.now)) text.now) }
    ensures scope { IfOk result (λ made. IfOk made (λ m. m.compiled.names ≡ names_over m.schema)) }
{
    match Schema::from_json(alloc, schema) {
        Ok(schema) => made_over(alloc, schema, text),
        Err(SchemaError::Fault(fault)) => Ok(Err(FileRefusal::Schema(fault))),
        Err(SchemaError::OutOfMemory) => Err(AllocError),
    }
}

// An expression over the objects of a schema.
fn made_over(
    alloc: Global,
    schema: Schema,
    text: &str,
) -> Result<Result<Made, FileRefusal>, AllocError>
    ensures made { IfOk result (IsMade schema text.now) }
    ensures scope { IfOk result (λ made. IfOk made (λ m. m.compiled.names ≡ names_over m.schema)) }
{
    match compiled_over(alloc, schema.object_type(), text) {
        Ok(Ok(compiled)) => Ok(Ok(Made { schema, compiled })),
        Ok(Err(why)) => Ok(Err(why)),
        Err(error) => Err(error),
    }
}

// An expression over the objects of a type.
fn compiled_over(
    alloc: Global,
    object_type: &CelType,
    text: &str,
) -> Result<Result<Compiled, FileRefusal>, AllocError>
    ensures made { IfOk result (IsMadeOver object_type.now text.now) }
    ensures scope { IfOk result (λ made. IfOk made (λ s. s.names ≡ names_over object_type.now)) }
{
    let choice = choice_for(alloc, text)?;
    let names = object_name(alloc, object_type)?;
    let text = Text::from_str(alloc, text)?;
    match compile_text(alloc, &choice, &names, &text) {
        Ok(Ok(compiled)) => Ok(Ok(compiled)),
        Ok(Err(why)) => Ok(Err(FileRefusal::Text(why))),
        Err(CompileError::Fault(CompileFault::Unverified { at })) => {
            Ok(Err(FileRefusal::Unverified { at }))
        }
        Err(CompileError::OutOfMemory) => Err(AllocError),
    }
}

// The one name in scope, with its type.
fn object_name(
    alloc: Global,
    object_type: &CelType,
) -> Result<Shared<Items<Keyed<CelType>>>, AllocError>
    ensures { IfOk result (λ names. names ≡ names_over object_type.now) }
{
    let mut names = Items::new(alloc);
    let key = Text::from_str(alloc, "object")?;
    let value = object_type.copy()?;
    names.push(Keyed { key, value })?;
    Shared::new(alloc, names)
}
