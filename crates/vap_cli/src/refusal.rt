//! Why a file is refused before its object is looked at.

ghost use Rattle.std.specs.Prelude.{◌≡◌, IfOk, string_bytes};
ghost use Rattle.vap_cli.specs.Report.{refused_line};

use crate::answer::Refusal;
use crate::made::expression_in;
use crate::note::refusal_note;
use cel_expression::Refusal as TextRefusal;
use serde_json::Value as Json;
use std::alloc::{AllocError, Global};
use vap_schema::{SchemaFault, fault_place};

/// Why a file is refused; the first of these that applies.
#[derive(Clone, Copy, Debug, PartialEq, Eq)]
pub enum FileRefusal {
    /// It has more than 1,048,576 bytes.
    TooLong,
    /// It is no JSON, has no schema, or its expression is absent or no text.
    BadJson,
    Schema(SchemaFault),
    /// The expression may not be run.
    Text(TextRefusal),
    /// The verifier refuses the compiled image, at this instruction.
    Unverified { at: usize },
}

impl FileRefusal {
    /// The line that is printed.
    pub fn line(&self, alloc: Global) -> Result<String, AllocError>
        ensures { IfOk result (λ line. string_bytes line ≡ refused_line self.now) }
    {
        match *self {
            FileRefusal::TooLong => String::from_str(alloc, "refused: TooLong\n"),
            FileRefusal::BadJson => String::from_str(alloc, "refused: BadJson\n"),
            FileRefusal::Schema(fault) => format!(in alloc; "refused: {}\n", fault.name()),
            FileRefusal::Text(why) => format!(in alloc; "refused: {}\n", Refusal::Text(why)),
            FileRefusal::Unverified { at } => {
                format!(in alloc; "refused: {}\n", Refusal::Unverified { at })
            }
        }
    }

    /// What is written to standard error for a file of this document, for people.
    pub fn note(&self, alloc: Global, document: &Json) -> Result<String, AllocError> {
        match *self {
            FileRefusal::TooLong => String::from_str(
                alloc,
                "The file has more than 1048576 bytes.\n",
            ),
            FileRefusal::BadJson => String::from_str(
                alloc,
                "The file is to be a JSON object with a `schema`, an `expression` that is a text, and perhaps an `object`.\n",
            ),
            FileRefusal::Schema(fault) => schema_note(alloc, document, fault),
            FileRefusal::Text(why) => {
                refusal_note(alloc, text_in(document), &Refusal::Text(why))
            }
            FileRefusal::Unverified { at } => {
                refusal_note(alloc, text_in(document), &Refusal::Unverified { at })
            }
        }
    }
}

// The text of a document's expression, empty if there is none.
fn text_in(document: &Json) -> &str {
    expression_in(document).unwrap_or("")
}

// The fault of a document's schema after its path in the document.
fn schema_note(alloc: Global, document: &Json, fault: SchemaFault) -> Result<String, AllocError> {
    let path = match document.get("schema") {
        Some(schema) => path_in(alloc, schema)?,
        None => String::new(alloc),
    };
    format!(in alloc; "schema{}: {fault}.\n", path.as_str())
}

// The path from a schema to its first fault, empty if that is its own.
fn path_in(alloc: Global, schema: &Json) -> Result<String, AllocError> {
    let mut text = String::new(alloc);
    if let Some(place) = fault_place(alloc, schema)? {
        for name in place.path.iter() {
            text.push_str(".")?;
            text.push_str(name)?;
        }
    }
    Ok(text)
}
