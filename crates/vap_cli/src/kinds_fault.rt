//! Why a document gives no kinds.

use crate::whole_document::DocumentFault;
use base_containers::{Failed, Text};
use std::alloc::{AllocError, Global};

/// Why a document gives no kinds.
#[derive(Drop)]
pub enum KindsFault {
    /// It has more bytes than a document may have.
    TooLong,
    /// It is no JSON.
    Document(DocumentFault),
    /// It is no OpenAPI v3 document: this is not there.
    NotOpenApi(&'static str),
    /// A kind that is served has no schema.
    NoSchema { kind: Text },
    /// A `$ref` in a schema leads to no schema.
    Nowhere { reference: Text, inside: Text },
}

/// Why a document gives no kinds.
pub type KindsError = Failed<KindsFault>;

impl KindsFault {
    /// What is written to standard error.
    pub fn note(&self, alloc: Global) -> Result<String, AllocError> {
        match self {
            KindsFault::TooLong => String::from_str(
                alloc,
                "The document has more than 67108864 bytes.\n",
            ),
            KindsFault::Document(fault) => {
                let (line, column) = (fault.line(), fault.column());
                format!(in alloc; "line {line}, column {column}: {fault}\n")
            }
            KindsFault::NotOpenApi(what) => {
                format!(in alloc; "The document is no OpenAPI v3 document: {what}.\n")
            }
            KindsFault::NoSchema { kind } => {
                let kind = kind.as_str();
                format!(in alloc; "No schema under `components.schemas` is that of {kind:?}.\n")
            }
            KindsFault::Nowhere { reference, inside } => {
                let (reference, inside) = (reference.as_str(), inside.as_str());
                format!(in alloc;
                    "components.schemas.{inside}: there is no schema {reference:?}, to which a `$ref` leads.\n"
                )
            }
        }
    }
}
