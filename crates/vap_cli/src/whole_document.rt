//! The document of bytes.

ghost use Rattle.std.specs.Prelude.{◌≡◌, ◌≢◌, Some, None, IfOk, IfErr, IsUtf8};
ghost use Rattle.serde_json.specs.Read.{read};
ghost use Rattle.serde_json.specs.View.{view};
ghost use Rattle.base_containers.specs.declared.failed.Failed.TheVariants.{OutOfMemory};

use base_containers::Failed;
use serde_json::Value as Json;
use std::alloc::Global;
use thiserror::Error;

/// Why bytes are no document, and where they are none. Lines and columns are counted from 1, columns in bytes.
#[derive(Clone, Copy, Debug, PartialEq, Eq, Error)]
pub enum DocumentFault {
    #[error("the text is no JSON here")]
    BadJson { line: usize, column: usize },
    #[error("the text ends in the middle of a document")]
    CutShort { line: usize, column: usize },
}

impl DocumentFault {
    /// The line on which the bytes are no document.
    pub fn line(&self) -> usize {
        match self {
            DocumentFault::BadJson { line, .. } | DocumentFault::CutShort { line, .. } => *line,
        }
    }

    /// The place on that line.
    pub fn column(&self) -> usize {
        match self {
            DocumentFault::BadJson { column, .. } | DocumentFault::CutShort { column, .. } => {
                *column
            }
        }
    }
}

/// Why there is no document.
pub type DocumentError = Failed<DocumentFault>;

/// The document of bytes, or where they are none.
pub fn document_of(alloc: Global, bytes: &[u8]) -> Result<Json, DocumentError>
    ensures value { IfOk result (λ json. IsUtf8 bytes.now × (read bytes.now ≡ Some (view json))) }
    ensures none { IfErr result (λ error. error ≢ OutOfMemory → IsUtf8 bytes.now → read bytes.now ≡ None) }
{
    match Json::from_slice(alloc, bytes) {
        Ok(json) => Ok(json),
        Err(error) => {
            if error.is_memory() {
                Err(Failed::OutOfMemory)
            } else {
                Err(Failed::Fault(fault_of(&error)))
            }
        }
    }
}

fn fault_of(error: &serde_json::Error) -> DocumentFault {
    let line = error.line();
    let column = error.column();
    if error.is_eof() {
        DocumentFault::CutShort { line, column }
    } else {
        DocumentFault::BadJson { line, column }
    }
}
