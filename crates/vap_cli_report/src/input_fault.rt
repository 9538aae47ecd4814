//! Why an input is refused.

use std::alloc::{AllocError, Global};
use thiserror::Error;
use vap_cli::DocumentFault;
use vap_read::EventFault;

/// Why a line, or a document that is the whole of an input, is refused.
#[derive(Clone, Copy, Debug, PartialEq, Eq, Error)]
pub enum InputFault {
    #[error("it has more bytes than it may have")]
    TooLong,
    #[error("{0}")]
    Document(DocumentFault),
    #[error("it is neither an event, a List nor a review, and no object with apiVersion and kind")]
    UnknownLine,
    #[error("{0}")]
    OfEvent(EventFault),
    #[error("there are as many events as there may be")]
    LogFull,
    #[error("there would be more objects than there may be")]
    TooManyObjects,
}

impl InputFault {
    /// The name that is reported: for a fault of an event it is the name of that fault.
    pub fn name(&self) -> &'static str {
        match self {
            InputFault::TooLong => "TooLong",
            InputFault::Document(_) => "BadJson",
            InputFault::UnknownLine => "UnknownLine",
            InputFault::OfEvent(fault) => fault.name(),
            InputFault::LogFull => "LogFull",
            InputFault::TooManyObjects => "TooManyObjects",
        }
    }
}

/// What is written to standard error for a refused line: as a replay has it, and what it means; `part` names the object at fault.
pub fn line_note(
    alloc: Global,
    line: u64,
    part: &str,
    fault: InputFault,
) -> Result<String, AllocError> {
    let name = fault.name();
    match fault {
        InputFault::Document(document) => {
            let column = document.column();
            format!(in alloc; "line {line}: {name}\ncolumn {column}: {document}\n")
        }
        _ => format!(in alloc; "line {line}: {name}\n{part}{fault}\n"),
    }
}

/// The same for a document that is the whole of the input.
pub fn document_note(alloc: Global, part: &str, fault: InputFault) -> Result<String, AllocError> {
    let name = fault.name();
    match fault {
        InputFault::Document(document) => {
            let (line, column) = (document.line(), document.column());
            format!(in alloc; "line {line}: {name}\ncolumn {column}: {document}\n")
        }
        _ => format!(in alloc; "document: {name}\n{part}{fault}\n"),
    }
}
