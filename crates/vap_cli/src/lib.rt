//! What the commands of the program write, over any reader and writer, and what the words of a command line ask for.
//!
//! [`eval_to`] writes the line for an expression's value, error or refusal, and answers the status with which the
//! program then ends; [`Status::code`] is its number, and [`EvalError::status`] the status if nothing is reported.
//! [`one_outcome`] is the law that a text evaluates to at most one value or error. [`choice_for`] makes the choice by which an
//! expression is typed. [`note_of`] is what is written to standard error after an error or a refusal.
//!
//! [`check_to`] writes what the expression of a file may charge, and, if there is an object, what it results in and what it charged; or
//! why the file, its schema, its expression or its object is refused. [`bytes_of`] takes a file's bytes, at most [`LONGEST`].
//!
//! [`encode_to`] writes the bytes of the image that an expression compiles to, or why there are none. [`decode_to`] writes what
//! the image of a file's bytes holds, its bounds and what it results in, or why it is refused.
//!
//! [`kinds_to`] writes a line for each kind of an OpenAPI v3 document whose objects are served by name: the event that adds a
//! CustomResourceDefinition with the kind's schema, in which each `$ref` is put in place. [`take_rest`] puts what is left of an input
//! after the bytes that are there of a document, which has at most [`MOST_BYTES`], and [`document_of`] reads the document of bytes, or
//! reports where they are no JSON. It is proved that `kinds_to` is safe and ends, and nothing more is proved of it.
//!
//! [`asked`] answers a [`Task`], whose workers are within their range, or a [`Mistake`], which may be a request for help.
#![tactic(auto)]

mod answer;
mod check;
mod decode;
mod definition;
mod document;
mod encode;
mod eval;
mod evaluation;
mod expansion;
mod failure;
mod form;
mod judgement;
mod keywords;
mod kinds_command;
mod kinds_fault;
mod listing;
mod made;
mod mistake;
mod mnemonics;
mod note;
mod notes;
mod object;
mod refusal;
mod resources;
mod rest;
mod status;
mod types;
mod whole_document;
mod words;

pub use answer::{Answer, Refusal};
pub use base_containers::Counted;
pub use check::{Ended, check_to, write_lines};
pub use decode::decode_to;
pub use document::{LONGEST, bytes_of};
pub use encode::encode_to;
pub use eval::{EvalError, eval_to};
pub use evaluation::{choice_for, one_outcome};
pub use failure::CheckFailure;
pub use judgement::Judgement;
pub use kinds_command::kinds_to;
pub use mistake::Mistake;
pub use note::{error_words, note_of, refusal_note};
pub use refusal::FileRefusal;
pub use rest::{MOST_BYTES, take_rest};
pub use status::Status;
pub use whole_document::{DocumentError, DocumentFault, document_of};
pub use words::{Task, asked};
