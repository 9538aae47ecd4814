//! What is reported of policies: at which kinds they are accepted, and what they found in a replay.
//!
//! [`report_to`] reads a stream as a replay does, or one JSON document, and writes for each policy, at each known kind that it names,
//! what its expressions may charge, or its fault, with the field and the place; then what has no effect. It answers the status with
//! which the program then ends, and what is written to standard error. [`Report::of`] has what is reported: the part of it that says
//! where policies are misconfigured is the report of the set.
//!
//! [`summary_of`] is the result of a replay, as a table: what each policy found under each of its bindings, what that cost, and how long
//! reviews took. It judges the reviews of a history once more, at the log of each: all policies together, for the time, and each policy
//! with one binding alone, for what they find. It is proved that it is safe and ends, and nothing more is proved of it.
#![tactic(auto)]

mod cause;
mod charges;
mod command;
mod counts;
mod failures;
mod field;
mod found;
mod input;
mod input_fault;
mod json_report;
mod judging;
mod narrowed;
mod outcome;
mod pairs;
mod parts;
mod report;
mod rows;
mod scope;
mod stream;
mod summary;
mod table;
mod text_report;
mod times;
mod unread;
mod unused;
mod words;
mod wrapping;

pub use cause::Cause;
pub use charges::{Charges, Estimate};
pub use command::{Output, report_to};
pub use field::Field;
pub use outcome::{Accepted, Elsewhere, Outcome, Refused};
pub use report::Report;
pub use summary::summary_of;
pub use unread::UnreadKind;
pub use unused::{Stray, UnknownParams};
