//! The verdict on a request by what was found, and the line that answers it.
//!
//! [`verdict_of`] makes a verdict of findings and notes, in the order in which they were found, and [`answer_text`] its line, which
//! [`with_answer`] puts behind a text; it evaluates and matches nothing and looks at no object. [`cut`] cuts texts that are too long.
#![tactic(auto)]

mod annotation_entries;
mod annotation_values;
mod answer;
mod cuts;
mod decision;
mod decision_annotations;
mod decision_failures;
mod finding;
mod members;
mod sentences;
mod verdict;

pub use answer::{answer_text, with_answer};
pub use cuts::cut;
pub use decision::{unfit_verdict, verdict_of};
pub use finding::{Finding, Note};
pub use members::{put_number, put_text};
pub use verdict::Verdict;
