//! Decides which images run without a missing operand, an operand of a wrong kind or a charge past the budget.
//!
//! [`verify`] makes a [`Program`] of an image, or answers the first rule that the image breaks.
#![tactic(auto)]

mod arrivals;
mod bodies;
mod bounds;
mod charges;
mod constants;
mod fault;
mod list_rule;
mod loops;
mod map_rule;
mod measures;
mod open_loop;
mod opens;
mod placement;
mod program;
mod rules;
mod sums;
mod targets;
mod type_stack;
mod walk;

pub use fault::{VerifyError, VerifyFault, VerifyRule};
pub use program::{Program, verify};
