//! Numbered answers in order, and why a call is not answered.
//!
//! [`gather`] makes a list of verdicts, each with its number, if each number below a count comes once and no other comes; else it names
//! the least number that has a fault, and which. A [`PlaneFault`] names a call that workers do not answer.
#![tactic(auto)]

mod fault;
mod gathering;

pub use fault::{PlaneError, PlaneFault};
pub use gathering::{GatherError, GatherFault, gather};
