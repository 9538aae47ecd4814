//! The most that an expression may charge, computed from its types before it runs: [`estimate`].
#![tactic(auto)]

mod limits;
mod measure;
mod over_budget;

pub use measure::estimate;
pub use over_budget::OverBudget;
