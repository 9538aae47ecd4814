//! The verdict of a set of policies on a request.
//!
//! [`judge`] finds the kind of a request and, if a policy matches, what the names of expressions hold. It evaluates the policies by
//! name under their bindings by name at the params of each, and makes the verdict of what they find. What it keeps from request to
//! request is a [`Workspace`]. [`judge_open`] answers the same for a request whose review is open. `vap_policy_set` says what a set is
//! and builds it, `vap_policy_evaluation` what a policy finds at one param, and `vap_policy_verdict` what a verdict is.
#![tactic(auto)]

mod case;
mod evaluations;
mod findings;
mod judge_error;
mod judgement;
mod matched;
mod params;
mod places;
mod workspace;

pub use cel_machine::RunFault;
pub use judge_error::JudgeError;
pub use judgement::{judge, judge_open};
pub use vap_policy_set::{BuildError, BuildFault, Choice, PolicySet};
pub use workspace::Workspace;
