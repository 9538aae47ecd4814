//! What a policy finds at one param, if the names of its expressions hold what is lent.
//!
//! [`judge`] runs its expressions in their order: match conditions, variables, validations, the messages of those that are false, and
//! annotations. It pushes what is found as a [`Failure`] or a [`Note`], and charges no more than the policy's price. Whether a policy
//! matches a request, and at which params it is judged, is for `vap_policy`.
#![tactic(auto)]

mod annotations;
mod conditions;
mod evaluation;
mod failures;
mod found;
mod runs;
mod validations;
mod variables;
mod words;

pub use evaluation::judge;
pub use found::{Failure, Note};
