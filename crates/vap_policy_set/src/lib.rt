//! Sets of policies.
//!
//! [`PolicySet::build`] compiles what the policies among objects say at each kind that is known and that they name, and at those
//! that are not known. A set is seen as what it holds, which is a function of the objects and of the choice of texts that are
//! taken as no patterns: the kinds, the policies by name, the params of each kind that a policy names, and the Namespaces. It
//! keeps none of the other objects. [`PolicySet::advance`] makes the set after events by the same contract, and takes over what
//! they do not change: a policy at a kind is seen as what it was compiled of, so that a kept one can take the place of any
//! that is compiled of the same. [`PolicySet::policies_on`] lends the policies that may cover requests on a resource of a group.
//! [`PolicySet::report`] says where policies are misconfigured.
#![tactic(auto)]

mod bound;
mod build_error;
mod changed_policies;
mod changes;
mod choice;
mod compiling;
mod counting;
mod covering;
mod definitions;
mod index;
mod literal_patterns;
mod made;
mod params;
mod parts;
mod places;
mod policies;
mod read_policy;
mod report;
mod reuse;
mod rules;
mod set;
mod texts;

pub use bound::{BoundPolicy, KindPair};
pub use build_error::{BuildError, BuildFault};
pub use choice::Choice;
pub use made::{Inputs, MadePair};
pub use read_policy::ReadPolicy;
pub use report::Misconfigured;
pub use set::PolicySet;
