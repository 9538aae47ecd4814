//! What policies are at kinds.

use crate::cause::Cause;
use crate::charges::Charges;
use base_containers::Text;
use vap_policy_programs::PairFault;
use vap_policy_set::Misconfigured;

/// A policy that is accepted at a known kind that it names.
#[derive(Drop)]
pub struct Accepted {
    pub policy: Text,
    pub group: Text,
    pub version: Text,
    pub kind: Text,
    pub charges: Charges,
}

/// A policy that is misconfigured at a known kind that it names, and what is found of it there.
#[derive(Drop)]
pub struct Refused {
    pub misconfigured: Misconfigured,
    pub cause: Cause,
}

/// What a policy is at a kind.
#[derive(Drop)]
pub enum Outcome {
    Accepted(Charges),
    Refused(PairFault, Cause),
}

/// A policy that names no known kind, and what it is at those that are not known.
#[derive(Drop)]
pub struct Elsewhere {
    pub policy: Text,
    pub outcome: Outcome,
}
