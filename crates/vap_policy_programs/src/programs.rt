//! Policies with their expressions compiled.

use crate::pair_fault::PairFault;
use base_containers::{Items, Text};
use cel_expression::Compiled;
use vap_read::Reason;

/// A match condition.
#[derive(Drop)]
pub struct Condition {
    pub name: Text,
    pub expression: Compiled,
}

/// A validation, with what is said and reported if it is false.
#[derive(Drop)]
pub struct Check {
    pub expression: Compiled,
    pub message: Option<Text>,
    pub message_expression: Option<Compiled>,
    pub reason: Reason,
}

/// An annotation, with the expression of its value.
#[derive(Drop)]
pub struct Annotation {
    pub key: Text,
    pub value: Compiled,
}

/// The expressions of a policy at a kind, each list in the order of the policy, and their price: what they may charge together
/// for one param.
pub struct Programs {
    pub conditions: Items<Condition>,
    pub variables: Items<Compiled>,
    pub validations: Items<Check>,
    pub annotations: Items<Annotation>,
    pub price: u64,
}

impl Drop for Programs {
    fn drop(self) {
        let Programs {
            conditions: _conditions,
            variables: _variables,
            validations: _validations,
            annotations: _annotations,
            price: _price,
        } = self;
    }
}

/// A policy at a kind.
#[derive(Drop)]
pub enum Pair {
    Runs(Programs),
    /// It is misconfigured there.
    Misconfigured(PairFault),
}
