//! Policies.

ghost use Rattle.std.specs.Prelude.{◌≡◌, IfOk};

use base_containers::{Items, Shared, Text};
use std::alloc::AllocError;
use vap_match::Rules;

/// The kind of a policy's params.
#[derive(Drop)]
pub struct ParamKind {
    pub api_version: Text,
    pub kind: Text,
}

/// An expression with a name: a match condition or a variable.
#[derive(Drop)]
pub struct NamedExpression {
    pub name: Text,
    pub expression: Text,
}

/// The reason of a denial.
#[derive(Clone, Copy)]
pub enum Reason {
    Unauthorized,
    Forbidden,
    Invalid,
    RequestEntityTooLarge,
}

/// An expression that must be true, and what is said if it is not. A message may be empty, which counts as none.
#[derive(Drop)]
pub struct Validation {
    pub expression: Text,
    pub message: Option<Text>,
    pub message_expression: Option<Text>,
    pub reason: Reason,
}

/// An annotation that is kept with a decision.
#[derive(Drop)]
pub struct AuditAnnotation {
    pub key: Text,
    pub value_expression: Text,
}

/// What is done with a failure that no validation decided.
#[derive(Clone, Copy)]
pub enum FailurePolicy {
    Fail,
    Ignore,
}

/// What a policy says, each list in the order of its document.
pub struct PolicySpec {
    pub param_kind: Option<ParamKind>,
    pub match_constraints: Rules,
    pub match_conditions: Items<NamedExpression>,
    pub variables: Items<NamedExpression>,
    pub validations: Items<Validation>,
    pub audit_annotations: Items<AuditAnnotation>,
    pub failure_policy: FailurePolicy,
}

impl Drop for PolicySpec {
    fn drop(self) {
        let PolicySpec {
            param_kind: _param_kind,
            match_constraints: _match_constraints,
            match_conditions: _match_conditions,
            variables: _variables,
            validations: _validations,
            audit_annotations: _audit_annotations,
            failure_policy: _failure_policy,
        } = self;
    }
}

/// A policy, which may have several owners.
pub struct Policy {
    pub spec: Shared<PolicySpec>,
}

impl Drop for Policy {
    fn drop(self) {
        let Policy { spec: _spec } = self;
    }
}

impl Policy {
    /// An equal policy: one more owner of the same.
    pub fn copy(&self) -> Result<Policy, AllocError>
        ensures { IfOk result (λ policy. policy ≡ self.now) }
    {
        Ok(Policy {
            spec: self.spec.share()?,
        })
    }
}
