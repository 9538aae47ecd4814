//! Policies.

use crate::policy::{
    AuditAnnotation, FailurePolicy, NamedExpression, ParamKind, Policy, PolicySpec, Reason,
    Validation,
};
use base_containers::Same;

impl Same for ParamKind {
    fn same(&self, other: &ParamKind) -> bool {
        self.api_version.same(&other.api_version) && self.kind.same(&other.kind)
    }
}

impl Same for NamedExpression {
    fn same(&self, other: &NamedExpression) -> bool {
        self.name.same(&other.name) && self.expression.same(&other.expression)
    }
}

impl Same for Reason {
    fn same(&self, other: &Reason) -> bool {
        match (self, other) {
            (Reason::Unauthorized, Reason::Unauthorized) => true,
            (Reason::Forbidden, Reason::Forbidden) => true,
            (Reason::Invalid, Reason::Invalid) => true,
            (Reason::RequestEntityTooLarge, Reason::RequestEntityTooLarge) => true,
            _ => false,
        }
    }
}

impl Same for Validation {
    fn same(&self, other: &Validation) -> bool {
        self.expression.same(&other.expression)
            && self.message.same(&other.message)
            && self.message_expression.same(&other.message_expression)
            && self.reason.same(&other.reason)
    }
}

impl Same for AuditAnnotation {
    fn same(&self, other: &AuditAnnotation) -> bool {
        self.key.same(&other.key) && self.value_expression.same(&other.value_expression)
    }
}

impl Same for FailurePolicy {
    fn same(&self, other: &FailurePolicy) -> bool {
        match (self, other) {
            (FailurePolicy::Fail, FailurePolicy::Fail) => true,
            (FailurePolicy::Ignore, FailurePolicy::Ignore) => true,
            _ => false,
        }
    }
}

impl Same for PolicySpec {
    fn same(&self, other: &PolicySpec) -> bool {
        self.param_kind.same(&other.param_kind)
            && self.match_constraints.same(&other.match_constraints)
            && self.match_conditions.same(&other.match_conditions)
            && self.variables.same(&other.variables)
            && self.validations.same(&other.validations)
            && self.audit_annotations.same(&other.audit_annotations)
            && self.failure_policy.same(&other.failure_policy)
    }
}

impl Same for Policy {
    fn same(&self, other: &Policy) -> bool {
        self.spec.same(&other.spec)
    }
}
