//! Bindings.

use crate::binding::{Binding, BindingSpec, NotFoundAction, ParamRef, ValidationActions};
use base_containers::Same;

impl Same for NotFoundAction {
    fn same(&self, other: &NotFoundAction) -> bool {
        match (self, other) {
            (NotFoundAction::Allow, NotFoundAction::Allow) => true,
            (NotFoundAction::Deny, NotFoundAction::Deny) => true,
            _ => false,
        }
    }
}

impl Same for ParamRef {
    fn same(&self, other: &ParamRef) -> bool {
        self.name.same(&other.name)
            && self.namespace.same(&other.namespace)
            && self.selector.same(&other.selector)
            && self
                .parameter_not_found_action
                .same(&other.parameter_not_found_action)
    }
}

impl Same for ValidationActions {
    fn same(&self, other: &ValidationActions) -> bool {
        self.deny == other.deny && self.warn == other.warn && self.audit == other.audit
    }
}

impl Same for BindingSpec {
    fn same(&self, other: &BindingSpec) -> bool {
        self.policy_name.same(&other.policy_name)
            && self.param_ref.same(&other.param_ref)
            && self.match_resources.same(&other.match_resources)
            && self.validation_actions.same(&other.validation_actions)
    }
}

impl Same for Binding {
    fn same(&self, other: &Binding) -> bool {
        self.spec.same(&other.spec)
    }
}
