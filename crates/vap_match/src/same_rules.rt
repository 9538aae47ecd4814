//! Rules.

use crate::rules::{Operation, Rule, Rules, Scope};
use base_containers::Same;

impl Same for Operation {
    fn same(&self, other: &Operation) -> bool {
        match (self, other) {
            (Operation::Create, Operation::Create) => true,
            (Operation::Update, Operation::Update) => true,
            (Operation::Delete, Operation::Delete) => true,
            (Operation::Connect, Operation::Connect) => true,
            (Operation::Any, Operation::Any) => true,
            _ => false,
        }
    }
}

impl Same for Scope {
    fn same(&self, other: &Scope) -> bool {
        match (self, other) {
            (Scope::Any, Scope::Any) => true,
            (Scope::Cluster, Scope::Cluster) => true,
            (Scope::Namespaced, Scope::Namespaced) => true,
            _ => false,
        }
    }
}

impl Same for Rule {
    fn same(&self, other: &Rule) -> bool {
        self.operations.same(&other.operations)
            && self.api_groups.same(&other.api_groups)
            && self.api_versions.same(&other.api_versions)
            && self.resources.same(&other.resources)
            && self.scope.same(&other.scope)
            && self.resource_names.same(&other.resource_names)
    }
}

impl Same for Rules {
    fn same(&self, other: &Rules) -> bool {
        self.resource_rules.same(&other.resource_rules)
            && self
                .exclude_resource_rules
                .same(&other.exclude_resource_rules)
            && self.namespace_selector.same(&other.namespace_selector)
            && self.object_selector.same(&other.object_selector)
    }
}
