//! Rules of a policy and of a binding: which requests they are for.

use crate::selector::Selector;
use base_containers::{Items, Text};

/// An operation that a rule names.
#[derive(Clone, Copy)]
pub enum Operation {
    Create,
    Update,
    Delete,
    Connect,
    Any,
}

/// Which requests a rule is for, by where their objects are.
#[derive(Clone, Copy)]
pub enum Scope {
    Any,
    Cluster,
    Namespaced,
}

/// A rule: requests by operation, group, version, resource and scope, and by name if it names any.
#[derive(Drop)]
pub struct Rule {
    pub operations: Items<Operation>,
    pub api_groups: Items<Text>,
    pub api_versions: Items<Text>,
    pub resources: Items<Text>,
    pub scope: Scope,
    pub resource_names: Items<Text>,
}

/// What a policy's `matchConstraints` or a binding's `matchResources` holds. Its `matchPolicy` says nothing more: a
/// request is matched by its own group, version and resource.
pub struct Rules {
    pub resource_rules: Items<Rule>,
    pub exclude_resource_rules: Items<Rule>,
    pub namespace_selector: Option<Selector>,
    pub object_selector: Option<Selector>,
}

impl Drop for Rules {
    fn drop(self) {
        let Rules {
            resource_rules: _resource_rules,
            exclude_resource_rules: _exclude_resource_rules,
            namespace_selector: _namespace_selector,
            object_selector: _object_selector,
        } = self;
    }
}
