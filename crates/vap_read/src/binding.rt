//! Bindings of policies.

ghost use Rattle.std.specs.Prelude.{◌≡◌, IfOk};

use base_containers::{Shared, Text};
use std::alloc::AllocError;
use vap_match::{Rules, Selector};

/// What is done with a request if there are no params.
#[derive(Clone, Copy)]
pub enum NotFoundAction {
    Allow,
    Deny,
}

/// Which objects are the params: the one of a name or those of a selector. The namespace is empty if none is given.
#[derive(Drop)]
pub struct ParamRef {
    pub name: Option<Text>,
    pub namespace: Text,
    pub selector: Option<Selector>,
    pub parameter_not_found_action: NotFoundAction,
}

/// What is done with each failure. A binding that is read has at least one of these.
#[derive(Clone, Copy)]
pub struct ValidationActions {
    pub deny: bool,
    pub warn: bool,
    pub audit: bool,
}

/// What a binding says. Rules that are absent are like rules that say nothing, which match every request.
pub struct BindingSpec {
    pub policy_name: Text,
    pub param_ref: Option<ParamRef>,
    pub match_resources: Rules,
    pub validation_actions: ValidationActions,
}

impl Drop for BindingSpec {
    fn drop(self) {
        let BindingSpec {
            policy_name: _policy_name,
            param_ref: _param_ref,
            match_resources: _match_resources,
            validation_actions: _validation_actions,
        } = self;
    }
}

/// A binding, which may have several owners.
pub struct Binding {
    pub spec: Shared<BindingSpec>,
}

impl Drop for Binding {
    fn drop(self) {
        let Binding { spec: _spec } = self;
    }
}

impl Binding {
    /// An equal binding: one more owner of the same.
    pub fn copy(&self) -> Result<Binding, AllocError>
        ensures { IfOk result (λ binding. binding ≡ self.now) }
    {
        Ok(Binding {
            spec: self.spec.share()?,
        })
    }
}
