//! What is without effect: policies that no binding names, bindings whose policy is not there, kinds of params that are not known.

use crate::scope::object_type_of;
use base_containers::{Items, Keyed, Shared, Text};
use std::alloc::{AllocError, Global};
use vap_policy_set::{BoundPolicy, PolicySet};
use vap_read::{ParamKind, Policy};
use vap_read_objects::{Kind, Objects, kind_of_params};

/// A binding whose policy is not there.
#[derive(Drop)]
pub struct Stray {
    pub binding: Text,
    pub policy: Text,
}

/// A policy whose params are of a kind that is not known.
#[derive(Drop)]
pub struct UnknownParams {
    pub policy: Text,
    pub api_version: Text,
    pub kind: Text,
}

/// The policies that no binding names.
pub fn unbound_in(
    alloc: Global,
    policies: &[Shared<BoundPolicy>],
) -> Result<Items<Text>, AllocError> {
    let mut unbound = Items::new(alloc);
    for bound in policies {
        let bound = bound.get();
        if bound.bindings.is_empty() {
            unbound.push(bound.name.copy()?)?;
        }
    }
    Ok(unbound)
}

fn has_policy(policies: &[Keyed<Policy>], name: &str) -> bool {
    for policy in policies {
        if policy.key.as_str() == name {
            return true;
        }
    }
    false
}

/// The bindings whose policy is not there, by name.
pub fn strays_in(alloc: Global, objects: &Objects) -> Result<Items<Stray>, AllocError> {
    let policies = objects.policies(alloc)?;
    let bindings = objects.bindings(alloc)?;
    let mut strays = Items::new(alloc);
    for binding in bindings.as_slice() {
        let policy = &binding.value.spec.get().policy_name;
        if !has_policy(policies.as_slice(), policy.as_str()) {
            let policy = policy.copy()?;
            let binding = binding.key.copy()?;
            strays.push(Stray { binding, policy })?;
        }
    }
    Ok(strays)
}

fn is_known(kinds: &[Kind], params: &ParamKind) -> bool {
    match kind_of_params(kinds, params) {
        Some(kind) => object_type_of(kind).is_some(),
        None => false,
    }
}

fn put_unknown(
    bound: &BoundPolicy,
    kinds: &[Kind],
    unknown: &mut Items<UnknownParams>,
) -> Result<(), AllocError> {
    match &bound.policy.spec.get().param_kind {
        Some(params) if !is_known(kinds, params) => {
            let policy = bound.name.copy()?;
            let api_version = params.api_version.copy()?;
            let kind = params.kind.copy()?;
            unknown.push(UnknownParams {
                policy,
                api_version,
                kind,
            })
        }
        _ => Ok(()),
    }
}

/// The policies whose params are of a kind that is not known.
pub fn unknown_params_in(
    alloc: Global,
    set: &PolicySet,
) -> Result<Items<UnknownParams>, AllocError> {
    let mut unknown = Items::new(alloc);
    for bound in set.policies() {
        put_unknown(bound.get(), set.kinds(), &mut unknown)?;
    }
    Ok(unknown)
}
