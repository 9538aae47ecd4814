//! Which policies of a set are lent for a resource of a group.

use crate::matching::objects::after;
use base_containers::Shared;
use std::alloc::{AllocError, Global};
use vap_policy_set::{BoundPolicy, PolicySet};

/// The names of the policies of the set of the objects that lines leave, and of those that are lent for a resource of a group.
pub fn lent(alloc: Global, row: &str, group: &str, resource: &str) -> Result<String, AllocError> {
    let objects = after(alloc, row)?;
    match &PolicySet::build(alloc, &objects) {
        Ok(set) => told(alloc, set, group, resource),
        Err(_) => Err(AllocError),
    }
}

fn told(alloc: Global, set: &PolicySet, group: &str, resource: &str) -> Result<String, AllocError> {
    let mut out = String::from_str(alloc, "all:")?;
    push_names(&mut out, set.policies())?;
    out.push_str("lent:")?;
    push_names(&mut out, set.policies_on(group, resource))?;
    Ok(out)
}

fn push_names(out: &mut String, policies: &[Shared<BoundPolicy>]) -> Result<(), AllocError> {
    for policy in policies {
        write!(out, " {}", policy.get().name.as_str())?;
    }
    out.push_str("; ")
}
