//! How it is shown where the policies of a set are misconfigured.

use std::alloc::{AllocError, Global};
use vap_policy_set::{Misconfigured, PolicySet};

/// Where the policies of a set are misconfigured.
pub fn reported(alloc: Global, set: &PolicySet) -> Result<String, AllocError> {
    let report = set.report(alloc)?;
    let mut out = String::new(alloc);
    for item in report.as_slice() {
        push_item(&mut out, item)?;
    }
    Ok(out)
}

fn push_item(out: &mut String, item: &Misconfigured) -> Result<(), AllocError> {
    let (policy, kind, fault) = (item.policy.as_str(), item.kind.as_str(), item.fault.name());
    let (group, version) = (item.group.as_str(), item.version.as_str());
    write!(out, "{policy} {group}/{version} {kind} {fault}; ")
}
