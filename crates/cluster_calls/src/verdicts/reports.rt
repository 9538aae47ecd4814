//! Where the policies of a set are misconfigured.

use crate::matching::objects::after;
use report_notation::reported;
use std::alloc::{AllocError, Global};
use vap_policy_set::{BuildError, BuildFault, PolicySet};

/// The items of the report on the set of the objects that lines leave.
pub fn report(alloc: Global, row: &str) -> Result<String, AllocError> {
    let objects = after(alloc, row)?;
    told(alloc, PolicySet::build(alloc, &objects))
}

fn told(alloc: Global, built: Result<PolicySet, BuildError>) -> Result<String, AllocError> {
    match &built {
        Ok(set) => reported(alloc, set),
        Err(BuildError::Fault(BuildFault::Unverified { .. })) => String::from_str(
            alloc,
            "unverified",
        ),
        Err(BuildError::OutOfMemory) => Err(AllocError),
    }
}
