//! From the text of a row to that of a review, and from a refusal to its name.

use std::alloc::{AllocError, Global};
use vap_match::{MatchError, ReviewError};
use vap_read::PolicyError;

/// The text of the review whose request has these members, and those that it needs beside them.
pub fn review(alloc: Global, members: &str) -> Result<String, AllocError> {
    format!(in alloc; "{{\"request\":{{\"uid\":\"u\",\"kind\":{{}},{members}}}}}")
}

/// What a value and its copy say, if both say the same.
pub fn agreed(alloc: Global, value: &str, copy: &str) -> Result<String, AllocError> {
    String::from_str(
        alloc,
        if value == copy {
            value
        } else {
            "a copy differs"
        },
    )
}

/// The sign of what holds or not.
pub fn sign(holds: bool) -> &'static str {
    if holds { "+" } else { "." }
}

/// The name of a fault of rules or of a selector.
pub fn match_refusal(error: MatchError) -> Result<&'static str, AllocError> {
    match error {
        MatchError::Fault(fault) => Ok(fault.name()),
        MatchError::OutOfMemory => Err(AllocError),
    }
}

/// The name of a fault of a review.
pub fn review_refusal(alloc: Global, error: ReviewError) -> Result<String, AllocError> {
    match error {
        ReviewError::Fault(fault) => String::from_str(alloc, fault.name()),
        ReviewError::OutOfMemory => Err(AllocError),
    }
}

/// The name of a fault of a policy or a binding.
pub fn policy_refusal(alloc: Global, error: PolicyError) -> Result<String, AllocError> {
    match error {
        PolicyError::Fault(fault) => String::from_str(alloc, fault.name()),
        PolicyError::OutOfMemory => Err(AllocError),
    }
}
