//! The failures that are kept with a verdict.

use serde_json::Value as Json;
use std::alloc::{AllocError, Global};
use vap_cli::{DocumentError, document_of};
use vap_match::{items_of, text_in};
use vap_policy_verdict::Verdict;

/// Under which key they are.
const FAILURES: &str = "validation.policy.admission.k8s.io/validation_failure";

/// How many failures there are: all, and among them those that are false validations, and those of evaluations that ended with an error.
#[derive(Clone, Copy, Debug, PartialEq, Eq)]
pub struct Failures {
    pub all: u64,
    pub denials: u64,
    pub errors: u64,
}

/// Whether a message is that of an evaluation that ended with an error.
fn is_error(message: &str) -> bool {
    let is_of_evaluation = message.starts_with("expression '")
        || message.starts_with("match condition '");
    is_of_evaluation && message.contains("' resulted in error: ")
}

fn with_failure(failures: Failures, failure: &Json) -> Failures {
    let is_error = is_error(text_in(failure, "message"));
    let is_denial = !is_error && failure.get("expressionIndex").is_some();
    Failures {
        all: failures.all.saturating_add(1),
        denials: failures.denials.saturating_add(u64::from(is_denial)),
        errors: failures.errors.saturating_add(u64::from(is_error)),
    }
}

fn failures_among(kept: &Json) -> Failures {
    let mut failures = Failures {
        all: 0,
        denials: 0,
        errors: 0,
    };
    for failure in items_of(kept) {
        failures = with_failure(failures, failure);
    }
    failures
}

/// The failures that are kept with a verdict.
pub fn failures_of(alloc: Global, verdict: &Verdict) -> Result<Failures, AllocError> {
    let kept = match verdict.annotations.get().get(FAILURES) {
        Some(text) => text.as_str(),
        None => "[]",
    };
    match document_of(alloc, kept.as_bytes()) {
        Ok(json) => Ok(failures_among(&json)),
        Err(DocumentError::Fault(_)) => Ok(failures_among(&Json::Null)),
        Err(DocumentError::OutOfMemory) => Err(AllocError),
    }
}
