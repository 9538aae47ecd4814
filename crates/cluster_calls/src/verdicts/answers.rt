//! What is answered to what was found.

use crate::matching::agreed;
use crate::verdicts::found::{findings_of, notes_of};
use calls_notation::json;
use std::alloc::{AllocError, Global};
use vap_policy_verdict::{Verdict, answer_text, unfit_verdict, verdict_of};

/// The uid of each request.
const UID: &str = "u1";

fn line_of(alloc: Global, verdict: Verdict) -> Result<String, AllocError> {
    answer_text(alloc, UID, &verdict)
}

/// The line of a verdict, which is that of its copy too.
fn line_twice(alloc: Global, verdict: &Verdict) -> Result<String, AllocError> {
    let copy = line_of(alloc, verdict.copy()?)?;
    let first = answer_text(alloc, UID, verdict)?;
    agreed(alloc, first.as_str(), copy.as_str())
}

/// The line that answers what a row says was found.
pub fn found(alloc: Global, row: &str, revision: u64, charged: u64) -> Result<String, AllocError> {
    let said = json(alloc, row)?;
    let findings = findings_of(alloc, &said)?;
    let notes = notes_of(alloc, &said)?;
    let verdict = verdict_of(
        alloc,
        findings.as_slice(),
        notes.as_slice(),
        revision,
        charged,
    )?;
    line_twice(alloc, &verdict)
}

/// The line that answers if the object has this fault, at revision 1.
pub fn unfit(alloc: Global, fault: &str) -> Result<String, AllocError> {
    line_of(alloc, unfit_verdict(alloc, fault, 1)?)
}
