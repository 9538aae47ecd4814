//! The annotations that are kept with a decision.

ghost use Rattle.std.specs.Prelude.{◌≡◌, [], ◌∷◌, ◌++◌, IfOk};
ghost use Rattle.std.specs.List.{list_any};
ghost use Rattle.vap_policy_verdict.specs.DecisionAnnotations.{audits, failure_key, failure_annotation, grouped, AreByKey};
ghost use Rattle.vap_policy_verdict.specs.DecisionAnnotations.{found_annotations, annotations_of};

use crate::annotation_entries::entries_of;
use crate::annotation_values::joined_values;
use crate::decision_failures::failures_text;
use crate::finding::{Finding, Note};
use base_containers::{Keyed, Text, TextMap};
use std::alloc::{AllocError, Global};

fn is_any_audited(findings: &[Finding]) -> bool
    ensures { result ≡ list_any audits findings.now }
{
    for finding in findings {
        if finding.actions.audit {
            return true;
        }
    }
    false
}

fn under_key(alloc: Global, key: &str, text: Text) -> Result<TextMap<Text>, AllocError>
    ensures { IfOk result (λ made. made ≡ record { key = key.now; value = text } ∷ []) }
{
    let mut made = TextMap::new(alloc);
    made.insert(Text::from_str(alloc, key)?, text)?;
    Ok(made)
}

/// The key of the failures, in a function of its own, so that no other proof reads so long a text.
#[tactic(auto, unfolding(crate::specs::DecisionAnnotations::failure_key))]
fn failure_key() -> &'static str
    ensures { result.now ≡ failure_key }
{
    "validation.policy.admission.k8s.io/validation_failure"
}

#[tactic(auto, unfolding(crate::specs::DecisionAnnotations::failure_annotation))]
fn failure_annotation(alloc: Global, findings: &[Finding]) -> Result<TextMap<Text>, AllocError>
    ensures { IfOk result (λ made. made ≡ failure_annotation findings.now) }
{
    if is_any_audited(findings) {
        let text = failures_text(alloc, findings)?;
        under_key(alloc, failure_key(), text)
    } else {
        Ok(TextMap::new(alloc))
    }
}

fn annotations_from(
    alloc: Global,
    findings: &[Finding],
    entries: &[Keyed<Text>],
) -> Result<TextMap<Text>, AllocError>
    ensures { IfOk result (AreByKey (failure_annotation findings.now ++ grouped entries.now)) }
{
    let mut made = failure_annotation(alloc, findings)?;
    for (place, entry) in entries.iter().enumerate() {
        if made.get(entry.key.as_str()).is_none() {
            // None of the entries before has this key.
            let values = joined_values(alloc, entry.key.as_str(), &entries[place..])?;
            made.insert(entry.key.copy()?, values)?;
        }
    }
    Ok(made)
}

/// The failures whose bindings audit, under their key, and the values of notes under theirs.
pub fn annotations_of(
    alloc: Global,
    findings: &[Finding],
    notes: &[Note],
) -> Result<TextMap<Text>, AllocError>
    ensures exact { IfOk result (λ made. made ≡ annotations_of findings.now notes.now) }
    ensures by_key { IfOk result (AreByKey (found_annotations findings.now notes.now)) }
{
    let entries = entries_of(alloc, notes)?;
    annotations_from(alloc, findings, entries.as_slice())
}
