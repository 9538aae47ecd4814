//! Annotations.

ghost use Rattle.std.specs.Prelude.{◌≡◌, ◌≤◌, ◌++◌, true, List, sum_by, IfOk, IsErrOf, OnOk, None};
ghost use Rattle.std.specs.List.{Any, flat_map};
ghost use Rattle.base_containers.specs.declared.failed.Failed.TheVariants.{Fault};
ghost use Rattle.cel_machine.specs.declared.fault.RunFault.TheVariants.{Pattern};
ghost use Rattle.cel_value.specs.declared.cel_type.CelType.{CelType};
ghost use Rattle.cel_operators.specs.Outcomes.{slots_fit};
ghost use Rattle.cel_estimate.specs.Estimate.{budget};
ghost use Rattle.vap_policy_programs.specs.Pairs.{annotation_estimate, most};
ghost use Rattle.vap_policy_programs.specs.Ready.{IsAt, AreAnnotationsAt};
ghost use Rattle.vap_policy_evaluation.specs.Annotations.{note_of, note_by, note, note_failure_by, note_failure, note_charge};
ghost use Rattle.vap_policy_evaluation.specs.PolicyPatterns.{AnnotationMayMatch};

use crate::failures::push_error;
use crate::found::{Failure, Note};
use crate::runs::run;
use crate::words::expression_error;
use base_containers::Text;
use cel_machine::evaluation::Ran;
use cel_machine::{Matchers, RunError, Slots};
use cel_value::{CelError, Value};
use std::alloc::{AllocError, Global};
use vap_policy_programs::Annotation;
use vap_read::FailurePolicy;

/// Notes a text, unless it is empty.
fn push_note(key: &Text, value: Text, notes: &mut Vec<Note>) -> Result<(), AllocError>
    ensures { OnOk result (notes.new.items ≡ notes.old.items ++ note_of key.now value) }
{
    if value.as_str().len() > 0 {
        notes.push(Note {
            key: key.copy()?,
            value,
        })?;
    }
    Ok(())
}

/// Notes what an annotation gave, if that is a text.
fn note_outcome(
    key: &Text,
    outcome: Result<Value, CelError>,
    notes: &mut Vec<Note>,
) -> Result<(), AllocError>
    ensures { OnOk result (notes.new.items ≡ notes.old.items ++ note_by key.now outcome) }
{
    match outcome {
        Ok(Value::Text(text)) => push_note(key, text, notes),
        _ => Ok(()),
    }
}

/// Pushes the failure of an annotation with an error.
fn push_if_error(
    alloc: Global,
    policy: FailurePolicy,
    text: &Text,
    outcome: &Result<Value, CelError>,
    failures: &mut Vec<Failure>,
) -> Result<(), AllocError>
    ensures { OnOk result (failures.new.items ≡ failures.old.items ++ note_failure_by policy text.now outcome.now) }
{
    match outcome {
        Ok(_) => Ok(()),
        Err(error) => push_error(
            policy,
            None,
            expression_error(alloc, text, *error)?,
            failures,
        ),
    }
}

/// Runs one annotation.
#[tactic(auto, unfolding(crate::specs::Annotations::note, crate::specs::Annotations::note_failure))]
fn annotate(
    alloc: Global,
    policy: FailurePolicy,
    annotation: &Annotation,
    slots: &Slots<'_>,
    matchers: &mut Matchers,
    failures: &mut Vec<Failure>,
    notes: &mut Vec<Note>,
) -> Result<u64, RunError>
    ghost types: { List CelType }
    requires at { IsAt types annotation.now.value }
    requires fit { slots_fit types slots.now ≡ true }
    ensures failures { OnOk result (failures.new.items ≡ failures.old.items ++ note_failure policy slots.now annotation.now) }
    ensures notes { OnOk result (notes.new.items ≡ notes.old.items ++ note slots.now annotation.now) }
    ensures charged { IfOk result (λ n. n ≡ note_charge slots.now annotation.now) }
    ensures within { IfOk result (λ n. n ≤ annotation_estimate annotation.now) }
    ensures small { IfOk result (λ n. n ≤ budget) }
    ensures pattern { IsErrOf result (Fault Pattern) → AnnotationMayMatch annotation.now }
{
    let ran = run(alloc, &annotation.value, slots, matchers)?;
    let Ran { outcome, charged } = ran;
    push_if_error(alloc, policy, annotation.value.text(), &outcome, failures)?;
    note_outcome(&annotation.key, outcome, notes)?;
    Ok(charged)
}

/// Runs the annotations in order.
pub fn annotate_all(
    alloc: Global,
    policy: FailurePolicy,
    annotations: &[Annotation],
    slots: &Slots<'_>,
    matchers: &mut Matchers,
    failures: &mut Vec<Failure>,
    notes: &mut Vec<Note>,
) -> Result<u64, RunError>
    ghost types: { List CelType }
    requires at { AreAnnotationsAt types annotations.now }
    requires fit { slots_fit types slots.now ≡ true }
    requires few { sum_by annotation_estimate annotations.now ≤ most }
    ensures failures { OnOk result (failures.new.items ≡ failures.old.items ++ flat_map (note_failure policy slots.now) annotations.now) }
    ensures notes { OnOk result (notes.new.items ≡ notes.old.items ++ flat_map (note slots.now) annotations.now) }
    ensures charged { IfOk result (λ n. n ≡ sum_by (note_charge slots.now) annotations.now) }
    ensures within { IfOk result (λ n. n ≤ sum_by annotation_estimate annotations.now) }
    ensures pattern { IsErrOf result (Fault Pattern) → Any AnnotationMayMatch annotations.now }
{
    let mut charged: u64 = 0;
    for annotation in annotations {
        let cost = annotate(alloc, policy, annotation, slots, matchers, failures, notes)?;
        charged += cost;
    }
    Ok(charged)
}
