//! From an object to its policy.

ghost use Rattle.std.specs.Prelude.{◌≡◌, IfOk, IfErr, IfSome, codes, option_map};
ghost use Rattle.serde_json.specs.Find.{get};
ghost use Rattle.serde_json.specs.View.{view, items_view};
ghost use Rattle.base_containers.specs.Failures.{Answers, IfFault};
ghost use Rattle.vap_match.specs.Parts.{each_item};
ghost use Rattle.vap_read.specs.PolicyFaults.{least_of, least_of_rules, IsLeast};
ghost use Rattle.vap_read.specs.PolicyForm.{applies, has_fault};
ghost use Rattle.vap_read.specs.PolicyReading.{param_kind_of, named_of, reason_of, validation_of, annotation_of};
ghost use Rattle.vap_read.specs.PolicyReading.{failure_policy_of, premises_of, decisions_of, policy_spec_of, read_spec, read_policy};

use crate::counts::has_few;
use crate::messages::have_messages;
use crate::names::has_distinct_names;
use crate::policy::{
    AuditAnnotation, FailurePolicy, NamedExpression, ParamKind, Policy, PolicySpec, Reason,
    Validation,
};
use crate::policy_fault::{PolicyError, PolicyFault};
use crate::policy_form::{failure_word, is_formed, reason_word};
use base_containers::{Items, Shared, Text};
use serde_json::Value as Json;
use std::alloc::{AllocError, Global};
use vap_match::{fault_under, items_in, optional_text, rules_under, text_in};

impl Policy {
    /// The policy that an object is, or the least of its faults.
    pub fn from_json(alloc: Global, json: &Json) -> Result<Policy, PolicyError>
        ensures exact { Answers (read_policy (view json.now)) result }
        ensures least { IfErr result (IfFault (IsLeast (has_fault (view json.now)))) }
    {
        match json.get("spec") {
            Some(found) => read_spec(alloc, found),
            None => Err(PolicyError::Fault(PolicyFault::MissingField)),
        }
    }
}

fn read_spec(alloc: Global, json: &Json) -> Result<Policy, PolicyError>
    ensures exact { Answers (read_spec (view json.now)) result }
    ensures least { IfErr result (IfFault (IsLeast (applies (view json.now)))) }
{
    match fault_of(json) {
        Some(fault) => Err(PolicyError::Fault(fault)),
        None => Ok(policy_of(alloc, json)?),
    }
}

fn fault_of(json: &Json) -> Option<PolicyFault>
    ensures exact { result ≡ least_of (applies (view json.now)) }
    ensures least { IfSome result (λ fault. IsLeast (applies (view json.now)) fault) }
{
    if !is_formed(json) {
        Some(PolicyFault::MissingField)
    } else if !has_few(json) {
        Some(PolicyFault::TooMany)
    } else if !have_messages(json) {
        Some(PolicyFault::BadMessage)
    } else if !has_distinct_names(json) {
        Some(PolicyFault::DuplicateName)
    } else {
        fault_of_rules(json)
    }
}

fn fault_of_rules(json: &Json) -> Option<PolicyFault>
    ensures { result ≡ least_of_rules (applies (view json.now)) }
{
    match fault_under(json, "matchConstraints") {
        Some(fault) => Some(PolicyFault::Rules(fault)),
        None => None,
    }
}

// ---- the policy

fn param_kind_of(alloc: Global, json: &Json) -> Result<ParamKind, AllocError>
    ensures { IfOk result (λ kind. kind ≡ param_kind_of (view json.now)) }
{
    Ok(ParamKind {
        api_version: Text::from_str(alloc, text_in(json, "apiVersion"))?,
        kind: Text::from_str(alloc, text_in(json, "kind"))?,
    })
}

fn param_kind_in(alloc: Global, json: &Json) -> Result<Option<ParamKind>, AllocError>
    ensures { IfOk result (λ kind. kind ≡ option_map param_kind_of (get (codes "paramKind") (view json.now))) }
{
    match json.get("paramKind") {
        Some(found) => Ok(Some(param_kind_of(alloc, found)?)),
        None => Ok(None),
    }
}

fn named_of(alloc: Global, json: &Json) -> Result<NamedExpression, AllocError>
    ensures { IfOk result (λ named. named ≡ named_of (view json.now)) }
{
    Ok(NamedExpression {
        name: Text::from_str(alloc, text_in(json, "name"))?,
        expression: Text::from_str(alloc, text_in(json, "expression"))?,
    })
}

fn each_named(alloc: Global, items: &[Json]) -> Result<Items<NamedExpression>, AllocError>
    ensures { IfOk result (λ named. named ≡ each_item named_of (items_view items.now)) }
{
    let mut named = Vec::with_capacity(alloc, items.len())?;
    for item in items {
        named.push(named_of(alloc, item)?)?;
    }
    Ok(Items::from_vec(named))
}

fn reason_of(json: &Json) -> Reason
    ensures { result ≡ reason_of (view json.now) }
{
    match reason_word(text_in(json, "reason")) {
        Some(reason) => reason,
        None => Reason::Invalid,
    }
}

fn validation_of(alloc: Global, json: &Json) -> Result<Validation, AllocError>
    ensures { IfOk result (λ validation. validation ≡ validation_of (view json.now)) }
{
    Ok(Validation {
        expression: Text::from_str(alloc, text_in(json, "expression"))?,
        message: optional_text(alloc, json, "message")?,
        message_expression: optional_text(alloc, json, "messageExpression")?,
        reason: reason_of(json),
    })
}

fn validations_of(alloc: Global, items: &[Json]) -> Result<Items<Validation>, AllocError>
    ensures { IfOk result (λ validations. validations ≡ each_item validation_of (items_view items.now)) }
{
    let mut validations = Vec::with_capacity(alloc, items.len())?;
    for item in items {
        validations.push(validation_of(alloc, item)?)?;
    }
    Ok(Items::from_vec(validations))
}

fn annotation_of(alloc: Global, json: &Json) -> Result<AuditAnnotation, AllocError>
    ensures { IfOk result (λ annotation. annotation ≡ annotation_of (view json.now)) }
{
    Ok(AuditAnnotation {
        key: Text::from_str(alloc, text_in(json, "key"))?,
        value_expression: Text::from_str(alloc, text_in(json, "valueExpression"))?,
    })
}

fn annotations_of(alloc: Global, items: &[Json]) -> Result<Items<AuditAnnotation>, AllocError>
    ensures { IfOk result (λ annotations. annotations ≡ each_item annotation_of (items_view items.now)) }
{
    let mut annotations = Vec::with_capacity(alloc, items.len())?;
    for item in items {
        annotations.push(annotation_of(alloc, item)?)?;
    }
    Ok(Items::from_vec(annotations))
}

fn failure_policy_of(json: &Json) -> FailurePolicy
    ensures { result ≡ failure_policy_of (view json.now) }
{
    match failure_word(text_in(json, "failurePolicy")) {
        Some(failure_policy) => failure_policy,
        None => FailurePolicy::Fail,
    }
}

/// What params and conditions there are.
#[derive(Drop)]
struct Premises {
    param_kind: Option<ParamKind>,
    match_conditions: Items<NamedExpression>,
    variables: Items<NamedExpression>,
}

fn premises_of(alloc: Global, json: &Json) -> Result<Premises, AllocError>
    ensures { IfOk result (λ premises. premises ≡ premises_of (view json.now)) }
{
    Ok(Premises {
        param_kind: param_kind_in(alloc, json)?,
        match_conditions: each_named(alloc, items_in(json, "matchConditions"))?,
        variables: each_named(alloc, items_in(json, "variables"))?,
    })
}

/// What is decided, and what is kept of it.
#[derive(Drop)]
struct Decisions {
    validations: Items<Validation>,
    audit_annotations: Items<AuditAnnotation>,
}

fn decisions_of(alloc: Global, json: &Json) -> Result<Decisions, AllocError>
    ensures { IfOk result (λ decisions. decisions ≡ decisions_of (view json.now)) }
{
    Ok(Decisions {
        validations: validations_of(alloc, items_in(json, "validations"))?,
        audit_annotations: annotations_of(alloc, items_in(json, "auditAnnotations"))?,
    })
}

fn policy_spec_of(alloc: Global, json: &Json) -> Result<PolicySpec, AllocError>
    ensures { IfOk result (λ spec. spec ≡ policy_spec_of (view json.now)) }
{
    let premises = premises_of(alloc, json)?;
    let decisions = decisions_of(alloc, json)?;
    Ok(PolicySpec {
        param_kind: premises.param_kind,
        match_constraints: rules_under(alloc, json, "matchConstraints")?,
        match_conditions: premises.match_conditions,
        variables: premises.variables,
        validations: decisions.validations,
        audit_annotations: decisions.audit_annotations,
        failure_policy: failure_policy_of(json),
    })
}

fn policy_of(alloc: Global, json: &Json) -> Result<Policy, AllocError>
    ensures { IfOk result (λ policy. policy.spec ≡ policy_spec_of (view json.now)) }
{
    let spec = policy_spec_of(alloc, json)?;
    Ok(Policy {
        spec: Shared::new(alloc, spec)?,
    })
}
