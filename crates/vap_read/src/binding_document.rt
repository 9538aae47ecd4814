//! From an object to its binding.

ghost use Rattle.std.specs.Prelude.{◌≡◌, IfOk, IfErr, IfSome, codes, option_map};
ghost use Rattle.serde_json.specs.Find.{get};
ghost use Rattle.serde_json.specs.View.{view};
ghost use Rattle.base_containers.specs.Failures.{Answers, IfFault};
ghost use Rattle.vap_match.specs.SelectorForm.{selector_of};
ghost use Rattle.vap_read.specs.PolicyFaults.{least_of, least_of_rules, IsLeast};
ghost use Rattle.vap_read.specs.BindingForm.{applies, has_fault};
ghost use Rattle.vap_read.specs.BindingReading.{param_ref_of, actions_of, binding_spec_of, read_spec, read_binding};

use crate::binding::{Binding, BindingSpec, NotFoundAction, ParamRef, ValidationActions};
use crate::binding_form::{
    denies_and_warns, is_formed, may_have_selector, may_refer, names, not_found_action,
};
use crate::policy_fault::{PolicyError, PolicyFault};
use base_containers::{Shared, Text};
use serde_json::Value as Json;
use std::alloc::{AllocError, Global};
use vap_match::{
    MatchFault, Selector, fault_under, items_in, optional_text, rules_under, selector_of, text_in,
};

impl Binding {
    /// The binding that an object is, or the least of its faults.
    pub fn from_json(alloc: Global, json: &Json) -> Result<Binding, PolicyError>
        ensures exact { Answers (read_binding (view json.now)) result }
        ensures least { IfErr result (IfFault (IsLeast (has_fault (view json.now)))) }
    {
        match json.get("spec") {
            Some(found) => read_spec(alloc, found),
            None => Err(PolicyError::Fault(PolicyFault::MissingField)),
        }
    }
}

fn read_spec(alloc: Global, json: &Json) -> Result<Binding, PolicyError>
    ensures exact { Answers (read_spec (view json.now)) result }
    ensures least { IfErr result (IfFault (IsLeast (applies (view json.now)))) }
{
    match fault_of(json) {
        Some(fault) => Err(PolicyError::Fault(fault)),
        None => Ok(binding_of(alloc, json)?),
    }
}

fn fault_of(json: &Json) -> Option<PolicyFault>
    ensures exact { result ≡ least_of (applies (view json.now)) }
    ensures least { IfSome result (λ fault. IsLeast (applies (view json.now)) fault) }
{
    if !is_formed(json) {
        Some(PolicyFault::MissingField)
    } else if denies_and_warns(json) {
        Some(PolicyFault::DenyWithWarn)
    } else if !may_refer(json) {
        Some(PolicyFault::BadParamRef)
    } else {
        fault_of_rules(json)
    }
}

/// The least fault of the selector and the rules of a binding.
fn fault_of_rules(json: &Json) -> Option<PolicyFault>
    ensures { result ≡ least_of_rules (applies (view json.now)) }
{
    if !may_have_selector(json) {
        Some(PolicyFault::Rules(MatchFault::BadOperator))
    } else {
        match fault_under(json, "matchResources") {
            Some(fault) => Some(PolicyFault::Rules(fault)),
            None => None,
        }
    }
}

// ---- the binding

fn selector_in(alloc: Global, json: &Json) -> Result<Option<Selector>, AllocError>
    ensures { IfOk result (λ selector. selector ≡ option_map selector_of (get (codes "selector") (view json.now))) }
{
    match json.get("selector") {
        Some(found) => Ok(Some(selector_of(alloc, found)?)),
        None => Ok(None),
    }
}

fn param_ref_of(alloc: Global, json: &Json) -> Result<ParamRef, AllocError>
    ensures { IfOk result (λ param_ref. param_ref ≡ param_ref_of (view json.now)) }
{
    let parameter_not_found_action = match not_found_action(json) {
        Some(action) => action,
        None => NotFoundAction::Deny,
    };
    Ok(ParamRef {
        name: optional_text(alloc, json, "name")?,
        namespace: Text::from_str(alloc, text_in(json, "namespace"))?,
        selector: selector_in(alloc, json)?,
        parameter_not_found_action,
    })
}

fn param_ref_in(alloc: Global, json: &Json) -> Result<Option<ParamRef>, AllocError>
    ensures { IfOk result (λ param_ref. param_ref ≡ option_map param_ref_of (get (codes "paramRef") (view json.now))) }
{
    match json.get("paramRef") {
        Some(found) => Ok(Some(param_ref_of(alloc, found)?)),
        None => Ok(None),
    }
}

fn actions_of(json: &Json) -> ValidationActions
    ensures { result ≡ actions_of (view json.now) }
{
    let actions = items_in(json, "validationActions");
    ValidationActions {
        deny: names(actions, "Deny"),
        warn: names(actions, "Warn"),
        audit: names(actions, "Audit"),
    }
}

fn binding_spec_of(alloc: Global, json: &Json) -> Result<BindingSpec, AllocError>
    ensures { IfOk result (λ spec. spec ≡ binding_spec_of (view json.now)) }
{
    Ok(BindingSpec {
        policy_name: Text::from_str(alloc, text_in(json, "policyName"))?,
        param_ref: param_ref_in(alloc, json)?,
        match_resources: rules_under(alloc, json, "matchResources")?,
        validation_actions: actions_of(json),
    })
}

fn binding_of(alloc: Global, json: &Json) -> Result<Binding, AllocError>
    ensures { IfOk result (λ binding. binding.spec ≡ binding_spec_of (view json.now)) }
{
    let spec = binding_spec_of(alloc, json)?;
    Ok(Binding {
        spec: Shared::new(alloc, spec)?,
    })
}
