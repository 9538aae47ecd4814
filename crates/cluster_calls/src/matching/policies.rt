//! Which objects are policies, and what they say.

use crate::matching::read::{agreed, policy_refusal};
use calls_notation::{Asked, json, unknown};
use std::alloc::{AllocError, Global};
use vap_match::Rules;
use vap_read::{FailurePolicy, NamedExpression, Policy, PolicySpec, Reason, Validation};

/// The answer to a call of policies.
pub fn answer(alloc: Global, asked: &Asked) -> Result<String, AllocError> {
    match asked.call {
        "policy" => policy(alloc, asked.input),
        "with" => policy_with(alloc, asked.input),
        "numbers" => faults_of(alloc, asked.input, asked.text(0), asked.text(1)),
        _ => unknown(alloc),
    }
}

/// An object up to the other members of what it says.
const OPENING: &str =
    r#"{"spec":{"matchConstraints":{"resourceRules":[{"operations":["CREATE"],"apiGroups":["g"],
    "apiVersions":["v"],"resources":["r","s"]}]},"#;

/// The text of an optional member, or a dash.
pub fn or_dash(text: &Option<base_containers::Text>) -> &str {
    match text {
        Some(text) => text.as_str(),
        None => "-",
    }
}

fn reason_name(reason: Reason) -> &'static str {
    match reason {
        Reason::Unauthorized => "Unauthorized",
        Reason::Forbidden => "Forbidden",
        Reason::Invalid => "Invalid",
        Reason::RequestEntityTooLarge => "RequestEntityTooLarge",
    }
}

/// Writes the resources of the rules, and whether there are selectors.
pub fn push_rules(out: &mut String, rules: &Rules) -> Result<(), AllocError> {
    for rule in rules.resource_rules.as_slice() {
        for resource in rule.resources.as_slice() {
            write!(out, "{},", resource.as_str())?;
        }
    }
    if rules.namespace_selector.is_some() {
        out.push_str("namespace")?;
    }
    if rules.object_selector.is_some() {
        out.push_str("object")?;
    }
    Ok(())
}

fn push_named(out: &mut String, named: &[NamedExpression]) -> Result<(), AllocError> {
    out.push_str(";")?;
    for one in named {
        write!(out, "{}={},", one.name.as_str(), one.expression.as_str())?;
    }
    Ok(())
}

fn push_validations(out: &mut String, validations: &[Validation]) -> Result<(), AllocError> {
    out.push_str(";")?;
    for one in validations {
        let (message, expression) = (or_dash(&one.message), or_dash(&one.message_expression));
        let reason = reason_name(one.reason);
        write!(
            out,
            "{}:{message}:{expression}:{reason},",
            one.expression.as_str()
        )?;
    }
    Ok(())
}

fn push_annotations(out: &mut String, spec: &PolicySpec) -> Result<(), AllocError> {
    out.push_str(";")?;
    for one in spec.audit_annotations.as_slice() {
        write!(
            out,
            "{}={},",
            one.key.as_str(),
            one.value_expression.as_str()
        )?;
    }
    Ok(())
}

fn push_kind(out: &mut String, spec: &PolicySpec) -> Result<(), AllocError> {
    match &spec.param_kind {
        Some(kind) => write!(out, "{} {};", kind.api_version.as_str(), kind.kind.as_str()),
        None => out.push_str("-;"),
    }
}

fn failure_name(failure_policy: FailurePolicy) -> &'static str {
    match failure_policy {
        FailurePolicy::Fail => ";Fail",
        FailurePolicy::Ignore => ";Ignore",
    }
}

/// What a policy says; of its rules, the resources.
pub fn shown(alloc: Global, spec: &PolicySpec) -> Result<String, AllocError> {
    let mut out = String::new(alloc);
    push_kind(&mut out, spec)?;
    push_rules(&mut out, &spec.match_constraints)?;
    push_named(&mut out, spec.match_conditions.as_slice())?;
    push_named(&mut out, spec.variables.as_slice())?;
    push_validations(&mut out, spec.validations.as_slice())?;
    push_annotations(&mut out, spec)?;
    out.push_str(failure_name(spec.failure_policy))?;
    Ok(out)
}

fn shown_of(alloc: Global, policy: Policy) -> Result<String, AllocError> {
    shown(alloc, policy.spec.get())
}

/// What a policy and its copy say, if both say the same.
fn shown_twice(alloc: Global, policy: &Policy) -> Result<String, AllocError> {
    let copy = shown_of(alloc, policy.copy()?)?;
    let first = shown(alloc, policy.spec.get())?;
    agreed(alloc, first.as_str(), copy.as_str())
}

/// What a policy says, which a copy does too, or the object's fault.
fn policy(alloc: Global, row: &str) -> Result<String, AllocError> {
    match Policy::from_json(alloc, &json(alloc, row)?) {
        Ok(policy) => shown_twice(alloc, &policy),
        Err(error) => policy_refusal(alloc, error),
    }
}

/// The same for the members of what a policy says, beside rules.
fn policy_with(alloc: Global, members: &str) -> Result<String, AllocError> {
    let text = format!(in alloc; "{OPENING}{members}}}}}")?;
    policy(alloc, text.as_str())
}

/// The fault of a policy, empty if there is none.
fn fault(alloc: Global, members: &str) -> Result<String, AllocError> {
    let text = format!(in alloc; "{OPENING}{members}}}}}")?;
    match Policy::from_json(alloc, &json(alloc, text.as_str())?) {
        Ok(_) => Ok(String::new(alloc)),
        Err(error) => policy_refusal(alloc, error),
    }
}

fn fault_of_so_many(
    alloc: Global,
    opening: &str,
    count: usize,
    before: &str,
    behind: &str,
) -> Result<String, AllocError> {
    let mut text = String::from_str(alloc, opening)?;
    for place in 1..count {
        write!(text, "{before}{place}{behind},")?;
    }
    write!(text, "{before}0{behind}]")?;
    fault(alloc, text.as_str())
}

/// Which numbers of items after an opening have a fault, each item of these two parts round its number.
fn faults_of(
    alloc: Global,
    opening: &str,
    before: &str,
    behind: &str,
) -> Result<String, AllocError> {
    let mut told = String::new(alloc);
    for count in [1, 20, 21, 64, 65, 128, 129] {
        let found = fault_of_so_many(alloc, opening, count, before, behind)?;
        if !found.is_empty() {
            write!(told, "{count} {found};")?;
        }
    }
    Ok(told)
}
