//! Which objects are bindings, and what they say.

use crate::matching::policies::{or_dash, push_rules};
use crate::matching::read::{agreed, policy_refusal, sign};
use calls_notation::{Asked, json, unknown};
use std::alloc::{AllocError, Global};
use vap_read::{Binding, BindingSpec, NotFoundAction, ParamRef};

/// The answer to a call of bindings.
pub fn answer(alloc: Global, asked: &Asked) -> Result<String, AllocError> {
    match asked.call {
        "binding" => binding(alloc, asked.input),
        "with" => binding_with(alloc, asked.input),
        _ => unknown(alloc),
    }
}

fn action_name(action: NotFoundAction) -> &'static str {
    match action {
        NotFoundAction::Allow => "Allow",
        NotFoundAction::Deny => "Deny",
    }
}

fn push_reference(out: &mut String, param_ref: &ParamRef) -> Result<(), AllocError> {
    let (name, namespace) = (or_dash(&param_ref.name), param_ref.namespace.as_str());
    let selector = sign(param_ref.selector.is_some());
    let action = action_name(param_ref.parameter_not_found_action);
    write!(out, ";{name},{namespace},{selector},{action};")
}

fn push_params(out: &mut String, spec: &BindingSpec) -> Result<(), AllocError> {
    match &spec.param_ref {
        Some(param_ref) => push_reference(out, param_ref),
        None => out.push_str(";-;"),
    }
}

fn push_actions(out: &mut String, spec: &BindingSpec) -> Result<(), AllocError> {
    let actions = spec.validation_actions;
    out.push_str(";")?;
    out.push_str(sign(actions.deny))?;
    out.push_str(sign(actions.warn))?;
    out.push_str(sign(actions.audit))
}

/// What a binding says.
pub fn shown(alloc: Global, spec: &BindingSpec) -> Result<String, AllocError> {
    let mut out = String::from_str(alloc, spec.policy_name.as_str())?;
    push_params(&mut out, spec)?;
    push_rules(&mut out, &spec.match_resources)?;
    push_actions(&mut out, spec)?;
    Ok(out)
}

fn shown_of(alloc: Global, binding: Binding) -> Result<String, AllocError> {
    shown(alloc, binding.spec.get())
}

/// What a binding and its copy say, if both say the same.
fn shown_twice(alloc: Global, binding: &Binding) -> Result<String, AllocError> {
    let copy = shown_of(alloc, binding.copy()?)?;
    let first = shown(alloc, binding.spec.get())?;
    agreed(alloc, first.as_str(), copy.as_str())
}

/// What a binding says, which a copy does too, or the object's fault.
fn binding(alloc: Global, row: &str) -> Result<String, AllocError> {
    match Binding::from_json(alloc, &json(alloc, row)?) {
        Ok(binding) => shown_twice(alloc, &binding),
        Err(error) => policy_refusal(alloc, error),
    }
}

/// The same for the members of what a binding says.
fn binding_with(alloc: Global, members: &str) -> Result<String, AllocError> {
    let text = format!(in alloc; "{{\"spec\":{{{members}}}}}")?;
    binding(alloc, text.as_str())
}
