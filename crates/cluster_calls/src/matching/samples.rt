//! The lines of a worked example, each read whole: a kind, a policy, its binding, and a request that they deny.

use crate::matching::events::{push_key, refusal};
use crate::matching::read::review_refusal;
use crate::matching::{bindings, policies, reviews};
use base_containers::{Part, Text};
use calls_notation::{Asked, json, part_at, request_in, shown as shown_value, unknown};
use json::Scratch;
use serde_json::Value as Json;
use std::alloc::{AllocError, Global};
use vap_match::{OpenRequest, Operation, Request, Rule, Scope};
use vap_read::{Content, Event, Object, PolicySpec};

/// The answer to a call of a worked example.
pub fn answer(alloc: Global, asked: &Asked) -> Result<String, AllocError> {
    match asked.call {
        "put" => put(alloc, asked.input, asked.text(0)),
        "request" => request(alloc, asked.input, asked.text(0)),
        _ => unknown(alloc),
    }
}

fn push_texts(out: &mut String, texts: &[Text]) -> Result<(), AllocError> {
    for text in texts {
        write!(out, "{},", text.as_str())?;
    }
    out.push_str(":")
}

fn operation_word(operation: Operation) -> &'static str {
    match operation {
        Operation::Create => "CREATE",
        Operation::Update => "UPDATE",
        Operation::Delete => "DELETE",
        Operation::Connect => "CONNECT",
        Operation::Any => "*",
    }
}

fn scope_word(scope: Scope) -> &'static str {
    match scope {
        Scope::Any => "*",
        Scope::Cluster => "Cluster",
        Scope::Namespaced => "Namespaced",
    }
}

fn push_rule(out: &mut String, rule: &Rule) -> Result<(), AllocError> {
    for operation in rule.operations.as_slice() {
        write!(out, "{},", operation_word(*operation))?;
    }
    out.push_str(":")?;
    push_texts(out, rule.api_groups.as_slice())?;
    push_texts(out, rule.api_versions.as_slice())?;
    push_texts(out, rule.resources.as_slice())?;
    out.push_str(scope_word(rule.scope))?;
    out.push_str(":")?;
    push_texts(out, rule.resource_names.as_slice())
}

fn push_rules(out: &mut String, rules: &[Rule]) -> Result<(), AllocError> {
    for rule in rules {
        push_rule(out, rule)?;
        out.push_str("; ")?;
    }
    Ok(())
}

fn push_policy(out: &mut String, alloc: Global, spec: &PolicySpec) -> Result<(), AllocError> {
    push_rules(out, spec.match_constraints.resource_rules.as_slice())?;
    out.push_str("but ")?;
    push_rules(
        out,
        spec.match_constraints.exclude_resource_rules.as_slice(),
    )?;
    out.push_str(policies::shown(alloc, spec)?.as_str())
}

fn push_content(out: &mut String, alloc: Global, content: &Content) -> Result<(), AllocError> {
    match content {
        Content::Policy(policy) => push_policy(out, alloc, policy.spec.get()),
        Content::Binding(binding) => {
            out.push_str(bindings::shown(alloc, binding.spec.get())?.as_str())
        }
        Content::Other => out.push_str("other"),
    }
}

/// The text of the document that a text spells.
fn text_anew(alloc: Global, text: &str) -> Result<String, AllocError> {
    json(alloc, text)?.to_string(alloc)
}

/// Writes whether a document is the wanted one, else the document.
fn push_document(
    out: &mut String,
    alloc: Global,
    document: &Json,
    wanted: &str,
) -> Result<(), AllocError> {
    let text = document.to_string(alloc)?;
    if text.as_str() == text_anew(alloc, wanted)?.as_str() {
        out.push_str("; as it stands")
    } else {
        write!(out, "; {}", text.as_str())
    }
}

fn shown(alloc: Global, object: &Object, wanted: &str) -> Result<String, AllocError> {
    let mut out = String::new(alloc);
    push_key(&mut out, &object.key)?;
    out.push_str(": ")?;
    push_content(&mut out, alloc, &object.content)?;
    push_document(&mut out, alloc, object.document.json(), wanted)?;
    Ok(out)
}

fn shown_event(alloc: Global, event: &Event, wanted: &str) -> Result<String, AllocError> {
    match event {
        Event::Put(object) => shown(alloc, object.get(), wanted),
        _ => String::from_str(alloc, "no object is put"),
    }
}

/// The object that a line puts, whole, and whether its document is the wanted one.
fn put(alloc: Global, line: &str, wanted: &str) -> Result<String, AllocError> {
    match Event::from_json(alloc, json(alloc, line)?) {
        Ok(event) => shown_event(alloc, &event, wanted),
        Err(error) => refusal(alloc, error),
    }
}

/// Writes the value of an object at a type that is written, if there is the object.
fn push_object(
    out: &mut String,
    alloc: Global,
    written: &Json,
    object: Option<&Part<'_, '_>>,
) -> Result<(), AllocError> {
    match object {
        Some(object) => {
            let value = part_at(alloc, written, object)?;
            write!(out, "; {}", shown_value(alloc, &value)?.as_str())
        }
        None => out.push_str("; none"),
    }
}

fn shown_open(
    alloc: Global,
    open: &OpenRequest<'_, '_, '_>,
    written: &Json,
) -> Result<String, AllocError> {
    let mut out = reviews::shown(alloc, open)?;
    push_object(&mut out, alloc, written, open.object())?;
    push_object(&mut out, alloc, written, open.old_object())?;
    Ok(out)
}

fn shown_request(alloc: Global, request: &Request, written: &str) -> Result<String, AllocError> {
    let written = json(alloc, written)?;
    let mut scratch = Scratch::new(alloc);
    let tape = request.admission().review.tape(alloc, &mut scratch)?;
    let open = OpenRequest::new(request, Part::new(tape.root()));
    shown_open(alloc, &open, &written)
}

/// What a review asks, whole, and its objects at the type that is written.
fn request(alloc: Global, line: &str, written: &str) -> Result<String, AllocError> {
    match request_in(alloc, line) {
        Ok(request) => shown_request(alloc, &request, written),
        Err(error) => review_refusal(alloc, error),
    }
}
