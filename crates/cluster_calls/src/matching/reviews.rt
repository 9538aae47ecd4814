//! Which documents are reviews, and what they ask.

use crate::matching::limits;
use crate::matching::read::{agreed, review_refusal};
use base_containers::Part;
use calls_notation::{Asked, request_in, unknown};
use json::Scratch;
use std::alloc::{AllocError, Global};
use vap_match::{Admission, OpenRequest, Request};

/// The answer to a call of reviews.
pub fn answer(alloc: Global, asked: &Asked) -> Result<String, AllocError> {
    match asked.call {
        "request" => request(alloc, asked.input),
        "longest" => limits::longest(alloc, asked.input, asked.text(0)),
        "most" => limits::most(alloc, asked.input, asked.text(0), asked.text(1)),
        _ => unknown(alloc),
    }
}

fn push_user(out: &mut String, asked: &Admission) -> Result<(), AllocError> {
    let user = &asked.user_info;
    write!(out, ";{};{};", user.username.as_str(), user.uid.as_str())?;
    for group in user.groups.as_slice() {
        write!(out, "{},", group.as_str())?;
    }
    out.push_str(";")?;
    for entry in user.extra.as_slice() {
        write!(out, "{}=", entry.key.as_str())?;
        for text in entry.value.as_slice() {
            write!(out, "{},", text.as_str())?;
        }
    }
    Ok(())
}

fn push_target(out: &mut String, asked: &Admission) -> Result<(), AllocError> {
    let (kind, resource) = (&asked.kind, &asked.resource);
    let (group, version) = (kind.group.as_str(), kind.version.as_str());
    write!(out, ";{group}/{version}/{}", kind.kind.as_str())?;
    let (group, version) = (resource.group.as_str(), resource.version.as_str());
    write!(out, ";{group}/{version}/{}", resource.resource.as_str())?;
    let (below, name) = (asked.sub_resource.as_str(), asked.name.as_str());
    let (namespace, operation) = (asked.namespace.as_str(), asked.operation.as_str());
    write!(out, ";{below};{name};{namespace};{operation}")
}

/// Which objects there are: `o` as it is to be, `p` as it was.
fn objects(open: &OpenRequest<'_, '_, '_>) -> &'static str {
    match (open.object(), open.old_object()) {
        (Some(_), Some(_)) => "op",
        (Some(_), None) => "o",
        (None, Some(_)) => "p",
        (None, None) => "",
    }
}

/// What a review asks; of its objects, which there are.
pub fn shown(alloc: Global, open: &OpenRequest<'_, '_, '_>) -> Result<String, AllocError> {
    let asked = open.request.admission();
    let mut out = String::from_str(alloc, asked.uid.as_str())?;
    push_target(&mut out, asked)?;
    push_user(&mut out, asked)?;
    out.push_str(if asked.dry_run { ";dry;" } else { ";;" })?;
    out.push_str(objects(open))?;
    Ok(out)
}

fn shown_of(alloc: Global, request: &Request) -> Result<String, AllocError> {
    let mut scratch = Scratch::new(alloc);
    let tape = request.admission().review.tape(alloc, &mut scratch)?;
    shown(alloc, &OpenRequest::new(request, Part::new(tape.root())))
}

/// What a request and its copy ask, if both ask the same.
fn shown_twice(alloc: Global, request: &Request) -> Result<String, AllocError> {
    let copy = shown_of(alloc, &request.copy()?)?;
    let first = shown_of(alloc, request)?;
    agreed(alloc, first.as_str(), copy.as_str())
}

/// What a review asks, which a copy does too, or the review's fault.
fn request(alloc: Global, row: &str) -> Result<String, AllocError> {
    match request_in(alloc, row) {
        Ok(request) => shown_twice(alloc, &request),
        Err(error) => review_refusal(alloc, error),
    }
}
