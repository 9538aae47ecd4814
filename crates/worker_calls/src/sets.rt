//! Sets after events: those that a desk advances, beside sets that are built anew of the same objects.
//!
//! A row is a stream. Its events are taken one after the other: the first ones together, so many as are asked for, and each of the
//! others by itself. After each such step every review of the stream is judged by both sets. A line that is neither an event nor
//! a review, or for which there is no room, is left out.

use calls_notation::{Asked, json, request_in, unknown};
use report_notation::reported;
use std::alloc::{AllocError, Global};
use vap_match::{Request, ReviewError};
use vap_policy::{JudgeError, PolicySet, RunFault, Workspace, judge};
use vap_policy_verdict::answer_text;
use vap_read::{Event, EventError};
use vap_read_objects::Objects;
use vap_watch::{Desk, StageFault};

/// The answer to a call of sets.
pub fn answer(alloc: Global, asked: &Asked) -> Result<String, AllocError> {
    match asked.call {
        "steps" => steps(alloc, asked.input, asked.number(0)),
        _ => unknown(alloc),
    }
}

// ---- lines

fn push_request(alloc: Global, requests: &mut Vec<Request>, line: &str) -> Result<(), AllocError> {
    match request_in(alloc, line) {
        Ok(request) => {
            requests.push(request)?;
            Ok(())
        }
        Err(ReviewError::Fault(_)) => Ok(()),
        Err(ReviewError::OutOfMemory) => Err(AllocError),
    }
}

/// The requests of the reviews of a stream.
fn requests_in(alloc: Global, text: &str) -> Result<Vec<Request>, AllocError> {
    let mut requests = Vec::new(alloc);
    for line in text.lines() {
        push_request(alloc, &mut requests, line)?;
    }
    Ok(requests)
}

/// Stages an event for which there is room: whether it did.
fn stage(desk: &mut Desk, event: Event) -> Result<bool, AllocError> {
    match desk.stage(event) {
        Ok(()) => Ok(true),
        Err((StageFault::OutOfMemory, _)) => Err(AllocError),
        Err((_, _)) => Ok(false),
    }
}

fn take_event(
    alloc: Global,
    desk: &mut Desk,
    objects: &mut Objects,
    event: Event,
) -> Result<bool, AllocError> {
    if objects.takes(&event) {
        objects.apply(alloc, &event)?;
        stage(desk, event)
    } else {
        Ok(false)
    }
}

/// Takes the event of a line, if it is one: whether it did.
fn take(
    alloc: Global,
    desk: &mut Desk,
    objects: &mut Objects,
    line: &str,
) -> Result<bool, AllocError> {
    match Event::from_json(alloc, json(alloc, line)?) {
        Ok(event) => take_event(alloc, desk, objects, event),
        Err(EventError::Fault(_)) => Ok(false),
        Err(EventError::OutOfMemory) => Err(AllocError),
    }
}

// ---- sets

/// What a set answers to a request.
fn answered(
    alloc: Global,
    set: &PolicySet,
    request: &Request,
    workspace: &mut Workspace,
) -> Result<String, AllocError> {
    match judge(alloc, set, request, workspace) {
        Ok(verdict) => answer_text(alloc, "", &verdict),
        Err(JudgeError::Fault(RunFault::Pattern)) => String::from_str(alloc, "Pattern"),
        Err(JudgeError::OutOfMemory) => Err(AllocError),
    }
}

/// What two sets differ in, if they do: their reports, or their answers to one of these requests.
fn difference(
    alloc: Global,
    one: &PolicySet,
    other: &PolicySet,
    requests: &[Request],
) -> Result<Option<&'static str>, AllocError> {
    if reported(alloc, one)?.as_str() != reported(alloc, other)?.as_str() {
        return Ok(Some("report"));
    }
    let mut workspace = Workspace::new(alloc);
    for request in requests {
        let left = answered(alloc, one, request, &mut workspace)?;
        let right = answered(alloc, other, request, &mut workspace)?;
        if left.as_str() != right.as_str() {
            return Ok(Some("answer"));
        }
    }
    Ok(None)
}

/// Writes how many pairs are compiled in making a set, of how many, and what it differs in from one that is built anew: whether
/// it differs in nothing.
fn push_step(
    alloc: Global,
    out: &mut String,
    advanced: &PolicySet,
    built: &PolicySet,
    requests: &[Request],
) -> Result<bool, AllocError> {
    write!(out, "{} of {}, ", advanced.compiled(), built.compiled())?;
    match difference(alloc, advanced, built, requests)? {
        Some(what) => {
            write!(out, "another {what}")?;
            Ok(false)
        }
        None => Ok(true),
    }
}

/// Publishes what is staged, and compares its set with one that is built anew.
fn publish(
    alloc: Global,
    out: &mut String,
    desk: &mut Desk,
    objects: &Objects,
    requests: &[Request],
) -> Result<bool, AllocError> {
    if desk.publish().is_err() {
        return Err(AllocError);
    }
    match PolicySet::build(alloc, objects) {
        Ok(built) => push_step(alloc, out, desk.snapshot().set(), &built, requests),
        Err(_) => Err(AllocError),
    }
}

/// How many pairs are compiled at each step, of how many, and at the end whether both sets were the same after each.
fn steps(alloc: Global, text: &str, first: u64) -> Result<String, AllocError> {
    let requests = requests_in(alloc, text)?;
    let (mut desk, mut objects) = (Desk::new(alloc)?, Objects::new(alloc));
    let mut out = String::new(alloc);
    let mut waiting = first;
    for line in text.lines() {
        let taken = take(alloc, &mut desk, &mut objects, line)?;
        waiting = waiting.saturating_sub(1);
        if taken && waiting == 0 {
            let is_same = publish(alloc, &mut out, &mut desk, &objects, requests.as_slice())?;
            if !is_same {
                return Ok(out);
            }
        }
    }
    out.push_str("same")?;
    Ok(out)
}
