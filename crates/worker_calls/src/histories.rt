//! Histories: what is appended, whose it is, and which entry strays.
//!
//! A row is a list of steps over two desks: `{"publish": EVENT}` at the first desk and `{"elsewhere": EVENT}` at the second;
//! `{"judge": WORKER}` decides a request where the first desk is and appends it under this worker, and `{"stray": WORKER}` does so
//! where the second one is.

use calls_notation::{Asked, json, request_in, unknown};
use serde_json::Value as Json;
use std::alloc::{AllocError, Global};
use vap_audit::{Entry, History, judge};
use vap_match::Request;
use vap_policy::{JudgeError, RunFault, Workspace};
use vap_read::Event;
use vap_watch::{Desk, Snapshot};

/// A review of a Pod.
pub const REVIEW: &str =
    r#"{"apiVersion":"admission.k8s.io/v1","kind":"AdmissionReview","request":{"uid":"u","kind":{"group":"","version":"v1",
    "kind":"Pod"},"resource":{"group":"","version":"v1","resource":"pods"},"operation":"CREATE","name":"n"}}"#;

/// The answer to a call of histories.
pub fn answer(alloc: Global, asked: &Asked) -> Result<String, AllocError> {
    match asked.call {
        "after" => after(alloc, &json(alloc, asked.input)?, asked.number(0)),
        _ => unknown(alloc),
    }
}

/// The revisions of the entries after all steps, the numbers of a worker's, and which entry strays from the first desk's log.
fn after(alloc: Global, steps: &Json, worker: u64) -> Result<String, AllocError> {
    let (mut first, mut second) = (Desk::new(alloc)?, Desk::new(alloc)?);
    let mut history = History::new(alloc);
    for step in vap_match::items_of(steps) {
        take(alloc, step, &mut first, &mut second, &mut history)?;
    }
    let mut out = String::new(alloc);
    push_entries(&mut out, &history)?;
    push_numbers(alloc, &mut out, &history, worker)?;
    push_stray(&mut out, &history, first.snapshot())?;
    Ok(out)
}

fn take(
    alloc: Global,
    step: &Json,
    first: &mut Desk,
    second: &mut Desk,
    history: &mut History,
) -> Result<(), AllocError> {
    if let Some(event) = step.get("publish") {
        return publish(alloc, first, event);
    }
    if let Some(event) = step.get("elsewhere") {
        return publish(alloc, second, event);
    }
    match (step.get("judge"), step.get("stray")) {
        (Some(worker), _) => append(alloc, first.snapshot(), number(worker), history),
        (_, Some(worker)) => append(alloc, second.snapshot(), number(worker), history),
        _ => Ok(()),
    }
}

fn number(json: &Json) -> u64 {
    json.as_u64().unwrap_or(0)
}

/// Publishes an event; one that is none, or is refused, leaves the desk as it is.
fn publish(alloc: Global, desk: &mut Desk, event: &Json) -> Result<(), AllocError> {
    if let Ok(event) = Event::from_json(alloc, event.clone()?) {
        let _ = desk.stage(event).is_ok() && desk.publish().is_ok();
    }
    Ok(())
}

/// Decides the request at a snapshot and appends it; a refusal leaves the history as it is.
fn append(
    alloc: Global,
    snapshot: &Snapshot,
    worker: u64,
    history: &mut History,
) -> Result<(), AllocError> {
    match request_in(alloc, REVIEW) {
        Ok(request) => append_decided(alloc, snapshot, request, worker, history),
        Err(_) => Ok(()),
    }
}

fn append_decided(
    alloc: Global,
    snapshot: &Snapshot,
    request: Request,
    worker: u64,
    history: &mut History,
) -> Result<(), AllocError> {
    let log = snapshot.share_log()?;
    let verdict = match judge(alloc, snapshot, &request, &mut Workspace::new(alloc)) {
        Ok(verdict) => verdict,
        Err(JudgeError::Fault(RunFault::Pattern)) => return Ok(()),
        Err(JudgeError::OutOfMemory) => return Err(AllocError),
    };
    let entry = Entry {
        call: history.len() as u64,
        log,
        request,
        verdict,
        worker,
    };
    let _ = history.append(entry);
    Ok(())
}

fn push_entries(out: &mut String, history: &History) -> Result<(), AllocError> {
    for number in 0..history.len() {
        if let Some(entry) = history.entry(number) {
            write!(out, "{} at {}, ", entry.call, entry.verdict.revision)?;
        }
    }
    Ok(())
}

fn push_numbers(
    alloc: Global,
    out: &mut String,
    history: &History,
    worker: u64,
) -> Result<(), AllocError> {
    write!(out, "of {worker}:")?;
    for number in history.entries_of(alloc, worker)? {
        write!(out, " {number}")?;
    }
    Ok(())
}

fn push_stray(out: &mut String, history: &History, snapshot: &Snapshot) -> Result<(), AllocError> {
    match history.check(snapshot) {
        Ok(()) => out.push_str(", none strays"),
        Err(stray) => write!(out, ", {} strays at {}", stray.entry, stray.at),
    }
}
