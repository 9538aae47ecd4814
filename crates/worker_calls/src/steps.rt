//! Lists of steps, and the world that they make.
//!
//! A row is a list of steps: `{"stage": EVENT}`, `{"publish": 0}`, `{"enter": WORKER, "review": REVIEW}`, `{"judge": WORKER}`,
//! `{"record": WORKER}` and `{"give_up": WORKER}`.

use calls_notation::{Asked, json, request_in, unknown};
use serde_json::Value as Json;
use std::alloc::{AllocError, Global};
use vap_audit::History;
use vap_match::Request;
use vap_plane_steps::{Step, World, play};
use vap_read::Event;
use vap_watch::revision_of;

/// The answer to a call of steps.
pub fn answer(alloc: Global, asked: &Asked) -> Result<String, AllocError> {
    match asked.call {
        "played" => played(alloc, &json(alloc, asked.input)?),
        _ => unknown(alloc),
    }
}

/// The world that steps make. One that cannot be read is left out.
fn played(alloc: Global, steps: &Json) -> Result<String, AllocError> {
    let mut list = Vec::new(alloc);
    for step in vap_match::items_of(steps) {
        if let Some(step) = step_of(alloc, step)? {
            list.push(step)?;
        }
    }
    told(alloc, &play(alloc, list.as_slice())?)
}

fn step_of(alloc: Global, json: &Json) -> Result<Option<Step>, AllocError> {
    if let Some(event) = json.get("stage") {
        return match Event::from_json(alloc, event.clone()?) {
            Ok(event) => Ok(Some(Step::Stage(event))),
            Err(_) => Ok(None),
        };
    }
    if let Some(review) = json.get("review") {
        return match request_in(alloc, review.to_string(alloc)?.as_str()) {
            Ok(request) => Ok(Some(Step::Enter(worker(json.get("enter")), request))),
            Err(_) => Ok(None),
        };
    }
    Ok(own_step(json))
}

/// A step that has nothing but a worker.
fn own_step(json: &Json) -> Option<Step> {
    if json.get("publish").is_some() {
        return Some(Step::Publish);
    }
    if let Some(number) = json.get("judge") {
        return Some(Step::Judge(worker(Some(number))));
    }
    if let Some(number) = json.get("record") {
        return Some(Step::Record(worker(Some(number))));
    }
    json.get("give_up")
        .map(|number| Step::GiveUp(worker(Some(number))))
}

/// The number of a worker, 0 if there is none.
fn worker(json: Option<&Json>) -> u8 {
    match json {
        Some(json) => json.as_u64().unwrap_or(0).min(255) as u8,
        None => 0,
    }
}

/// How long the log is and how much of it is published, how often workers entered, which hold a request, and the entries.
fn told(alloc: Global, world: &World) -> Result<String, AllocError> {
    let mut out = String::new(alloc);
    let revision = revision_of(world.desk().snapshot());
    write!(
        out,
        "log {}, published {revision}, entered {}, held by",
        world.desk().events(),
        world.entered()
    )?;
    for number in 0..256u64 {
        if world.is_busy(number as u8) {
            write!(out, " {number}")?;
        }
    }
    out.push_str(", entries:")?;
    push_entries(&mut out, world.history())?;
    Ok(out)
}

/// The call of each entry, with its revision, its worker and whether it is allowed.
pub fn push_entries(out: &mut String, history: &History) -> Result<(), AllocError> {
    for number in 0..history.len() {
        let entry = history.at(number);
        let verdict = if entry.verdict.allowed {
            "allowed"
        } else {
            "denied"
        };
        write!(
            out,
            " {} {verdict} at {} by {}",
            entry.call,
            entry.log.get().len(),
            entry.worker
        )?;
    }
    Ok(())
}
