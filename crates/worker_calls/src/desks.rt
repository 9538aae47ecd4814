//! Desks: what they stage and publish, and logs and objects at their limits.

use calls_notation::{Asked, json, unknown};
use std::alloc::{AllocError, Global};
use vap_read::Event;
use vap_watch::{Desk, StageFault};

/// The answer to a call of desks.
pub fn answer(alloc: Global, asked: &Asked) -> Result<String, AllocError> {
    match asked.call {
        "published" => published(alloc, asked.input),
        "staged" => staged(alloc, asked.number(0)),
        "objects" => objects(alloc, asked.number(0)),
        _ => unknown(alloc),
    }
}

fn fault_name(fault: StageFault) -> &'static str {
    match fault {
        StageFault::LogFull => "LogFull",
        StageFault::TooManyObjects => "TooManyObjects",
        StageFault::OutOfMemory => "OutOfMemory",
    }
}

/// Why an event is not staged, if it is not.
fn stage(desk: &mut Desk, event: Event) -> Option<StageFault> {
    match desk.stage(event) {
        Ok(()) => None,
        Err((fault, _)) => Some(fault),
    }
}

fn push_revision(out: &mut String, desk: &mut Desk) -> Result<(), AllocError> {
    match desk.publish() {
        Ok(revision) => write!(out, " {revision}"),
        Err(_) => out.push_str(" not published"),
    }
}

/// Stages so many passing events: how many are staged, and why the next is not.
fn stage_passing(out: &mut String, desk: &mut Desk, most: u64) -> Result<(), AllocError> {
    for count in 0..most {
        if let Some(fault) = stage(desk, Event::Passed) {
            return write!(out, "{count} {}", fault_name(fault));
        }
    }
    write!(out, "{most}")
}

/// How many of so many passing events are staged, why the next is not, and the revision after them.
fn staged(alloc: Global, most: u64) -> Result<String, AllocError> {
    let mut desk = Desk::new(alloc)?;
    let mut out = String::new(alloc);
    stage_passing(&mut out, &mut desk, most)?;
    push_revision(&mut out, &mut desk)?;
    Ok(out)
}

/// The revision after the events of these lines; a publication that is refused is asked for once more.
fn published(alloc: Global, text: &str) -> Result<String, AllocError> {
    let mut desk = Desk::new(alloc)?;
    stage_lines(alloc, &mut desk, text)?;
    let mut out = String::new(alloc);
    push_revision(&mut out, &mut desk)?;
    if out.as_str() == " not published" {
        out.clear();
        push_revision(&mut out, &mut desk)?;
    }
    Ok(out)
}

fn stage_lines(alloc: Global, desk: &mut Desk, text: &str) -> Result<(), AllocError> {
    for line in text.lines() {
        if stage(desk, event(alloc, line)?).is_some() {
            return Err(AllocError);
        }
    }
    Ok(())
}

/// The event of a line.
fn event(alloc: Global, line: &str) -> Result<Event, AllocError> {
    match Event::from_json(alloc, json(alloc, line)?) {
        Ok(event) => Ok(event),
        Err(_) => Err(AllocError),
    }
}

/// The event that puts an object of this number.
fn object(alloc: Global, number: u64) -> Result<Event, AllocError> {
    let text = format!(in alloc;
        "{{\"type\":\"ADDED\",\"object\":{{\"apiVersion\":\"v1\",\"kind\":\"ConfigMap\",\"metadata\":{{\"name\":\"{number}\"}}}}}}"
    )?;
    event(alloc, text.as_str())
}

fn stage_objects(
    out: &mut String,
    alloc: Global,
    desk: &mut Desk,
    most: u64,
) -> Result<(), AllocError> {
    for number in 0..most {
        if let Some(fault) = stage(desk, object(alloc, number)?) {
            return write!(out, "{number} {}", fault_name(fault));
        }
    }
    write!(out, "{most}")
}

/// How many of so many objects are staged, and why the next is not.
fn objects(alloc: Global, most: u64) -> Result<String, AllocError> {
    let mut desk = Desk::new(alloc)?;
    let mut out = String::new(alloc);
    stage_objects(&mut out, alloc, &mut desk, most)?;
    Ok(out)
}
