//! Streams, each with what is written and how the run ends.

use crate::lines::{Stream, repeating};
use base_containers::Counted;
use calls_notation::{Asked, unknown};
use std::alloc::{AllocError, Global};
use std::sync::Wait;
use std::thread::Threads;
use vap_cli_replay::{ReplayError, replay};

/// The answer to a call of streams.
pub fn answer<R: Threads + Wait + Sync>(
    rt: &R,
    alloc: Global,
    asked: &Asked,
) -> Result<String, AllocError> {
    let text = asked.input;
    match asked.call {
        "answered" => told(rt, alloc, text, false),
        "audited" => told(rt, alloc, text, true),
        "alike" => alike(rt, alloc, text, asked),
        "repeated" => repeated(rt, alloc, text, asked.text(0), asked.number(1) as usize),
        _ => unknown(alloc),
    }
}

/// How a run ends, as a line.
fn ending(alloc: Global, ended: Result<(), ReplayError>) -> Result<String, AllocError> {
    match ended {
        Ok(()) => String::from_str(alloc, "done"),
        Err(ReplayError::Line { line, fault }) => format!(in alloc;
            "line {line}: {}",
            fault.name()
        ),
        Err(ReplayError::OutOfMemory) => Err(AllocError),
        Err(error) => format!(in alloc; "{error}"),
    }
}

/// What is written for a stream, with how the run ends.
fn replayed<R: Threads + Wait + Sync>(
    rt: &R,
    alloc: Global,
    stream: Stream<'_>,
    audit: bool,
) -> Result<(Vec<u8>, String), AllocError> {
    let mut input = Counted::new(stream);
    let mut output = Counted::new(Vec::new(alloc));
    let ended = replay(rt, alloc, &mut input, &mut output, 1, audit);
    Ok((output.into_inner(), ending(alloc, ended)?))
}

/// What so many workers write for a stream, with its audit, and how the run ends.
fn replayed_by<R: Threads + Wait + Sync>(
    rt: &R,
    alloc: Global,
    stream: Stream<'_>,
    workers: u64,
) -> Result<(Vec<u8>, String), AllocError> {
    let mut input = Counted::new(stream);
    let mut output = Counted::new(Vec::new(alloc));
    let workers = if 1 <= workers && workers <= 16 {
        workers as u8
    } else {
        1
    };
    let ended = replay(rt, alloc, &mut input, &mut output, workers, true);
    Ok((output.into_inner(), ending(alloc, ended)?))
}

/// What is written for a text, and after it how the run ends.
fn told<R: Threads + Wait + Sync>(
    rt: &R,
    alloc: Global,
    text: &str,
    audit: bool,
) -> Result<String, AllocError> {
    let (written, ending) = replayed(rt, alloc, repeating(text, "", 0), audit)?;
    let mut told = String::from_utf8(written).unwrap_or(String::new(alloc));
    told.push_str(ending.as_str())?;
    Ok(told)
}

/// Whether so many workers write the same as one, for a text so many times after another, with the audit: how many lines are
/// written, and how the run ends.
fn alike<R: Threads + Wait + Sync>(
    rt: &R,
    alloc: Global,
    rest: &str,
    asked: &Asked,
) -> Result<String, AllocError> {
    let (again, times) = (asked.text(0), asked.number(1) as usize);
    let one = replayed_by(rt, alloc, repeating(rest, again, times), 1)?;
    let many = replayed_by(rt, alloc, repeating(rest, again, times), asked.number(2))?;
    if one.0.as_slice() == many.0.as_slice() {
        format!(in alloc; "{} {}", feeds(many.0.as_slice()), many.1.as_str())
    } else {
        String::from_str(alloc, "not alike")
    }
}

/// How many line feeds there are.
pub fn feeds(bytes: &[u8]) -> usize {
    bytes.iter().filter(|byte| **byte == b'\n').count()
}

/// How many lines are written for a text so many times after another, and how the run ends.
fn repeated<R: Threads + Wait + Sync>(
    rt: &R,
    alloc: Global,
    rest: &str,
    again: &str,
    times: usize,
) -> Result<String, AllocError> {
    let (written, ending) = replayed(rt, alloc, repeating(rest, again, times), false)?;
    format!(in alloc; "{} {}", feeds(written.as_slice()), ending.as_str())
}
