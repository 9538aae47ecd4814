//! Streams whose reader or writer fails at one of its calls.

use crate::lines::counted;
use crate::streams::feeds;
use base_containers::Counted;
use calls_notation::{Asked, unknown};
use std::alloc::{AllocError, Global};
use std::io;
use std::io::{ErrorKind, Write};
use std::sync::Wait;
use std::thread::Threads;
use vap_cli_replay::{ReplayError, replay};

/// More calls than are made of a reader or a writer for any stream of these lines.
const CALLS: usize = 64;

/// How many bytes a read gives.
const READ: usize = 512;

/// The answer to a call of broken streams.
pub fn answer<R: Threads + Wait + Sync>(
    rt: &R,
    alloc: Global,
    asked: &Asked,
) -> Result<String, AllocError> {
    match asked.call {
        "writers" => writers(rt, alloc, asked.input),
        "readers" => readers(rt, alloc, asked.input),
        _ => unknown(alloc),
    }
}

/// A writer that keeps what it takes, and fails after so many calls.
#[derive(Drop)]
struct Failing {
    calls: usize,
    held: Vec<u8>,
}

impl Failing {
    /// Whether this call does not fail.
    fn is_well(&mut self) -> io::Result<()> {
        if self.calls == 0 {
            return Err(io::Error::from(ErrorKind::BrokenPipe));
        }
        self.calls -= 1;
        Ok(())
    }
}

impl Write for Failing {
    fn write(&mut self, buf: &[u8]) -> io::Result<usize> {
        self.is_well()?;
        self.held.write(buf)
    }

    fn flush(&mut self) -> io::Result<()> {
        self.is_well()
    }
}

/// What was written, and how the run ended.
#[derive(Drop)]
struct Run {
    written: Vec<u8>,
    ended: Result<(), ReplayError>,
}

/// A run whose writer fails after so many calls.
fn writing<R: Threads + Wait + Sync>(rt: &R, alloc: Global, text: &str, calls: usize) -> Run {
    let mut input = Counted::new(text.as_bytes());
    let mut output = Counted::new(Failing {
        calls,
        held: Vec::new(alloc),
    });
    let ended = replay(rt, alloc, &mut input, &mut output, 1, true);
    Run {
        written: output.into_inner().held,
        ended,
    }
}

/// A run whose read of this number fails, the first being 1; none fails if it is 0.
fn reading<R: Threads + Wait + Sync>(rt: &R, alloc: Global, text: &str, number: usize) -> Run {
    let mut input = counted(text, READ, number);
    let mut output = Counted::new(Vec::new(alloc));
    let ended = replay(rt, alloc, &mut input, &mut output, 1, true);
    Run {
        written: output.into_inner(),
        ended,
    }
}

/// Whether each call of the writer that fails ends the run with Write, after a front of what is written in all; the first run in which
/// none fails writes all.
fn writers<R: Threads + Wait + Sync>(
    rt: &R,
    alloc: Global,
    text: &str,
) -> Result<String, AllocError> {
    let whole = writing(rt, alloc, text, CALLS);
    for calls in 0..CALLS {
        let run = writing(rt, alloc, text, calls);
        if run.ended == whole.ended {
            return told(alloc, calls, is_same(&run, &whole));
        }
        if run.ended != Err(ReplayError::Write) || !is_front(&run, &whole) {
            return format!(in alloc; "not after {calls} calls");
        }
    }
    format!(in alloc; "more than {CALLS} calls")
}

/// Whether each read that fails ends the run with Read, after whole lines at the front of what is written in all, and after how many
/// lines each; the first run in which none fails writes all.
fn readers<R: Threads + Wait + Sync>(
    rt: &R,
    alloc: Global,
    text: &str,
) -> Result<String, AllocError> {
    let whole = reading(rt, alloc, text, 0);
    let mut counts = String::new(alloc);
    for number in 1..CALLS {
        let run = reading(rt, alloc, text, number);
        if run.ended == whole.ended {
            let told = told(alloc, number - 1, is_same(&run, &whole))?;
            return format!(in alloc; "{}, after{} lines", told.as_str(), counts.as_str());
        }
        if run.ended != Err(ReplayError::Read) || !is_front(&run, &whole) || !is_lines(&run) {
            return format!(in alloc; "not at read {number}");
        }
        write!(counts, " {}", feeds(run.written.as_slice()))?;
    }
    format!(in alloc; "more than {CALLS} reads")
}

fn told(alloc: Global, failed: usize, is_same: bool) -> Result<String, AllocError> {
    let told = if failed > 0 && is_same {
        "each"
    } else {
        "not all"
    };
    String::from_str(alloc, told)
}

fn is_same(run: &Run, whole: &Run) -> bool {
    run.written.as_slice() == whole.written.as_slice()
}

/// Whether what a run wrote is at the front of what another did.
fn is_front(run: &Run, whole: &Run) -> bool {
    whole.written.as_slice().starts_with(run.written.as_slice())
}

/// Whether what a run wrote is whole lines.
fn is_lines(run: &Run) -> bool {
    match run.written.last() {
        Some(byte) => *byte == b'\n',
        None => true,
    }
}
