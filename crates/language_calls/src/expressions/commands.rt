//! What `eval`, `check` and `image` write, and how failures of readers and writers are counted and end them.

use crate::expressions::bytes::{bytes_in, digits_of};
use calls_notation::{Asked, unknown};
use std::alloc::{AllocError, Global};
use std::io::{ErrorKind, Read, Write};
use std::{io, str};
use vap_cli::{
    CheckFailure, Counted, Ended, EvalError, Status, check_to, decode_to, encode_to, eval_to,
};

/// The answer to a call of commands.
pub fn answer(alloc: Global, asked: &Asked) -> Result<String, AllocError> {
    match asked.call {
        "eval" => eval(alloc, asked.input),
        "eval_narrow" => eval_narrow(alloc, writer_of(asked), asked.input),
        "check" => check(alloc, asked.input),
        "check_narrow" => check_narrow(alloc, writer_of(asked), asked.input),
        "check_broken" => check_broken(alloc),
        "encode" => encode(alloc, asked.input),
        "encode_narrow" => encode_narrow(alloc, writer_of(asked), asked.input),
        "decode" => decode(alloc, asked.input),
        "decode_narrow" => decode_narrow(alloc, writer_of(asked), asked.input),
        "decode_broken" => decoded_by(alloc, Broken),
        "decode_endless" => decoded_by(alloc, Endless),
        "read" => read(alloc, asked.input),
        "read_broken" => read_broken(alloc),
        _ => unknown(alloc),
    }
}

/// A writer that takes so many bytes, and then fails in its own way; or one that fails when it is flushed.
#[derive(Drop)]
struct Narrow {
    room: usize,
    refusal: Refusal,
}

#[derive(Clone, Copy)]
enum Refusal {
    Fails,
    TakesNothing,
    IsInterrupted,
    FailsAtFlush,
}

impl Write for Narrow {
    fn write(&mut self, buf: &[u8]) -> io::Result<usize> {
        let taken = buf.len().min(self.room);
        self.room -= taken;
        if taken > 0 || buf.is_empty() {
            return Ok(taken);
        }
        match self.refusal {
            Refusal::Fails => Err(io::Error::from(ErrorKind::BrokenPipe)),
            Refusal::TakesNothing | Refusal::FailsAtFlush => Ok(0),
            Refusal::IsInterrupted => Err(io::Error::from(ErrorKind::Interrupted)),
        }
    }

    fn flush(&mut self) -> io::Result<()> {
        match self.refusal {
            Refusal::FailsAtFlush => Err(io::Error::from(ErrorKind::Other)),
            _ => Ok(()),
        }
    }
}

/// A reader that fails.
#[derive(Drop)]
struct Broken;

impl Read for Broken {
    fn read(&mut self, _buf: &mut [u8]) -> io::Result<usize> {
        Err(io::Error::from(ErrorKind::BrokenPipe))
    }
}

/// A reader without end.
#[derive(Drop)]
struct Endless;

impl Read for Endless {
    fn read(&mut self, buf: &mut [u8]) -> io::Result<usize> {
        Ok(buf.len())
    }
}

/// The writer that a call is given.
fn writer_of(asked: &Asked) -> Narrow {
    let refusal = match asked.text(0) {
        "TakesNothing" => Refusal::TakesNothing,
        "IsInterrupted" => Refusal::IsInterrupted,
        "FailsAtFlush" => Refusal::FailsAtFlush,
        _ => Refusal::Fails,
    };
    Narrow {
        room: asked.number(1) as usize,
        refusal,
    }
}

/// How the evaluation of an expression ends, how many failures of the writer were counted, and what is written.
fn eval(alloc: Global, text: &str) -> Result<String, AllocError> {
    let mut out = Counted::new(Vec::new(alloc));
    let ended = eval_to(alloc, text, &mut out);
    let failures = out.failures();
    let written = out.into_inner();
    told_of_eval(alloc, ended, failures, written.as_slice())
}

fn eval_narrow(alloc: Global, narrow: Narrow, text: &str) -> Result<String, AllocError> {
    let mut out = Counted::new(narrow);
    let ended = eval_to(alloc, text, &mut out);
    told_of_eval(alloc, ended, out.failures(), b"")
}

fn told_of_eval(
    alloc: Global,
    ended: Result<Status, EvalError>,
    failures: u64,
    written: &[u8],
) -> Result<String, AllocError> {
    let name = match ended {
        Ok(status) => name_of(status),
        Err(EvalError::Write) => "Write",
        Err(EvalError::OutOfMemory) => return Err(AllocError),
    };
    let written = str::from_utf8(written).unwrap_or("no text");
    format!(in alloc; "{name}, failures {failures}: {written}")
}

fn name_of(status: Status) -> &'static str {
    match status {
        Status::Done => "Done",
        Status::Fault => "Fault",
        Status::BadCommandLine => "BadCommandLine",
        Status::Stream => "Stream",
        Status::OutOfMemory => "OutOfMemory",
    }
}

/// How the check of a file ends, how many failures of the reader and of the writer were counted, and what is written.
fn check(alloc: Global, file: &str) -> Result<String, AllocError> {
    let mut input = Counted::new(file.as_bytes());
    let mut out = Counted::new(Vec::new(alloc));
    let ended = check_to(alloc, &mut input, &mut out);
    let failures = (input.failures(), out.failures());
    let written = out.into_inner();
    told_of_check(alloc, status_in(&ended), failures, written.as_slice())
}

fn check_narrow(alloc: Global, narrow: Narrow, file: &str) -> Result<String, AllocError> {
    let mut input = Counted::new(file.as_bytes());
    let mut out = Counted::new(narrow);
    let ended = check_to(alloc, &mut input, &mut out);
    let failures = (input.failures(), out.failures());
    told_of_check(alloc, status_in(&ended), failures, b"")
}

/// The same of a file whose reads fail.
fn check_broken(alloc: Global) -> Result<String, AllocError> {
    let mut input = Counted::new(Broken);
    let mut out = Counted::new(Vec::new(alloc));
    let ended = check_to(alloc, &mut input, &mut out);
    let failures = (input.failures(), out.failures());
    let written = out.into_inner();
    told_of_check(alloc, status_in(&ended), failures, written.as_slice())
}

fn status_in(ended: &Result<Ended, CheckFailure>) -> Result<Status, CheckFailure> {
    match ended {
        Ok(ended) => Ok(ended.status),
        Err(failure) => Err(*failure),
    }
}

fn told_of_check(
    alloc: Global,
    ended: Result<Status, CheckFailure>,
    failures: (u64, u64),
    written: &[u8],
) -> Result<String, AllocError> {
    let name = match ended {
        Ok(status) => name_of(status),
        Err(CheckFailure::Read) => "Read",
        Err(CheckFailure::Write) => "Write",
        Err(CheckFailure::OutOfMemory) => return Err(AllocError),
    };
    let written = str::from_utf8(written).unwrap_or("no text");
    format!(in alloc;
        "{name}, failures {} and {}: {written}",
        failures.0, failures.1
    )
}

/// How the compilation of an expression ends, how many failures of the writer were counted, and what is written: in hexadecimal
/// digits if it is the bytes of an image.
fn encode(alloc: Global, text: &str) -> Result<String, AllocError> {
    let mut out = Counted::new(Vec::new(alloc));
    let ended = encode_to(alloc, text, &mut out);
    let failures = out.failures();
    let written = out.into_inner();
    if ended != Ok(Status::Done) {
        return told_of_eval(alloc, ended, failures, written.as_slice());
    }
    let digits = digits_of(alloc, written.as_slice())?;
    told_of_eval(alloc, ended, failures, digits.as_bytes())
}

fn encode_narrow(alloc: Global, narrow: Narrow, text: &str) -> Result<String, AllocError> {
    let mut out = Counted::new(narrow);
    let ended = encode_to(alloc, text, &mut out);
    told_of_eval(alloc, ended, out.failures(), b"")
}

/// How the decoding of bytes that are written in hexadecimal digits ends, the failures that were counted, and what is written.
fn decode(alloc: Global, digits: &str) -> Result<String, AllocError> {
    let bytes = bytes_in(alloc, digits)?;
    decoded_by(alloc, bytes.as_slice())
}

fn decoded_by<R: Read + Drop>(alloc: Global, file: R) -> Result<String, AllocError> {
    let mut input = Counted::new(file);
    let mut out = Counted::new(Vec::new(alloc));
    let ended = decode_to(alloc, &mut input, &mut out);
    let failures = (input.failures(), out.failures());
    let written = out.into_inner();
    told_of_check(alloc, ended, failures, written.as_slice())
}

fn decode_narrow(alloc: Global, narrow: Narrow, digits: &str) -> Result<String, AllocError> {
    let bytes = bytes_in(alloc, digits)?;
    let mut input = Counted::new(bytes.as_slice());
    let mut out = Counted::new(narrow);
    let ended = decode_to(alloc, &mut input, &mut out);
    let failures = (input.failures(), out.failures());
    told_of_check(alloc, ended, failures, b"")
}

/// How many bytes a reader gives when four are asked for, if it does not fail.
fn read_of<R: Read>(input: &mut R) -> Option<usize> {
    let mut bytes = [0u8; 4];
    input.read(&mut bytes).ok()
}

fn read(alloc: Global, text: &str) -> Result<String, AllocError> {
    let mut input = Counted::new(text.as_bytes());
    let count = read_of(&mut input);
    format!(in alloc; "{count:?}, failures {}", input.failures())
}

fn read_broken(alloc: Global) -> Result<String, AllocError> {
    let mut input = Counted::new(Broken);
    let (first, second) = (read_of(&mut input), read_of(&mut input));
    format!(in alloc; "{first:?} {second:?}, failures {}", input.failures())
}
