//! Lines of readers, and how failures are counted.

ghost use Rattle.std.specs.Prelude.{◌≡◌};
ghost use Rattle.base_containers.specs.Counted.{failures_of};

use base_containers::{Counted, Ending, LONGEST_LINE, LineError, LineReader, MOST_READS};
use calls_notation::{Asked, unknown};
use std::alloc::{AllocError, Global};
use std::io;
use std::io::{ErrorKind, Read, Write};

/// The answer to a call of lines.
pub fn answer(alloc: Global, asked: &Asked) -> Result<String, AllocError> {
    let number = asked.number(0) as usize;
    match asked.call {
        "read" => lines(alloc, asked.input, number),
        "pending" => pending(alloc, asked.input, number),
        "behind" => behind(alloc, asked.input, number),
        "failing" => failing(alloc, asked.input, number),
        "endless" => without_end(alloc),
        "written" => written(alloc, asked.input),
        "limits" => format!(in alloc; "{LONGEST_LINE} {MOST_READS}"),
        _ => unknown(alloc),
    }
}

/// A reader of a text, and after it of another so many times, that gives at most so many bytes at a read. The read of this number
/// fails, unless it is 0.
#[derive(Drop)]
pub struct Stream<'a> {
    rest: &'a [u8],
    again: &'a [u8],
    times: usize,
    most: usize,
    failing: usize,
}

impl Read for Stream<'_> {
    fn read(&mut self, buf: &mut [u8]) -> io::Result<usize> {
        let fails = self.failing == 1;
        self.failing = self.failing.saturating_sub(1);
        if fails {
            return Err(io::Error::from(ErrorKind::Interrupted));
        }
        if self.rest.is_empty() && self.times > 0 {
            self.times -= 1;
            self.rest = self.again;
        }
        let count = self.rest.len().min(buf.len()).min(self.most);
        let (now, later) = self.rest.split_at(count);
        buf[..count].copy_from_slice(now);
        self.rest = later;
        Ok(count)
    }
}

/// A reader of a text, and after it of another so many times.
pub fn repeating<'a>(text: &'a str, again: &'a str, times: usize) -> Stream<'a> {
    Stream {
        rest: text.as_bytes(),
        again: again.as_bytes(),
        times,
        most: usize::MAX,
        failing: 0,
    }
}

/// How a line ended, in a word.
fn mark(ended: Result<Ending, LineError>) -> Result<&'static str, AllocError> {
    match ended {
        Ok(Ending::Feed) => Ok("<feed>"),
        Ok(Ending::End) => Ok("<end>"),
        Ok(Ending::TooLong) => Ok("<too long>"),
        Err(LineError::Read) => Ok("<failed>"),
        Err(LineError::OutOfMemory) => Err(AllocError),
    }
}

/// The bytes of a line, or how many they are if these are many; nothing of one that is too long.
fn shown(
    alloc: Global,
    line: &[u8],
    ended: Result<Ending, LineError>,
) -> Result<String, AllocError> {
    match str::from_utf8(line) {
        _ if ended == Ok(Ending::TooLong) => Ok(String::new(alloc)),
        Ok(text) if line.len() < 16 => String::from_str(alloc, text),
        _ => format!(in alloc; "{}", line.len()),
    }
}

/// The lines of a reader up to its end or the first that is too long, at most 64.
fn told(alloc: Global, input: &mut Counted<Stream<'_>>) -> Result<String, AllocError> {
    let mut reader = LineReader::new(alloc)?;
    let mut told = String::new(alloc);
    let mut line = Vec::new(alloc);
    for _ in 0..64 {
        line.clear();
        let ended = reader.next(input, &mut line);
        told.push_str(shown(alloc, line.as_slice(), ended)?.as_str())?;
        told.push_str(mark(ended)?)?;
        if ended == Ok(Ending::End) || ended == Ok(Ending::TooLong) {
            break;
        }
    }
    Ok(told)
}

/// A reader of a text that gives at most so many bytes at a read. The read of this number fails, unless it is 0.
pub fn counted(text: &str, most: usize, failing: usize) -> Counted<Stream<'_>>
    ensures { failures_of result ≡ 0 }
{
    Counted::new(Stream {
        rest: text.as_bytes(),
        again: b"",
        times: 0,
        most,
        failing,
    })
}

/// The lines of a text if one read gives at most so many bytes.
fn lines(alloc: Global, text: &str, most: usize) -> Result<String, AllocError> {
    told(alloc, &mut counted(text, most, 0))
}

/// The next line of a reader, with how it ended, and whether others may follow. One that is pending whole is taken without a read.
fn next_of(
    alloc: Global,
    reader: &mut LineReader,
    input: &mut Counted<Stream<'_>>,
) -> Result<(String, bool), AllocError> {
    let mut line = Vec::new(alloc);
    if reader.next_pending(&mut line)? {
        let mut told = shown(alloc, line.as_slice(), Ok(Ending::Feed))?;
        told.push_str("<pending>")?;
        return Ok((told, true));
    }
    let ended = reader.next(input, &mut line);
    let mut told = shown(alloc, line.as_slice(), ended)?;
    told.push_str(mark(ended)?)?;
    Ok((told, ended == Ok(Ending::Feed)))
}

/// The lines of a text if one read gives at most so many bytes, and which of them are pending when they are asked for, at most 64.
fn pending(alloc: Global, text: &str, most: usize) -> Result<String, AllocError> {
    let mut input = counted(text, most, 0);
    let mut reader = LineReader::new(alloc)?;
    let mut told = String::new(alloc);
    for _ in 0..64 {
        let (line, follows) = next_of(alloc, &mut reader, &mut input)?;
        told.push_str(line.as_str())?;
        if !follows {
            break;
        }
    }
    Ok(told)
}

/// The lines of a text after so many letters.
fn behind(alloc: Global, text: &str, letters: usize) -> Result<String, AllocError> {
    let mut long = "x".repeat(alloc, letters)?;
    long.push_str(text)?;
    lines(alloc, long.as_str(), usize::MAX)
}

/// The lines of a reader, and how many of its reads failed.
fn told_with_failures(
    alloc: Global,
    input: &mut Counted<Stream<'_>>,
) -> Result<String, AllocError> {
    let told = told(alloc, input)?;
    format!(in alloc; "{}{}", told.as_str(), input.failures())
}

/// The lines of a text if one read gives one byte and the read of this number fails, and how many failed.
fn failing(alloc: Global, text: &str, number: usize) -> Result<String, AllocError> {
    told_with_failures(alloc, &mut counted(text, 1, number))
}

/// The lines of a reader of letters that never ends, and how many reads failed.
fn without_end(alloc: Global) -> Result<String, AllocError> {
    let letters = repeating("", "xxxxxxxxxxxxxxxx", usize::MAX);
    told_with_failures(alloc, &mut Counted::new(letters))
}

fn written_bytes(alloc: Global, text: &str) -> io::Result<Vec<u8>> {
    let mut out = Counted::new(Vec::new(alloc));
    out.write_all(text.as_bytes())?;
    out.flush()?;
    Ok(out.into_inner())
}

/// What a list has that a text was written to, if nothing failed.
fn written(alloc: Global, text: &str) -> Result<String, AllocError> {
    match written_bytes(alloc, text) {
        Ok(bytes) => Ok(String::from_utf8(bytes).unwrap_or(String::new(alloc))),
        Err(_) => Err(AllocError),
    }
}
