//! From an input to the objects that it leaves: a stream of lines, or one document of any layout.

ghost use Rattle.std.specs.Prelude.{◌≡◌, ◌≢◌, IfOk, IsErrOf, OnOk};
ghost use Rattle.base_containers.specs.Counted.{failures_of, inner_of};
ghost use Rattle.base_containers.specs.Lines.{AllGive, IsCutOff, StopsReading, empty_reads};

use crate::input_fault::{InputFault, document_note, line_note};
use crate::stream::{Stream, is_blank};
use crate::wrapping::{is_alone, kind_of, part_at_fault};
use base_containers::{Counted, Ending, LineReader};
use serde_json::Value as Json;
use std::alloc::{AllocError, Global};
use std::io::Read;
use vap_cli::{CheckFailure, DocumentError, MOST_BYTES, document_of, take_rest};
use vap_read::LineKind;
use vap_read_objects::Objects;

/// The objects that an input leaves, or what is written to standard error if it is refused.
pub type Taken = Result<Objects, String>;

/// The lines at the front of an input up to the first that is not blank, or all if each is: how many there are, and how the last ended.
#[derive(Clone, Copy)]
struct Front {
    lines: u64,
    ending: Ending,
}

/// Puts the blank lines at the front of an input and the line after them into `bytes`.
fn take_front<R: Read>(
    alloc: Global,
    reader: &mut LineReader,
    input: &mut Counted<R>,
    bytes: &mut Vec<u8>,
) -> Result<Front, CheckFailure>
    ensures no_failure { OnOk result (failures_of input.new ≡ failures_of input.old) }
    ensures given { IfOk result (λ front. AllGive (empty_reads front.ending) (R.remaining (inner_of input.old))
        (R.remaining (inner_of input.new)) reader.old reader.new) }
    ensures read { IsErrOf result CheckFailure.Read → IsCutOff R.remaining input.old input.new reader.old reader.new }
{
    let mut line = Vec::new(alloc);
    for lines in 1..MOST_BYTES as u64 {
        line.clear();
        let ending = reader.next(input, &mut line)?;
        put(bytes, line.as_slice())?;
        if ending != Ending::Feed || !is_blank(line.as_slice()) {
            return Ok(Front { lines, ending });
        }
        put(bytes, b"\n".as_slice())?;
    }
    Ok(Front {
        lines: MOST_BYTES as u64,
        ending: Ending::TooLong,
    })
}

fn put(bytes: &mut Vec<u8>, more: &[u8]) -> Result<(), AllocError> {
    bytes.extend_from_slice(more)
}

/// The document of the front of an input, if it is a line of a stream.
fn line_of(alloc: Global, bytes: &[u8]) -> Result<Option<Json>, AllocError> {
    match document_of(alloc, bytes) {
        Ok(json) if kind_of(&json) != LineKind::Unknown => Ok(Some(json)),
        Ok(_) | Err(DocumentError::Fault(_)) => Ok(None),
        Err(DocumentError::OutOfMemory) => Err(AllocError),
    }
}

fn refused_line(
    alloc: Global,
    number: u64,
    bytes: &[u8],
    fault: InputFault,
) -> Result<Taken, CheckFailure>
    ensures { IsErrOf result CheckFailure.Read → ⊥ }
{
    let part = part_at_fault(alloc, bytes)?;
    Ok(Err(line_note(alloc, number, part.as_str(), fault)?))
}

fn refused_document(alloc: Global, bytes: &[u8], fault: InputFault) -> Result<Taken, CheckFailure>
    ensures { IsErrOf result CheckFailure.Read → ⊥ }
{
    let part = part_at_fault(alloc, bytes)?;
    Ok(Err(document_note(alloc, part.as_str(), fault)?))
}

/// Takes the lines of a stream after those at the front, which are read already.
fn of_stream<R: Read>(
    alloc: Global,
    front: Front,
    mut stream: Stream,
    reader: &mut LineReader,
    input: &mut Counted<R>,
) -> Result<Taken, CheckFailure>
    ensures no_failure { OnOk result (failures_of input.new ≡ failures_of input.old) }
    ensures read { IsErrOf result CheckFailure.Read → (front.ending ≢ Ending.End)
        × IsCutOff R.remaining input.old input.new reader.old reader.new }
{
    let mut ending = front.ending;
    let mut line = Vec::new(alloc);
    for number in front.lines.saturating_add(1)..u64::MAX {
        if ending != Ending::Feed {
            break;
        }
        line.clear();
        ending = reader.next(input, &mut line)?;
        if let Some(fault) = stream.take_line(line.as_slice(), ending)? {
            return refused_line(alloc, number, line.as_slice(), fault);
        }
    }
    Ok(Ok(stream.into_objects()))
}

/// Takes the document of an input that is no stream.
fn take_document(
    alloc: Global,
    stream: &mut Stream,
    bytes: &[u8],
) -> Result<Option<InputFault>, AllocError> {
    match document_of(alloc, bytes) {
        Ok(json) if is_alone(&json) => stream.take_object(json),
        Ok(json) => stream.take_json(json),
        Err(DocumentError::Fault(fault)) => Ok(Some(InputFault::Document(fault))),
        Err(DocumentError::OutOfMemory) => Err(AllocError),
    }
}

/// Takes an input that is no stream: the rest of it is read, and it is one document.
fn of_document<R: Read>(
    alloc: Global,
    front: Front,
    mut bytes: Vec<u8>,
    reader: &mut LineReader,
    input: &mut Counted<R>,
) -> Result<Taken, CheckFailure>
    ensures no_failure { OnOk result (failures_of input.new ≡ failures_of input.old) }
    ensures read { IsErrOf result CheckFailure.Read → (front.ending ≢ Ending.End)
        × IsCutOff R.remaining input.old input.new reader.old reader.new }
{
    if front.ending == Ending::Feed {
        put(&mut bytes, b"\n".as_slice())?;
    }
    if front.ending != Ending::End {
        let is_whole = take_rest(alloc, reader, input, &mut bytes)?;
        if !is_whole {
            return refused_document(alloc, &[], InputFault::TooLong);
        }
    }
    let mut stream = Stream::new(alloc)?;
    match take_document(alloc, &mut stream, bytes.as_slice())? {
        Some(fault) => refused_document(alloc, bytes.as_slice(), fault),
        None => Ok(Ok(stream.into_objects())),
    }
}

/// Whether there are only blank lines.
fn is_empty(bytes: &[u8]) -> bool {
    bytes.iter().all(|byte| *byte == b'\n' || *byte == b'\r')
}

/// The objects that an input leaves, or why it is refused. It is a stream if its first line that is not blank is a line of one, and
/// otherwise one document.
pub fn objects_in<R: Read>(alloc: Global, input: &mut Counted<R>) -> Result<Taken, CheckFailure>
    ensures no_failure { OnOk result (failures_of input.new ≡ failures_of input.old) }
    ensures read { IsErrOf result CheckFailure.Read → StopsReading R.remaining input.old input.new }
{
    let mut reader = LineReader::new(alloc)?;
    let mut bytes = Vec::new(alloc);
    let front = take_front(alloc, &mut reader, input, &mut bytes)?;
    if front.ending == Ending::End && is_empty(bytes.as_slice()) {
        return Ok(Ok(Objects::new(alloc)));
    }
    if front.ending != Ending::TooLong {
        if let Some(json) = line_of(alloc, bytes.as_slice())? {
            return begun(alloc, front, json, bytes.as_slice(), &mut reader, input);
        }
    }
    of_document(alloc, front, bytes, &mut reader, input)
}

/// Takes a stream whose first line is this one.
fn begun<R: Read>(
    alloc: Global,
    front: Front,
    json: Json,
    bytes: &[u8],
    reader: &mut LineReader,
    input: &mut Counted<R>,
) -> Result<Taken, CheckFailure>
    ensures no_failure { OnOk result (failures_of input.new ≡ failures_of input.old) }
    ensures read { IsErrOf result CheckFailure.Read → (front.ending ≢ Ending.End)
        × IsCutOff R.remaining input.old input.new reader.old reader.new }
{
    let mut stream = Stream::new(alloc)?;
    match stream.take_json(json)? {
        Some(fault) => refused_line(alloc, front.lines, bytes, fault),
        None => of_stream(alloc, front, stream, reader, input),
    }
}
