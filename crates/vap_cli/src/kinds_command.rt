//! The command `kinds`.

ghost use Rattle.std.specs.Prelude.{◌≡◌, ◌+◌, ◌-◌, ◌^◌, ◌<◌, OnOk, IsErrOf};
ghost use Rattle.base_containers.specs.Counted.{failures_of};
ghost use Rattle.base_containers.specs.Lines.{StopsReading};

use crate::check::{Ended, write_lines};
use crate::definition::line_of;
use crate::expansion::Source;
use crate::failure::CheckFailure;
use crate::kinds_fault::{KindsError, KindsFault};
use crate::resources::{Resource, resources_of};
use crate::rest::take_rest;
use crate::status::Status;
use crate::whole_document::{DocumentError, document_of};
use base_containers::{Counted, LineReader};
use serde_json::{Map, Value as Json};
use std::alloc::{AllocError, Global};
use std::io::{Read, Write};
use vap_match::text_in;

/// The bytes of a document, none if there are more than it may have.
#[tactic(auto, using(base_containers::proofs::BytesRead::stops_reading))]
fn bytes_in<R: Read>(alloc: Global, file: &mut Counted<R>) -> Result<Option<Vec<u8>>, CheckFailure>
    ensures no_failure { OnOk result (failures_of file.new ≡ failures_of file.old) }
    ensures read { IsErrOf result CheckFailure.Read → StopsReading R.remaining file.old file.new }
    ensures write { IsErrOf result CheckFailure.Write → ⊥ }
{
    let mut reader = LineReader::new(alloc)?;
    let mut bytes = Vec::new(alloc);
    let is_whole = take_rest(alloc, &mut reader, file, &mut bytes)?;
    Ok(if is_whole { Some(bytes) } else { None })
}

fn not_open_api(what: &'static str) -> KindsError {
    KindsError::Fault(KindsFault::NotOpenApi(what))
}

fn paths_in(document: &Json) -> Option<&Map<String, Json>> {
    document.get("paths")?.as_object()
}

fn schemas_in(document: &Json) -> Option<&Map<String, Json>> {
    document.get("components")?.get("schemas")?.as_object()
}

/// The lines of kinds.
fn lines_of(source: Source<'_>, resources: &[Resource]) -> Result<String, KindsError> {
    let mut lines = String::new(source.alloc);
    for resource in resources {
        let line = line_of(source, resource)?;
        lines.push_str(line.as_str())?;
        lines.push_str("\n")?;
    }
    Ok(lines)
}

/// The lines of the kinds in a document.
fn lines_in(alloc: Global, document: &Json) -> Result<String, KindsError> {
    if !text_in(document, "openapi").starts_with("3.") {
        return Err(not_open_api("its `openapi` is no version 3"));
    }
    let Some(paths) = paths_in(document) else {
        return Err(not_open_api("its `paths` are no object"));
    };
    let Some(schemas) = schemas_in(document) else {
        return Err(not_open_api("its `components.schemas` are no object"));
    };
    let resources = resources_of(alloc, paths)?;
    lines_of(Source { alloc, schemas }, resources.as_slice())
}

/// The lines of the kinds in the document of these bytes.
fn lines_of_bytes(alloc: Global, bytes: Option<Vec<u8>>) -> Result<String, KindsError> {
    let Some(bytes) = bytes else {
        return Err(KindsError::Fault(KindsFault::TooLong));
    };
    match document_of(alloc, bytes.as_slice()) {
        Ok(document) => lines_in(alloc, &document),
        Err(DocumentError::Fault(fault)) => Err(KindsError::Fault(KindsFault::Document(fault))),
        Err(DocumentError::OutOfMemory) => Err(KindsError::OutOfMemory),
    }
}

/// What is written to standard error if no kind is written.
fn note_of(alloc: Global, lines: &str) -> Result<Option<String>, AllocError> {
    if !lines.is_empty() {
        return Ok(None);
    }
    let note = "No path of the document ends in `{name}` and leads to objects of a kind.\n";
    Ok(Some(String::from_str(alloc, note)?))
}

/// Writes the definitions of the kinds in an OpenAPI v3 document, a line each, and answers how the program then ends. If the
/// document is refused, nothing is written. `Read` comes only if a read failed, or if there were as many as there may be.
pub fn kinds_to<R: Read, W: Write>(
    alloc: Global,
    file: &mut Counted<R>,
    out: &mut Counted<W>,
) -> Result<Ended, CheckFailure>
    requires { failures_of out.old < 2 ^ 64 - 1 }
    ensures all_read { OnOk result (failures_of file.new ≡ failures_of file.old) }
    ensures all_written { OnOk result (failures_of out.new ≡ failures_of out.old) }
    ensures read { IsErrOf result CheckFailure.Read → StopsReading R.remaining file.old file.new }
    ensures write { IsErrOf result CheckFailure.Write → failures_of out.new ≡ failures_of out.old + 1 }
{
    let bytes = bytes_in(alloc, file)?;
    match lines_of_bytes(alloc, bytes) {
        Ok(lines) => {
            let note = note_of(alloc, lines.as_str())?;
            write_lines(lines.as_bytes(), out)?;
            Ok(Ended {
                status: Status::Done,
                note,
            })
        }
        Err(KindsError::Fault(fault)) => Ok(Ended {
            status: Status::Fault,
            note: Some(fault.note(alloc)?),
        }),
        Err(KindsError::OutOfMemory) => Err(CheckFailure::OutOfMemory),
    }
}
