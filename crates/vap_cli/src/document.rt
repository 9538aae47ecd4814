//! From a file to its document.

ghost use Rattle.std.specs.Prelude.{◌≡◌, ◌+◌, ◌-◌, ◌^◌, ◌<◌, ◌≤◌, length, Ok, IfOk, IfErr, OnOk, IsErrOf};
ghost use Rattle.std.specs.Io.KnownBytes.{Consumes, IsAtEnd};
ghost use Rattle.serde_json.specs.View.{view};
ghost use Rattle.base_containers.specs.Counted.{inner_of, failures_of};
ghost use Rattle.vap_cli.specs.Documents.{IsDocumentOf, Spells, SpellsNone, longest};
ghost use Rattle.vap_cli.specs.declared.failure.CheckFailure.TheVariants as failure;

use crate::failure::CheckFailure;
use crate::refusal::FileRefusal;
use base_containers::Counted;
use serde_json::Value as Json;
use std::alloc::{AllocError, Global};
use std::io::Read;

/// The most bytes that a file may have.
pub const LONGEST: usize = 1_048_576;

/// The bytes of a file: all, unless there are more than a file may have. The first read that fails ends this.
pub fn bytes_of<R: Read>(alloc: Global, file: &mut Counted<R>) -> Result<Vec<u8>, CheckFailure>
    requires { failures_of file.old < 2 ^ 64 - 1 }
    ensures taken { IfOk result (λ bytes. Consumes (R.remaining (inner_of file.old)) (R.remaining (inner_of file.new)) bytes.items) }
    ensures whole { IfOk result (λ bytes. length bytes.items ≤ longest → IsAtEnd (R.remaining (inner_of file.new))) }
    ensures all_read { OnOk result (failures_of file.new ≡ failures_of file.old) }
    ensures read { IsErrOf result failure.Read → failures_of file.new ≡ failures_of file.old + 1 }
    ensures write { IsErrOf result failure.Write → ⊥ }
{
    let mut chunk = vec![in alloc; 0u8; 65536]?;
    let mut bytes = Vec::new(alloc);
    while bytes.len() <= LONGEST {
        match file.read(chunk.as_mut_slice()) {
            Ok(0) => return Ok(bytes),
            Ok(count) => bytes.extend_from_slice(&chunk[..count])?,
            Err(_) => return Err(CheckFailure::Read),
        }
    }
    Ok(bytes)
}

/// The document of a file, or why there is none.
pub fn document_of(alloc: Global, bytes: &[u8]) -> Result<Result<Json, FileRefusal>, AllocError>
    ensures { IfOk result (IsDocumentOf bytes.now) }
{
    if bytes.len() > LONGEST {
        return Ok(Err(FileRefusal::TooLong));
    }
    match json_of(alloc, bytes) {
        Ok(json) => Ok(Ok(json)),
        Err(JsonFault::BadJson) => Ok(Err(FileRefusal::BadJson)),
        Err(JsonFault::OutOfMemory) => Err(AllocError),
    }
}

#[derive(Clone, Copy, Debug, PartialEq, Eq)]
enum JsonFault {
    BadJson,
    OutOfMemory,
}

fn json_of(alloc: Global, bytes: &[u8]) -> Result<Json, JsonFault>
    ensures value { IfOk result (λ v. Spells bytes.now (view v)) }
    ensures bad { IsErrOf result JsonFault.BadJson → SpellsNone bytes.now }
{
    match Json::from_slice(alloc, bytes) {
        Ok(json) => Ok(json),
        Err(error) => Err(if error.is_memory() {
            JsonFault::OutOfMemory
        } else {
            JsonFault::BadJson
        }),
    }
}
