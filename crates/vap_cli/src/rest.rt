//! What is left of an input, as the bytes of a document.

ghost use Rattle.std.specs.Prelude.{◌≡◌, ◌≤◌, length, IfErr, IfOk, IsErrOf, IsTrue, OnOk};
ghost use Rattle.base_containers.specs.Counted.{failures_of};
ghost use Rattle.base_containers.specs.Lines.{IsCutOff};

use base_containers::{Counted, Ending, LineError, LineReader};
use std::alloc::Global;
use std::io::Read;

/// The most bytes of a document.
pub const MOST_BYTES: usize = 67_108_864;

/// Puts what is left of an input after the bytes that are there of a document, and answers whether the document has no more than it
/// may have: reading stops when it has more. `Read` comes only if a read failed, or if the reader may read no more.
pub fn take_rest<R: Read>(
    alloc: Global,
    reader: &mut LineReader,
    input: &mut Counted<R>,
    document: &mut Vec<u8>,
) -> Result<bool, LineError>
    ensures whole { IfOk result (λ whole. IsTrue whole → length document.new.items ≤ MOST_BYTES) }
    ensures no_failure { OnOk result (failures_of input.new ≡ failures_of input.old) }
    ensures read { IsErrOf result LineError.Read → IsCutOff R.remaining input.old input.new reader.old reader.new }
{
    let mut piece = Vec::new(alloc);
    // Each piece that is not the last adds at least one byte.
    for _ in 0..=MOST_BYTES {
        piece.clear();
        let ending = reader.next(input, &mut piece)?;
        put_piece(piece.as_slice(), ending, document)?;
        if document.len() > MOST_BYTES {
            return Ok(false);
        }
        if ending == Ending::End {
            return Ok(true);
        }
    }
    Ok(false)
}

/// Puts a piece of the input after a document, with the line feed that ended it.
fn put_piece(piece: &[u8], ending: Ending, document: &mut Vec<u8>) -> Result<(), LineError>
    ensures { IfErr result (λ error. error ≡ LineError.OutOfMemory) }
{
    document
        .extend_from_slice(piece)
        .map_err(|_| LineError::OutOfMemory)?;
    if ending == Ending::Feed {
        document.push(b'\n').map_err(|_| LineError::OutOfMemory)?;
    }
    Ok(())
}
