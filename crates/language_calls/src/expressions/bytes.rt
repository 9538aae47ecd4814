//! Images as bytes, which rows write in hexadecimal digits.

use calls_notation::{Asked, unknown};
use cel_code::{Image, ImageError, ImageFault, decode, encode, has_spelling};
use cel_machine::{Matchers, Run, RunError, RunFault, Slots, run, slots_fit};
use cel_value::{CelError, Value, to_json};
use cel_verify::{Program, VerifyError, verify};
use std::alloc::{AllocError, Global};

/// The answer to a call of bytes.
pub fn answer(alloc: Global, asked: &Asked) -> Result<String, AllocError> {
    let bytes = bytes_in(alloc, asked.input)?;
    match asked.call {
        "decoded" => decoded(alloc, bytes.as_slice()),
        "prefixes" => prefixes(alloc, bytes.as_slice()),
        "changes" => changes(alloc, bytes.as_slice()),
        _ => unknown(alloc),
    }
}

/// The bytes of hexadecimal digits.
pub fn bytes_in(alloc: Global, digits: &str) -> Result<Vec<u8>, AllocError> {
    let mut bytes = Vec::new(alloc);
    for pair in digits.as_bytes().chunks(2) {
        if let [high, low] = pair {
            bytes.push(digit(*high).wrapping_mul(16).wrapping_add(digit(*low)))?;
        }
    }
    Ok(bytes)
}

/// The hexadecimal digits of bytes.
pub fn digits_of(alloc: Global, bytes: &[u8]) -> Result<String, AllocError> {
    let mut digits = String::new(alloc);
    for byte in bytes {
        write!(digits, "{byte:02x}")?;
    }
    Ok(digits)
}

fn digit(character: u8) -> u8 {
    match character {
        b'0'..=b'9' => character.wrapping_sub(b'0'),
        b'a'..=b'f' => character.wrapping_sub(b'a').wrapping_add(10),
        _ => 0,
    }
}

/// Why the bytes are no image, or why the image is not accepted, or its bounds and, if there are no slots, what a run results in.
fn decoded(alloc: Global, bytes: &[u8]) -> Result<String, AllocError> {
    match decode(alloc, bytes) {
        Ok(image) => spelt(alloc, bytes, image),
        Err(ImageError::Fault(fault)) => String::from_str(alloc, fault.name()),
        Err(ImageError::OutOfMemory) => Err(AllocError),
    }
}

fn spelt(alloc: Global, bytes: &[u8], image: Image) -> Result<String, AllocError> {
    match is_spelt(alloc, bytes, &image) {
        Ok(true) => verified(alloc, image),
        Ok(false) => String::from_str(alloc, "spelt otherwise"),
        Err(error) => Err(error),
    }
}

/// Whether the bytes are the spelling of an image.
fn is_spelt(alloc: Global, bytes: &[u8], image: &Image) -> Result<bool, AllocError> {
    if !has_spelling(image) {
        return Ok(false);
    }
    Ok(encode(alloc, image)?.as_slice() == bytes)
}

fn verified(alloc: Global, image: Image) -> Result<String, AllocError> {
    match verify(alloc, image) {
        Ok(program) => bounded(alloc, &program),
        Err((VerifyError::OutOfMemory, _)) => Err(AllocError),
        Err((error, _)) => format!(in alloc; "{error}"),
    }
}

fn bounded(alloc: Global, program: &Program) -> Result<String, AllocError> {
    let lent: Vec<Result<&Value, CelError>> = Vec::new(alloc);
    let made: Vec<Result<Value, CelError>> = Vec::new(alloc);
    let slots = Slots::new(lent.as_slice(), made.as_slice());
    let mut out = format!(in alloc;
        "steps {}, cost {}, operands {}",
        program.step_bound(),
        program.cost_bound(),
        program.max_depth()
    )?;
    if slots_fit(program, &slots) {
        let mut matchers = Matchers::new(alloc);
        put_run(alloc, &mut out, run(alloc, program, &slots, &mut matchers))?;
    }
    Ok(out)
}

fn put_run(alloc: Global, out: &mut String, run: Result<Run, RunError>) -> Result<(), AllocError> {
    match run {
        Ok(run) => put_ran(alloc, out, &run),
        Err(RunError::Fault(RunFault::Pattern)) => out.push_str("; a pattern is not built"),
        Err(RunError::OutOfMemory) => Err(AllocError),
    }
}

fn put_ran(alloc: Global, out: &mut String, run: &Run) -> Result<(), AllocError> {
    match &run.outcome {
        Ok(value) => write!(out, "; {}", to_json(alloc, value)?.as_str())?,
        Err(error) => write!(out, "; error: {}", error.name())?,
    }
    write!(out, ", charged {}, steps {}", run.charged, run.steps)
}

/// How many of the proper prefixes of the bytes are truncated, of how many.
fn prefixes(alloc: Global, bytes: &[u8]) -> Result<String, AllocError> {
    let mut truncated: u64 = 0;
    for length in 0..bytes.len() {
        if is_truncated(alloc, &bytes[..length])? {
            truncated = truncated.wrapping_add(1);
        }
    }
    format!(in alloc; "{truncated} of {}", bytes.len())
}

fn is_truncated(alloc: Global, bytes: &[u8]) -> Result<bool, AllocError> {
    match decode(alloc, bytes) {
        Err(ImageError::Fault(fault)) => Ok(fault == ImageFault::Truncated),
        Err(ImageError::OutOfMemory) => Err(AllocError),
        Ok(_) => Ok(false),
    }
}

/// In how many ways one byte can be changed to an image that is spelt otherwise.
fn changes(alloc: Global, bytes: &[u8]) -> Result<String, AllocError> {
    let mut lost: u64 = 0;
    for place in 0..bytes.len() {
        for byte in 0..=255u8 {
            let mut changed = Vec::from_slice(alloc, bytes)?;
            changed[place] = byte;
            if is_lost(alloc, changed.as_slice())? {
                lost = lost.wrapping_add(1);
            }
        }
    }
    format!(in alloc; "{lost}")
}

fn is_lost(alloc: Global, bytes: &[u8]) -> Result<bool, AllocError> {
    match decode(alloc, bytes) {
        Ok(image) => match is_spelt(alloc, bytes, &image) {
            Ok(is_spelt) => Ok(!is_spelt),
            Err(error) => Err(error),
        },
        Err(ImageError::Fault(_)) => Ok(false),
        Err(ImageError::OutOfMemory) => Err(AllocError),
    }
}
