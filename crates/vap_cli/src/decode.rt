//! The command `image decode`.

ghost use Rattle.std.specs.Prelude.{◌≡◌, ◌+◌, ◌<◌, ◌^◌, ◌-◌, IfOk, OnOk, IsErrOf};
ghost use Rattle.std.specs.Io.KnownBytes.{Appends};
ghost use Rattle.cel_verify.specs.Accepted.{IsAccepted};
ghost use Rattle.base_containers.specs.Counted.{inner_of, failures_of};
ghost use Rattle.vap_cli.specs.declared.status.Status.TheVariants.{Done, Fault};
ghost use Rattle.vap_cli.specs.declared.failure.CheckFailure.TheVariants as failure;
ghost use Rattle.vap_cli.specs.Told.{IsDecoded, TellsBytes};

use crate::document::{LONGEST, bytes_of};
use crate::failure::CheckFailure;
use crate::listing::listing;
use crate::status::Status;
use base_containers::Counted;
use cel_code::{Image, ImageError, decode};
use cel_machine::{Matchers, Run, RunError, RunFault, Slots, run, slots_fit};
use cel_value::{CelError, Value, to_json};
use cel_verify::{Program, VerifyError, VerifyFault, verify};
use std::alloc::{AllocError, Global};
use std::io::{Read, Write};

/// What is written, and how the program then ends.
#[derive(Drop)]
struct Told {
    text: String,
    status: Status,
}

/// Writes what the image of a file's bytes holds, its bounds, and, if it has no slots, what it results in; or a line that says why
/// the bytes or the image are refused. Answers how the program then ends.
pub fn decode_to<R: Read, W: Write>(
    alloc: Global,
    file: &mut Counted<R>,
    out: &mut Counted<W>,
) -> Result<Status, CheckFailure>
    requires reads { failures_of file.old < 2 ^ 64 - 1 }
    requires writes { failures_of out.old < 2 ^ 64 - 1 }
    ensures told { IfOk result (TellsBytes (R.remaining (inner_of file.old)) (R.remaining (inner_of file.new))) }
    ensures all_read { OnOk result (failures_of file.new ≡ failures_of file.old) }
    ensures all_written { OnOk result (failures_of out.new ≡ failures_of out.old) }
    ensures read { IsErrOf result failure.Read → failures_of file.new ≡ failures_of file.old + 1 }
    ensures write { IsErrOf result failure.Write → failures_of out.new ≡ failures_of out.old + 1 }
{
    let bytes = bytes_of(alloc, file)?;
    let told = of_bytes(alloc, bytes.as_slice())?;
    out.write_all(told.text.as_bytes())
        .map_err(|_| CheckFailure::Write)?;
    out.flush().map_err(|_| CheckFailure::Write)?;
    Ok(told.status)
}

// What is written for the bytes of a file.
#[tactic(auto, using(crate::proofs::Accepted::none_decoded))]
fn of_bytes(alloc: Global, bytes: &[u8]) -> Result<Told, AllocError>
    ensures { IfOk result (λ d. IsDecoded bytes.now d.status) }
{
    if bytes.len() > LONGEST {
        return refused(String::from_str(alloc, "refused: TooLong\n"));
    }
    match decode(alloc, bytes) {
        Ok(image) => verified(alloc, image),
        Err(ImageError::Fault(fault)) => {
            refused(format!(in alloc; "refused: {}\n", fault.name()))
        }
        Err(ImageError::OutOfMemory) => Err(AllocError),
    }
}

// What an image holds, and its bounds, or why it is refused.
fn verified(alloc: Global, image: Image) -> Result<Told, AllocError>
    ensures { IfOk result (λ d. d.status ≡ Done → IsAccepted image) }
{
    let text = listing(alloc, &image);
    match verify(alloc, image) {
        Ok(program) => bounded(alloc, text, &program),
        Err((error, _)) => unverified(text, error),
    }
}

// The first rule that an image breaks.
fn unverified(text: Result<String, AllocError>, error: VerifyError) -> Result<Told, AllocError>
    ensures { IfOk result (λ d. d.status ≡ Fault) }
{
    match error {
        VerifyError::Fault(fault) => refused(behind(text, fault)),
        VerifyError::OutOfMemory => Err(AllocError),
    }
}

fn behind(text: Result<String, AllocError>, fault: VerifyFault) -> Result<String, AllocError> {
    let mut text = text?;
    write!(text, "refused: {fault}\n")?;
    Ok(text)
}

fn refused(text: Result<String, AllocError>) -> Result<Told, AllocError>
    ensures { IfOk result (λ d. d.status ≡ Fault) }
{
    Ok(Told {
        text: text?,
        status: Status::Fault,
    })
}

// The bounds of a program, and what it results in if it has no slots.
fn bounded(
    alloc: Global,
    text: Result<String, AllocError>,
    program: &Program,
) -> Result<Told, AllocError> {
    let mut text = text?;
    let steps = program.step_bound();
    let cost = program.cost_bound();
    let depth = program.max_depth();
    write!(
        text,
        "step_bound {steps}\ncost_bound {cost}\nmax_depth {depth}\n"
    )?;
    let lent: Vec<Result<&Value, CelError>> = Vec::new(alloc);
    let made: Vec<Result<Value, CelError>> = Vec::new(alloc);
    let slots = Slots::new(lent.as_slice(), made.as_slice());
    if !slots_fit(program, &slots) {
        return Ok(Told {
            text,
            status: Status::Done,
        });
    }
    let mut matchers = Matchers::new(alloc);
    ended(alloc, text, run(alloc, program, &slots, &mut matchers))
}

// What a run resulted in, and what it charged.
fn ended(alloc: Global, text: String, run: Result<Run, RunError>) -> Result<Told, AllocError> {
    match run {
        Ok(run) => outcome(alloc, text, &run),
        Err(RunError::Fault(RunFault::Pattern)) => pattern(text),
        Err(RunError::OutOfMemory) => Err(AllocError),
    }
}

fn outcome(alloc: Global, mut text: String, run: &Run) -> Result<Told, AllocError> {
    let charged = run.charged;
    let status = match &run.outcome {
        Ok(value) => {
            let json = to_json(alloc, value)?;
            write!(text, "value {}\ncharged {charged}\n", json.as_str())?;
            Status::Done
        }
        Err(error) => {
            write!(text, "error: {}\ncharged {charged}\n", error.name())?;
            Status::Fault
        }
    };
    Ok(Told { text, status })
}

// A pattern is not built.
fn pattern(mut text: String) -> Result<Told, AllocError>
    ensures { IfOk result (λ d. d.status ≡ Fault) }
{
    text.push_str("refused: Pattern\n")?;
    refused(Ok(text))
}
