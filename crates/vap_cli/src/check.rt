//! The command `check`.

ghost use Rattle.std.specs.Prelude.{◌≡◌, ◌+◌, ◌-◌, ◌^◌, ◌<◌, codes, option_map, IfOk, OnOk, IsErrOf};
ghost use Rattle.std.specs.Io.KnownBytes.{Appends};
ghost use Rattle.serde_json.specs.Find.{get};
ghost use Rattle.serde_json.specs.View.{view};
ghost use Rattle.base_containers.specs.Counted.{inner_of, failures_of};
ghost use Rattle.vap_cli.specs.Checks.{TellsFile, TellsDocument, TellsMade, TellsObject, names_over};
ghost use Rattle.vap_cli.specs.Report.{refused_line, judgement_lines, status_of_judgement};
ghost use Rattle.vap_cli.specs.declared.failure.CheckFailure.TheVariants as failure;
ghost use Rattle.vap_cli.specs.declared.status.Status.TheVariants.{Fault};

use crate::document::{bytes_of, document_of};
use crate::failure::CheckFailure;
use crate::judgement::Judgement;
use crate::made::{Made, made_in};
use crate::object::judged;
use crate::refusal::FileRefusal;
use crate::status::Status;
use base_containers::Counted;
use serde_json::Value as Json;
use std::alloc::Global;
use std::io::{Read, Write};

/// How the program ends, and what is then written to standard error, for people.
#[derive(Drop)]
pub struct Ended {
    pub status: Status,
    pub note: Option<String>,
}

/// Writes what `check` prints for a file, and answers how the program then ends. What the expression may charge is written before
/// the object is looked at.
pub fn check_to<R: Read, W: Write>(
    alloc: Global,
    file: &mut Counted<R>,
    out: &mut Counted<W>,
) -> Result<Ended, CheckFailure>
    requires reads { failures_of file.old < 2 ^ 64 - 1 }
    requires writes { failures_of out.old < 2 ^ 64 - 1 }
    ensures told { IfOk result (λ ended. TellsFile (R.remaining (inner_of file.old)) (R.remaining (inner_of file.new))
        (W.contents (inner_of out.old)) (W.contents (inner_of out.new)) ended.status) }
    ensures all_read { OnOk result (failures_of file.new ≡ failures_of file.old) }
    ensures all_written { OnOk result (failures_of out.new ≡ failures_of out.old) }
    ensures read { IsErrOf result failure.Read → failures_of file.new ≡ failures_of file.old + 1 }
    ensures write { IsErrOf result failure.Write → failures_of out.new ≡ failures_of out.old + 1 }
{
    let bytes = bytes_of(alloc, file)?;
    match document_of(alloc, bytes.as_slice())? {
        Ok(json) => check_document(alloc, &json, out),
        Err(why) => refuse(alloc, why, &Json::Null, out),
    }
}

// The same for a document.
fn check_document<W: Write>(
    alloc: Global,
    json: &Json,
    out: &mut Counted<W>,
) -> Result<Ended, CheckFailure>
    requires { failures_of out.old < 2 ^ 64 - 1 }
    ensures told { IfOk result (λ ended. TellsDocument (view json.now)
        (W.contents (inner_of out.old)) (W.contents (inner_of out.new)) ended.status) }
    ensures all_written { OnOk result (failures_of out.new ≡ failures_of out.old) }
    ensures read { IsErrOf result failure.Read → ⊥ }
    ensures write { IsErrOf result failure.Write → failures_of out.new ≡ failures_of out.old + 1 }
{
    match made_in(alloc, json)? {
        Ok(made) => check_made(alloc, &made, json.get("object"), out),
        Err(why) => refuse(alloc, why, json, out),
    }
}

// What an expression may charge, and what an object results in.
fn check_made<W: Write>(
    alloc: Global,
    made: &Made,
    object: Option<&Json>,
    out: &mut Counted<W>,
) -> Result<Ended, CheckFailure>
    requires scope { made.now.compiled.names ≡ names_over made.now.schema }
    requires writes { failures_of out.old < 2 ^ 64 - 1 }
    ensures told { IfOk result (λ ended. TellsMade made.now (option_map (λ d. view d.now) object.entry)
        (W.contents (inner_of out.old)) (W.contents (inner_of out.new)) ended.status) }
    ensures all_written { OnOk result (failures_of out.new ≡ failures_of out.old) }
    ensures read { IsErrOf result failure.Read → ⊥ }
    ensures write { IsErrOf result failure.Write → failures_of out.new ≡ failures_of out.old + 1 }
{
    let line = format!(in alloc; "estimate {}\n", made.compiled.estimate())?;
    write_lines(line.as_bytes(), out)?;
    match object {
        Some(document) => check_object(alloc, made, document, out),
        None => Ok(Ended {
            status: Status::Done,
            note: None,
        }),
    }
}

// What an object results in.
fn check_object<W: Write>(
    alloc: Global,
    made: &Made,
    document: &Json,
    out: &mut Counted<W>,
) -> Result<Ended, CheckFailure>
    requires scope { made.now.compiled.names ≡ names_over made.now.schema }
    requires writes { failures_of out.old < 2 ^ 64 - 1 }
    ensures told { IfOk result (λ ended. TellsObject made.now (view document.now)
        (W.contents (inner_of out.old)) (W.contents (inner_of out.new)) ended.status) }
    ensures all_written { OnOk result (failures_of out.new ≡ failures_of out.old) }
    ensures read { IsErrOf result failure.Read → ⊥ }
    ensures write { IsErrOf result failure.Write → failures_of out.new ≡ failures_of out.old + 1 }
{
    let judgement = judged(alloc, made, document)?;
    tell(alloc, &judgement, out)
}

// Writes what an object results in.
fn tell<W: Write>(
    alloc: Global,
    judgement: &Judgement,
    out: &mut Counted<W>,
) -> Result<Ended, CheckFailure>
    requires { failures_of out.old < 2 ^ 64 - 1 }
    ensures written { OnOk result (Appends (W.contents (inner_of out.old)) (W.contents (inner_of out.new))
        (judgement_lines judgement.now)) }
    ensures ended { IfOk result (λ ended. ended.status ≡ status_of_judgement judgement.now) }
    ensures all_written { OnOk result (failures_of out.new ≡ failures_of out.old) }
    ensures read { IsErrOf result failure.Read → ⊥ }
    ensures write { IsErrOf result failure.Write → failures_of out.new ≡ failures_of out.old + 1 }
{
    let lines = judgement.lines(alloc)?;
    let note = judgement.note(alloc)?;
    write_lines(lines.as_bytes(), out)?;
    Ok(Ended {
        status: judgement.status(),
        note,
    })
}

// Writes why a file is refused.
fn refuse<W: Write>(
    alloc: Global,
    why: FileRefusal,
    document: &Json,
    out: &mut Counted<W>,
) -> Result<Ended, CheckFailure>
    requires { failures_of out.old < 2 ^ 64 - 1 }
    ensures written { OnOk result (Appends (W.contents (inner_of out.old)) (W.contents (inner_of out.new)) (refused_line why)) }
    ensures ended { IfOk result (λ ended. ended.status ≡ Fault) }
    ensures all_written { OnOk result (failures_of out.new ≡ failures_of out.old) }
    ensures read { IsErrOf result failure.Read → ⊥ }
    ensures write { IsErrOf result failure.Write → failures_of out.new ≡ failures_of out.old + 1 }
{
    let line = why.line(alloc)?;
    let note = why.note(alloc, document)?;
    write_lines(line.as_bytes(), out)?;
    Ok(Ended {
        status: Status::Fault,
        note: Some(note),
    })
}

/// Writes lines at once.
pub fn write_lines<W: Write>(lines: &[u8], out: &mut Counted<W>) -> Result<(), CheckFailure>
    requires { failures_of out.old < 2 ^ 64 - 1 }
    ensures written { OnOk result (Appends (W.contents (inner_of out.old)) (W.contents (inner_of out.new)) lines.now) }
    ensures all_written { OnOk result (failures_of out.new ≡ failures_of out.old) }
    ensures write { IsErrOf result failure.Write → failures_of out.new ≡ failures_of out.old + 1 }
    ensures other { IsErrOf result failure.Read → ⊥ }
{
    out.write_all(lines).map_err(|_| CheckFailure::Write)?;
    out.flush().map_err(|_| CheckFailure::Write)
}
