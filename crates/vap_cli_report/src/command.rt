//! The command `report`.

ghost use Rattle.std.specs.Prelude.{◌≡◌, ◌+◌, ◌-◌, ◌^◌, ◌<◌, [], IfOk, OnOk, IsErrOf};
ghost use Rattle.std.specs.Io.KnownBytes.{Appends};
ghost use Rattle.vap_cli.specs.declared.status.Status.TheVariants.{Done};
ghost use Rattle.base_containers.specs.Counted.{inner_of, failures_of};
ghost use Rattle.base_containers.specs.Lines.{StopsReading};
ghost use Rattle.vap_policy_set.specs.Sets.{policies_of, IsReport};

use crate::input::objects_in;
use crate::json_report::json_of_report;
use crate::report::Report;
use crate::text_report::text_of_report;
use base_containers::Text;
use std::alloc::{AllocError, Global};
use std::io::{Read, Write};
use vap_cli::{CheckFailure, Counted, Ended, Status, write_lines};
use vap_policy_set::{BuildError, BuildFault, PolicySet};
use vap_read_objects::Objects;

/// For whom a report is written.
#[derive(Clone, Copy, Debug, PartialEq, Eq)]
pub enum Output {
    /// For people.
    Text,
    /// For machines.
    Json,
}

/// What is written, and how the program then ends.
#[derive(Drop)]
struct Told {
    bytes: Vec<u8>,
    status: Status,
}

/// Writes what is reported of the policies that an input leaves, and answers how the program then ends. If the input is refused,
/// nothing is written. `Read` comes only if a read failed, or if there were as many as there may be.
pub fn report_to<R: Read, W: Write>(
    alloc: Global,
    output: Output,
    file: &mut Counted<R>,
    out: &mut Counted<W>,
) -> Result<Ended, CheckFailure>
    requires writes { failures_of out.old < 2 ^ 64 - 1 }
    ensures all_read { OnOk result (failures_of file.new ≡ failures_of file.old) }
    ensures all_written { OnOk result (failures_of out.new ≡ failures_of out.old) }
    ensures read { IsErrOf result CheckFailure.Read → StopsReading R.remaining file.old file.new }
    ensures write { IsErrOf result CheckFailure.Write → failures_of out.new ≡ failures_of out.old + 1 }
{
    match objects_in(alloc, file) {
        Ok(Ok(objects)) => report_objects(alloc, output, &objects, out),
        Ok(Err(note)) => Ok(fault(note)),
        Err(CheckFailure::Read) => Err(CheckFailure::Read),
        // Nothing is written there.
        Err(_) => Err(CheckFailure::OutOfMemory),
    }
}

fn fault(note: String) -> Ended {
    Ended {
        status: Status::Fault,
        note: Some(note),
    }
}

/// Writes what is reported of the policies among objects.
fn report_objects<W: Write>(
    alloc: Global,
    output: Output,
    objects: &Objects,
    out: &mut Counted<W>,
) -> Result<Ended, CheckFailure>
    requires { failures_of out.old < 2 ^ 64 - 1 }
    ensures all_written { OnOk result (failures_of out.new ≡ failures_of out.old) }
    ensures read { IsErrOf result CheckFailure.Read → ⊥ }
    ensures write { IsErrOf result CheckFailure.Write → failures_of out.new ≡ failures_of out.old + 1 }
{
    match PolicySet::build(alloc, objects) {
        Ok(set) => tell(told_of(alloc, output, objects, &set)?, out),
        Err(BuildError::Fault(BuildFault::Unverified { policy })) => {
            Ok(fault(unverified_note(alloc, &policy)?))
        }
        Err(BuildError::OutOfMemory) => Err(CheckFailure::OutOfMemory),
    }
}

fn unverified_note(alloc: Global, policy: &Text) -> Result<String, AllocError> {
    let name = policy.as_str();
    format!(in alloc; "policy {name:?}: the code of an expression is not accepted\n")
}

/// What is reported of the policies of a set. If the program ends well, none is misconfigured at a known kind that it names.
fn told_of(
    alloc: Global,
    output: Output,
    objects: &Objects,
    set: &PolicySet,
) -> Result<Told, AllocError>
    ensures { IfOk result (λ t. t.status ≡ Done → IsReport (policies_of set.now) []) }
{
    let report = Report::of(alloc, objects, set)?;
    let bytes = match output {
        Output::Text => text_of_report(alloc, &report)?.into_bytes(),
        Output::Json => json_of_report(alloc, &report)?,
    };
    Ok(Told {
        bytes,
        status: report.status(),
    })
}

/// Writes what is reported.
fn tell<W: Write>(told: Told, out: &mut Counted<W>) -> Result<Ended, CheckFailure>
    requires { failures_of out.old < 2 ^ 64 - 1 }
    ensures written { OnOk result (Appends (W.contents (inner_of out.old)) (W.contents (inner_of out.new)) told.bytes.items) }
    ensures ended { IfOk result (λ ended. ended.status ≡ told.status) }
    ensures all_written { OnOk result (failures_of out.new ≡ failures_of out.old) }
    ensures read { IsErrOf result CheckFailure.Read → ⊥ }
    ensures write { IsErrOf result CheckFailure.Write → failures_of out.new ≡ failures_of out.old + 1 }
{
    write_lines(told.bytes.as_slice(), out)?;
    Ok(Ended {
        status: told.status,
        note: None,
    })
}
