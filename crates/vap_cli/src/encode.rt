//! The command `image encode`.

ghost use Rattle.std.specs.Prelude.{◌≡◌, ◌+◌, ◌<◌, ◌^◌, ◌-◌, [], IfOk, OnOk, IsErrOf};
ghost use Rattle.base_containers.specs.Counted.{inner_of, failures_of};
ghost use Rattle.vap_cli.specs.declared.status.Status.TheVariants.{Done, Fault};
ghost use Rattle.cel_code.specs.Code.{Spells};
ghost use Rattle.vap_cli.specs.Told.{IsEncoded, TellsText};

use crate::answer::Refusal;
use crate::eval::EvalError;
use crate::evaluation::choice_for;
use crate::status::Status;
use base_containers::{Counted, Items, Keyed, Shared, Text};
use cel_code::{Image, encode, has_spelling};
use cel_expression::{CompileError, CompileFault, compile_text};
use cel_value::CelType;
use std::alloc::{AllocError, Global};
use std::io::Write;

/// What is written, and how the program then ends.
#[derive(Drop)]
struct Told {
    bytes: Vec<u8>,
    status: Status,
}

/// Writes the bytes of the image that an expression compiles to if no name is in scope, or a line that says why there are none,
/// and answers how the program then ends.
pub fn encode_to<W: Write>(
    alloc: Global,
    text: &str,
    out: &mut Counted<W>,
) -> Result<Status, EvalError>
    requires { failures_of out.old < 2 ^ 64 - 1 }
    ensures told { IfOk result (TellsText text.now (W.contents (inner_of out.old)) (W.contents (inner_of out.new))) }
    ensures all_written { OnOk result (failures_of out.new ≡ failures_of out.old) }
    ensures write { IsErrOf result EvalError.Write → failures_of out.new ≡ failures_of out.old + 1 }
    ensures memory { IsErrOf result EvalError.OutOfMemory → out.new ≡ out.old }
{
    let told = of_text(alloc, text)?;
    out.write_all(told.bytes.as_slice())
        .map_err(|_| EvalError::Write)?;
    out.flush().map_err(|_| EvalError::Write)?;
    Ok(told.status)
}

// What is written for a text.
fn of_text(alloc: Global, text: &str) -> Result<Told, AllocError>
    ensures { IfOk result (λ e. IsEncoded text.now e.bytes.items e.status) }
{
    let choice = choice_for(alloc, text)?;
    let names = Shared::new(alloc, Items::new(alloc))?;
    let text = Text::from_str(alloc, text)?;
    of_text_by(alloc, &choice, &names, &text)
}

// The same by a choice.
#[tactic(auto, using(crate::proofs::Spelt::none_encoded))]
fn of_text_by(
    alloc: Global,
    choice: &Shared<Items<Text>>,
    names: &Shared<Items<Keyed<CelType>>>,
    text: &Text,
) -> Result<Told, AllocError>
    requires { names.now ≡ [] }
    ensures { IfOk result (λ e. IsEncoded text.now e.bytes.items e.status) }
{
    match compile_text(alloc, choice, names, text) {
        Ok(Ok(compiled)) => of_image(alloc, compiled.program().image()),
        Ok(Err(why)) => refused(alloc, &Refusal::Text(why)),
        Err(CompileError::Fault(CompileFault::Unverified { at })) => {
            refused(alloc, &Refusal::Unverified { at })
        }
        Err(CompileError::OutOfMemory) => Err(AllocError),
    }
}

// The bytes of an image, if it has a spelling.
fn of_image(alloc: Global, image: &Image) -> Result<Told, AllocError>
    ensures { IfOk result (λ e. e.status ≡ Done → Spells image.now e.bytes.items) }
{
    if !has_spelling(image) {
        return fault(String::from_str(alloc, "refused: NoSpelling\n"));
    }
    Ok(Told {
        bytes: encode(alloc, image)?,
        status: Status::Done,
    })
}

// The line of a refusal.
fn refused(alloc: Global, why: &Refusal) -> Result<Told, AllocError>
    ensures { IfOk result (λ e. e.status ≡ Fault) }
{
    fault(format!(in alloc; "refused: {why}\n"))
}

fn fault(line: Result<String, AllocError>) -> Result<Told, AllocError>
    ensures { IfOk result (λ e. e.status ≡ Fault) }
{
    Ok(Told {
        bytes: line?.into_bytes(),
        status: Status::Fault,
    })
}
