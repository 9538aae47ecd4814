//! The command `eval`.

ghost use Rattle.std.specs.Prelude.{◌≡◌, ◌+◌, ◌<◌, ◌^◌, ◌-◌, IfOk, OnOk, IsErrOf, string_bytes};
ghost use Rattle.base_containers.specs.Counted.{inner_of, failures_of};
ghost use Rattle.vap_cli.specs.Eval.{Tells, TellsBy};
ghost use Rattle.vap_cli.specs.declared.eval.EvalError.TheVariants.{OutOfMemory};

use crate::evaluation::answer;
use crate::status::Status;
use base_containers::Counted;
use std::alloc::{AllocError, Global};
use std::io::Write;
use thiserror::Error;

/// Why an expression's answer is not reported.
#[derive(Clone, Copy, Debug, PartialEq, Eq, Error)]
pub enum EvalError {
    #[error("the answer could not be written")]
    Write,
    #[error("out of memory")]
    OutOfMemory,
}

impl EvalError {
    ghost use Rattle.std.specs.Prelude.{◌≡◌};
    ghost use Rattle.vap_cli.specs.Status.{status_without};

    /// How the program ends if an answer is not reported.
    pub fn status(self) -> Status
        ensures { result ≡ status_without self }
    {
        match self {
            EvalError::Write => Status::Stream,
            EvalError::OutOfMemory => Status::OutOfMemory,
        }
    }
}

impl From<AllocError> for EvalError {
    ghost from_gives = { λ _ e. e ≡ OutOfMemory };

    fn from(_error: AllocError) -> EvalError {
        EvalError::OutOfMemory
    }
}

/// Writes the line that `eval` prints for an expression, and answers how the program then ends.
pub fn eval_to<W: Write>(
    alloc: Global,
    text: &str,
    out: &mut Counted<W>,
) -> Result<Status, EvalError>
    requires { failures_of out.old < 2 ^ 64 - 1 }
    ensures told { IfOk result (Tells text.now (W.contents (inner_of out.old)) (W.contents (inner_of out.new))) }
    ensures all_written { OnOk result (failures_of out.new ≡ failures_of out.old) }
    ensures write { IsErrOf result EvalError.Write → failures_of out.new ≡ failures_of out.old + 1 }
    ensures memory { IsErrOf result EvalError.OutOfMemory → out.new ≡ out.old }
{
    let (line, status) = line_and_status(alloc, text)?;
    out.write_all(line.as_bytes())
        .map_err(|_| EvalError::Write)?;
    out.flush().map_err(|_| EvalError::Write)?;
    Ok(status)
}

/// The line that reports an expression's answer, and the status for it.
fn line_and_status(alloc: Global, text: &str) -> Result<(String, Status), AllocError>
    ensures { IfOk result (λ told. TellsBy text.now (string_bytes told.0) told.1) }
{
    let answer = answer(alloc, text)?;
    Ok((answer.line(alloc)?, answer.status()))
}
