//! What an object results in.

ghost use Rattle.std.specs.Prelude.{◌≡◌, IfOk, string_bytes};
ghost use Rattle.vap_cli.specs.Report.{is_true, judgement_lines, ran_lines, status_of_judgement};

use crate::answer::Refusal;
use crate::note::{error_words, refusal_note};
use crate::status::Status;
use cel_machine::evaluation::Ran;
use cel_value::{CelError, Value, to_json};
use std::alloc::{AllocError, Global};
use vap_schema::FitFault;

/// What an object results in.
#[derive(Drop)]
pub enum Judgement {
    /// The object is none of the schema's.
    Misfit(FitFault),
    /// A pattern that was built when the expression was typed is not built again.
    Pattern,
    Ran(Ran),
}

impl Judgement {
    /// The lines that are printed after the estimate.
    pub fn lines(&self, alloc: Global) -> Result<String, AllocError>
        ensures { IfOk result (λ lines. string_bytes lines ≡ judgement_lines self.now) }
    {
        match self {
            Judgement::Misfit(fault) => format!(in alloc; "refused: {}\n", fault.kind.name()),
            Judgement::Pattern => String::from_str(alloc, "refused: Pattern\n"),
            Judgement::Ran(ran) => ran_lines(alloc, ran),
        }
    }

    /// How the program ends after them: well if the value is true.
    pub fn status(&self) -> Status
        ensures { result ≡ status_of_judgement self.now }
    {
        match self {
            Judgement::Ran(ran) if is_true(&ran.outcome) => Status::Done,
            _ => Status::Fault,
        }
    }

    /// What is written to standard error, for people.
    pub fn note(&self, alloc: Global) -> Result<Option<String>, AllocError> {
        match self {
            Judgement::Misfit(fault) => Ok(Some(format!(in alloc;
                "{}: {}.\n",
                fault.path.as_str(),
                fault.kind
            )?)),
            Judgement::Pattern => Ok(Some(refusal_note(alloc, "", &Refusal::Pattern)?)),
            Judgement::Ran(ran) => match &ran.outcome {
                Ok(_) => Ok(None),
                Err(error) => Ok(Some(format!(in alloc; "{}\n", error_words(*error))?)),
            },
        }
    }
}

fn is_true(outcome: &Result<Value, CelError>) -> bool
    ensures { result ≡ is_true outcome.now }
{
    match outcome {
        Ok(Value::Bool(value)) => *value,
        _ => false,
    }
}

fn ran_lines(alloc: Global, ran: &Ran) -> Result<String, AllocError>
    ensures { IfOk result (λ lines. string_bytes lines ≡ ran_lines ran.now) }
{
    let charged = ran.charged;
    match &ran.outcome {
        Ok(value) => {
            let text = to_json(alloc, value)?;
            format!(in alloc; "value {}\ncharged {charged}\n", text.as_str())
        }
        Err(error) => format!(in alloc; "error: {}\ncharged {charged}\n", error.name()),
    }
}
