//! What `eval` answers, and how it is reported.

ghost use Rattle.std.specs.Prelude.{◌≡◌, ◌++◌, ◌∷◌, [], IfOk, string_bytes};
ghost use Rattle.cel_value.specs.JsonText.{json_text};
ghost use Rattle.vap_cli.specs.Answer.{answer_line, status_of};

use crate::status::Status;
use cel_expression::Refusal as TextRefusal;
use cel_value::{CelError, Value, to_json};
use std::alloc::{AllocError, Global};
use std::fmt;

/// Why an expression is not evaluated.
#[derive(Clone, Copy, Debug, PartialEq, Eq)]
pub enum Refusal {
    /// The text is no expression that may be run.
    Text(TextRefusal),
    /// The verifier refuses the compiled image, at this instruction.
    Unverified { at: usize },
    /// A pattern that was built when the expression was typed is not built again.
    Pattern,
}

/// What an expression results in.
#[derive(Drop)]
pub enum Answer {
    Value(Value),
    Error(CelError),
    Refused(Refusal),
}

impl Answer {
    /// The line that is printed.
    pub fn line(&self, alloc: Global) -> Result<String, AllocError>
        ensures { IfOk result (λ line. string_bytes line ≡ answer_line self.now) }
    {
        match self {
            Answer::Value(value) => value_line(alloc, value),
            Answer::Error(error) => format!(in alloc; "error: {}\n", error.name()),
            Answer::Refused(refusal) => format!(in alloc; "refused: {refusal}\n"),
        }
    }

    /// How the program ends after it.
    pub fn status(&self) -> Status
        ensures { result ≡ status_of self.now }
    {
        match self {
            Answer::Value(_) => Status::Done,
            Answer::Error(_) | Answer::Refused(_) => Status::Fault,
        }
    }
}

/// The line for a value.
fn value_line(alloc: Global, value: &Value) -> Result<String, AllocError>
    ensures { IfOk result (λ line. string_bytes line ≡ json_text value.now ++ 10 ∷ []) }
{
    let mut line = to_json(alloc, value)?;
    line.push('\n')?;
    Ok(line)
}

impl fmt::Display for Refusal {
    ghost use Rattle.std.specs.Prelude.{Some};
    ghost use Rattle.vap_cli.specs.Answer.{refusal_text};

    ghost output = { λ refusal. Some (refusal_text refusal) };

    fn fmt<W: fmt::Write>(&self, f: &mut fmt::Formatter<W>) -> fmt::Result {
        let (name, place) = match self {
            Refusal::Text(TextRefusal::OverBudget(estimate)) => {
                return write!(f, "OverBudget {estimate}");
            }
            Refusal::Text(why) => (why.name(), why.place()),
            Refusal::Unverified { at } => ("Unverified", Some(*at)),
            Refusal::Pattern => ("Pattern", None),
        };
        match place {
            Some(place) => write!(f, "{name} at {place}"),
            None => write!(f, "{name}"),
        }
    }
}
