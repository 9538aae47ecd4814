//! Patterns that are looked for in texts.

ghost use Rattle.std.specs.Prelude.{◌≡◌, Some, IfOk};
ghost use Rattle.cel_operators.specs.Operators.{at_one};
ghost use Rattle.cel_operators.specs.TextOperators.{row_with};
ghost use Rattle.cel_operators_applied.specs.Counted.{counted};
ghost use Rattle.cel_operators_applied.specs.Lent.{lent};
ghost use Rattle.cel_operators.specs.PatternMeaning.{is_found};

use crate::fault::RunError;
use base_containers::Failed;
use cel_operators::{Made, Matchers, TextOperator, matching_charge};
use cel_operators_applied::{alone, characters, made};
use cel_value::{CelError, Value, code_points};
use std::alloc::Global;

/// Whether a pattern is found in an operand.
pub fn matches(
    alloc: Global,
    x: Result<&Value, CelError>,
    pattern: &str,
    matchers: &mut Matchers,
) -> Result<Option<Made>, RunError>
    ensures { IfOk result (λ made. made ≡ counted (at_one (row_with TextOperator.Matches pattern.now) (Some (lent x.entry)))) }
{
    match alone(characters(x)) {
        Ok(text) => {
            let found = is_found(alloc, pattern, text, matchers)?;
            let charge = matching_charge(pattern, code_points(text) as u64);
            Ok(made(Ok(Value::Bool(found)), charge))
        }
        Err(made) => Ok(made),
    }
}

// Whether a pattern is found in a text; or why it is not built, as a run reports it.
fn is_found(
    alloc: Global,
    pattern: &str,
    text: &str,
    matchers: &mut Matchers,
) -> Result<bool, RunError>
    ensures { IfOk result (λ found. found ≡ is_found pattern.now text.now) }
{
    matchers
        .finds(alloc, pattern, text)
        .map_err(Failed::widened)
}
