//! Fields of objects, and what maps hold under keys.

ghost use Rattle.std.specs.Prelude.{◌≡◌, Some, Ok, IfOk, option_map};
ghost use Rattle.cel_operators.specs.Operators.{at_one, outcome_made};
ghost use Rattle.cel_operators.specs.TextOperators.{row_with};
ghost use Rattle.cel_operators_applied.specs.Counted.{counted};
ghost use Rattle.cel_operators_applied.specs.Lent.{lent};

use crate::operand::{Held, Operand};
use cel_operators::{Made, TextOperator};
use cel_operators_applied::{alone, made, members};
use cel_value::{CelError, Value};
use std::alloc::{AllocError, Global};

/// The field of an object, or the value of a map, under a name: NoSuchKey if there is none, and NullOperand for null.
/// Nothing if an operand of another kind has no fields; an error stays.
///
/// A field of what is lent is lent; one of the run's own values is copied.
pub fn field<'a>(
    alloc: Global,
    operand: Result<Operand<'a>, CelError>,
    name: &str,
) -> Result<Option<Result<Operand<'a>, CelError>>, AllocError>
    ensures { IfOk result (λ part. part ≡ outcome_made (at_one (row_with TextOperator.Select name.now) (Some operand.entry))) }
{
    match operand {
        Err(error) => Ok(Some(Err(error))),
        Ok(operand) => match operand.into_held() {
            Held::Lent(value) => Ok(field_in(value, name).map(lend)),
            Held::Own(value) => match field_in(&value, name) {
                Some(part) => Ok(Some(copied(alloc, part)?)),
                None => Ok(None),
            },
        },
    }
}

/// A field, in its place.
pub fn field_in<'v>(value: &'v Value, name: &str) -> Option<Result<&'v Value, CelError>>
    ensures { option_map lent result ≡ outcome_made (at_one (row_with TextOperator.Select name.now) (Some (Ok value.now))) }
{
    match members(Ok(value)) {
        Some(Ok(entries)) => Some(entries.get(name).ok_or(CelError::NoSuchKey)),
        Some(Err(error)) => Some(Err(error)),
        None => None,
    }
}

/// Whether an operand has the field, or holds something under the key.
pub fn has_field(x: Result<&Value, CelError>, name: &str) -> Option<Made>
    ensures { result ≡ counted (at_one (row_with TextOperator.Has name.now) (Some (lent x.entry))) }
{
    match alone(members(x)) {
        Ok(entries) => made(Ok(Value::Bool(entries.get(name).is_some())), 1),
        Err(made) => made,
    }
}

/// What is lent, as an operand.
pub fn lend<'a>(outcome: Result<&'a Value, CelError>) -> Result<Operand<'a>, CelError>
    ensures { result ≡ lent outcome.entry }
{
    match outcome {
        Ok(value) => Ok(Operand::lent(value)),
        Err(error) => Err(error),
    }
}

// A copy of what is lent, as an operand.
fn copied<'a>(
    alloc: Global,
    outcome: Result<&Value, CelError>,
) -> Result<Result<Operand<'a>, CelError>, AllocError>
    ensures { IfOk result (λ operand. operand ≡ lent outcome.entry) }
{
    match outcome {
        Ok(value) => Ok(Ok(Operand::own(value.copy(alloc)?))),
        Err(error) => Ok(Err(error)),
    }
}
