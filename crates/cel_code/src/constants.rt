//! Types and constants in lists.

ghost use Rattle.std.specs.Prelude.{◌≡◌, ◌^◌, ◌++◌, false, nat_lt, OnOk};
ghost use Rattle.base_containers.specs.Failures.{Gives};
ghost use Rattle.cel_code.specs.Spelling.{type_spelling, is_spellable, constant, is_constant, is_signed};
ghost use Rattle.cel_code.specs.Code.{most_levels};
ghost use Rattle.cel_code.specs.Reading.{last_of, type_at, constant_at};

use crate::fault::{ReadError, ReadFault};
use crate::fields::{text_of, truth_of, u64_at};
use crate::spellable::{MOST_LEVELS, is_spellable, is_text};
use crate::spelt::Spelt;
use crate::types::type_of;
use crate::writing::{put_text, put_truth, put_type};
use cel_value::{CelType, Value};
use std::alloc::{AllocError, Global};

impl Spelt for CelType {
    ghost reader = { λ _. type_at most_levels false };

    ghost spelling = { type_spelling };

    ghost fits = { λ _ t. is_spellable t most_levels false };

    fn read<'a>(
        alloc: Global,
        _before: &[CelType],
        bytes: &'a [u8],
    ) -> Result<(CelType, &'a [u8]), ReadError> {
        type_of(alloc, MOST_LEVELS, false, bytes)
    }

    fn put(&self, out: &mut Vec<u8>) -> Result<(), AllocError> {
        put_type(out, self)
    }

    fn is_spelt(&self, _before: &[CelType]) -> bool {
        is_spellable(self, MOST_LEVELS, false)
    }
}

impl Spelt for Value {
    ghost reader = { λ _. constant_at };

    ghost spelling = { constant };

    ghost fits = { λ _ v. is_constant v };

    fn read<'a>(
        alloc: Global,
        _before: &[Value],
        bytes: &'a [u8],
    ) -> Result<(Value, &'a [u8]), ReadError> {
        constant_of(alloc, bytes)
    }

    fn put(&self, out: &mut Vec<u8>) -> Result<(), AllocError> {
        put_constant(out, self)
    }

    fn is_spelt(&self, _before: &[Value]) -> bool {
        is_constant(self)
    }
}

#[tactic(auto, unfolding(crate::specs::Reading::constant_at))]
fn constant_of(alloc: Global, bytes: &[u8]) -> Result<(Value, &[u8]), ReadError>
    ensures { Gives (λ x. (x.0, x.1.now)) result (constant_at bytes.now) }
{
    match bytes {
        [] => Err(ReadError::Fault(ReadFault::Truncated)),
        [0, rest @ ..] => Ok((Value::Null, rest)),
        [1, rest @ ..] => {
            let (truth, rest) = truth_of(rest)?;
            Ok((Value::Bool(truth), rest))
        }
        [2, rest @ ..] => {
            let (number, rest) = u64_at(rest)?;
            Ok((Value::Int(number.cast_signed()), rest))
        }
        [3, rest @ ..] => {
            let (number, rest) = u64_at(rest)?;
            Ok((Value::Uint(number), rest))
        }
        [4, rest @ ..] => {
            let (text, rest) = text_of(alloc, rest)?;
            Ok((Value::Text(text), rest))
        }
        [_, ..] => Err(ReadError::Fault(ReadFault::BadTable)),
    }
}

fn put_constant(out: &mut Vec<u8>, value: &Value) -> Result<(), AllocError>
    ensures { OnOk result (out.new.items ≡ out.old.items ++ constant value.now) }
{
    match value {
        Value::Null => out.push(0)?,
        Value::Bool(truth) => {
            out.push(1)?;
            put_truth(out, *truth)?;
        }
        Value::Int(number) => {
            out.push(2)?;
            out.extend_from_slice(&number.to_be_bytes())?;
        }
        Value::Uint(number) => {
            out.push(3)?;
            out.extend_from_slice(&number.to_be_bytes())?;
        }
        Value::Text(text) => {
            out.push(4)?;
            put_text(out, text.as_str())?;
        }
        _ => {}
    }
    Ok(())
}

fn is_constant(value: &Value) -> bool
    ensures { result ≡ is_constant value.now }
{
    match value {
        Value::Null => true,
        Value::Bool(_) => true,
        Value::Int(number) => is_signed(*number),
        Value::Uint(number) => is_long(*number),
        Value::Text(text) => is_text(text.as_str()),
        _ => false,
    }
}

// Each number of 64 bits is spelt by eight bytes.
fn is_signed(number: i64) -> bool
    ensures { result ≡ is_signed number }
{
    i64::MIN <= number
}

fn is_long(number: u64) -> bool
    ensures { result ≡ nat_lt number (2 ^ 64) }
{
    number <= u64::MAX
}
