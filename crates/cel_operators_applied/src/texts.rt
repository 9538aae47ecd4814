ghost use Rattle.std.specs.Prelude.{◌≡◌, ◌<◌, ◌^◌, IfOk, Some, Ok};
ghost use Rattle.std.specs.Option.{option_map};
ghost use Rattle.cel_value.specs.declared.value.Value as value;
ghost use Rattle.cel_value.specs.declared.cel_error.CelError.TheVariants.{BadConversion};
ghost use Rattle.cel_operators.specs.Operators.{row, operands_of, at_one, at_two, spelled, tenths_in};
ghost use Rattle.cel_operators.specs.Numbers.{int_of, uint_of};
ghost use Rattle.cel_value.specs.Reading.{timestamp_of, duration_of};
ghost use Rattle.cel_operators.specs.declared.operands.Operands.TheVariants as operands;
ghost use Rattle.cel_operators.specs.declared.operands.Want.TheVariants.{Characters};
ghost use Rattle.cel_operators_applied.specs.Counted.{counted};
ghost use Rattle.cel_operators_applied.specs.Lent.{lent};

use crate::kinds::{alone, both, characters, count, made};
use base_containers::Text;
use cel_operators::{
    Made, Operator, concat, contains, ends_with, lower_ascii, read_int, read_uint, starts_with,
    upper_ascii,
};
use cel_value::{CelError, Value, code_points, read_duration, read_timestamp, tenths};
use std::alloc::{AllocError, Global};

pub fn on_text(
    alloc: Global,
    op: Operator,
    x: Result<&Value, CelError>,
) -> Result<Option<Made>, AllocError>
    requires { operands_of (row op) ≡ operands.One Characters }
    ensures { IfOk result (λ made. made ≡ counted (at_one (row op) (Some (lent x.entry)))) }
{
    match alone(characters(x)) {
        Ok(text) => of_text(alloc, op, text),
        Err(made) => Ok(made),
    }
}

fn of_text(alloc: Global, op: Operator, text: &str) -> Result<Option<Made>, AllocError>
    requires { operands_of (row op) ≡ operands.One Characters }
    ensures { IfOk result (λ made. made ≡ counted (at_one (row op) (Some (Ok (value.Text text.now))))) }
{
    match op {
        Operator::SizeText => Ok(made(count(code_points(text)), 1 + tenths_in(text))),
        Operator::LowerAscii => Ok(made(
            Ok(Value::Text(lower_ascii(alloc, text)?)),
            1 + tenths_in(text),
        )),
        Operator::UpperAscii => Ok(made(
            Ok(Value::Text(upper_ascii(alloc, text)?)),
            1 + tenths_in(text),
        )),
        Operator::StringOfText => Ok(made(Ok(Value::Text(Text::from_str(alloc, text)?)), 1)),
        Operator::IntOfText => Ok(made(int_spelled(text), 1 + tenths_in(text))),
        Operator::UintOfText => Ok(made(uint_spelled(text), 1 + tenths_in(text))),
        Operator::TimestampOfText => Ok(made(timestamp_spelled(text), 1 + tenths_in(text))),
        Operator::DurationOfText => Ok(made(duration_spelled(text), 1 + tenths_in(text))),
        _ => unreachable!(),
    }
}

fn int_spelled(text: &str) -> Result<Value, CelError>
    ensures { result ≡ spelled value.Int (int_of text.now) }
{
    match read_int(text) {
        Some(n) => Ok(Value::Int(n)),
        None => Err(CelError::BadConversion),
    }
}

fn uint_spelled(text: &str) -> Result<Value, CelError>
    ensures { result ≡ spelled value.Uint (uint_of text.now) }
{
    match read_uint(text) {
        Some(n) => Ok(Value::Uint(n)),
        None => Err(CelError::BadConversion),
    }
}

fn timestamp_spelled(text: &str) -> Result<Value, CelError>
    ensures { result ≡ spelled value.Timestamp (timestamp_of text.now) }
{
    match read_timestamp(text) {
        Some(timestamp) => Ok(Value::Timestamp(timestamp)),
        None => Err(CelError::BadConversion),
    }
}

fn duration_spelled(text: &str) -> Result<Value, CelError>
    ensures { result ≡ spelled value.Duration (duration_of text.now) }
{
    match read_duration(text) {
        Some(n) => Ok(Value::Duration(n)),
        None => Err(CelError::BadConversion),
    }
}

/// What a pass over a text charges beside 1.
pub fn tenths_in(text: &str) -> u64
    ensures exact { result ≡ tenths_in text.now }
    ensures small { result < 2 ^ 62 }
{
    tenths(code_points(text) as u64)
}

pub fn on_texts(
    alloc: Global,
    op: Operator,
    x: Result<&Value, CelError>,
    y: Result<&Value, CelError>,
) -> Result<Option<Made>, AllocError>
    requires { operands_of (row op) ≡ operands.Two Characters Characters }
    ensures { IfOk result (λ made. made ≡ counted (at_two (row op) (Some (lent x.entry)) (Some (lent y.entry)))) }
{
    match both(characters(x), characters(y)) {
        Ok((s, t)) => of_texts(alloc, op, s, t),
        Err(made) => Ok(made),
    }
}

fn of_texts(alloc: Global, op: Operator, s: &str, t: &str) -> Result<Option<Made>, AllocError>
    requires { operands_of (row op) ≡ operands.Two Characters Characters }
    ensures { IfOk result (λ made. made ≡ counted (at_two (row op) (Some (Ok (value.Text s.now))) (Some (Ok (value.Text t.now))))) }
{
    match op {
        Operator::AddText => Ok(made(
            Ok(Value::Text(concat(alloc, s, t)?)),
            1 + tenths_in(s) + tenths_in(t),
        )),
        Operator::StartsWith => Ok(made(Ok(Value::Bool(starts_with(s, t))), 1 + tenths_in(t))),
        Operator::EndsWith => Ok(made(Ok(Value::Bool(ends_with(s, t))), 1 + tenths_in(t))),
        Operator::Contains => {
            let charge = (1 + tenths_in(s)).saturating_mul(1 + tenths_in(t));
            Ok(made(Ok(Value::Bool(contains(s, t))), charge))
        }
        _ => unreachable!(),
    }
}
