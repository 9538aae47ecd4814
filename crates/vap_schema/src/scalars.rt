//! The value that a part of a document is at a type that holds no other, or why it is none.

ghost use Rattle.std.specs.Prelude.{◌≡◌, IsTrue, IfOk};
ghost use Rattle.base_containers.specs.Failures.{Answers, made};
ghost use Rattle.base_containers.specs.Numbers.{num_of};
ghost use Rattle.cel_value.specs.Reading.{duration_of};
ghost use Rattle.cel_value.specs.Fits.{fits};
ghost use Rattle.cel_value.specs.declared.value.Value as V;
ghost use Rattle.cel_value.specs.declared.cel_type.CelType as type;
ghost use Rattle.vap_schema.specs.Paths.{path_text};
ghost use Rattle.vap_schema.specs.Seen.{seen, seen_int, seen_text, seen_time, instant_of};

use crate::fit_fault::{FitError, FitFaultKind};
use crate::path::Path;
use crate::refusals::{check_limit, misfit, refusal};
use base_containers::{Number, Part, Text};
use cel_value::{Timestamp, Value, code_points, read_date, read_duration, read_timestamp};
use std::alloc::Global;

/// Null, if a part is that.
pub(crate) fn null_at(
    alloc: Global,
    document: &Part<'_, '_>,
    path: &Path<'_>,
) -> Result<Value, FitError>
    ensures exact { Answers (seen (path_text path.now) type.Null document.now) result }
    ensures fits { IfOk result (λ value. IsTrue (fits value type.Null)) }
{
    if document.is_null() {
        Ok(Value::Null)
    } else {
        Err(misfit(alloc, document, path))
    }
}

pub(crate) fn bool_at(
    alloc: Global,
    document: &Part<'_, '_>,
    path: &Path<'_>,
) -> Result<Value, FitError>
    ensures exact { Answers (seen (path_text path.now) type.Bool document.now) result }
    ensures fits { IfOk result (λ value. IsTrue (fits value type.Bool)) }
{
    match document.as_bool() {
        Some(truth) => Ok(Value::Bool(truth)),
        None => Err(misfit(alloc, document, path)),
    }
}

pub(crate) fn int_at(
    alloc: Global,
    document: &Part<'_, '_>,
    path: &Path<'_>,
) -> Result<Value, FitError>
    ensures exact { Answers (seen (path_text path.now) type.Int document.now) result }
    ensures fits { IfOk result (λ value. IsTrue (fits value type.Int)) }
{
    match document.as_number() {
        Some(number) => int_value(fit_int(alloc, number, path)),
        None => Err(misfit(alloc, document, path)),
    }
}

/// A text of at most so many code points.
pub(crate) fn text_at(
    alloc: Global,
    max: u32,
    document: &Part<'_, '_>,
    path: &Path<'_>,
) -> Result<Value, FitError>
    ensures exact { Answers (seen (path_text path.now) (type.Text max) document.now) result }
    ensures fits { IfOk result (λ value. IsTrue (fits value (type.Text max))) }
{
    match document.as_str() {
        Some(text) => text_value(fit_text(alloc, max, text, path)),
        None => Err(misfit(alloc, document, path)),
    }
}

pub(crate) fn timestamp_at(
    alloc: Global,
    document: &Part<'_, '_>,
    path: &Path<'_>,
) -> Result<Value, FitError>
    ensures exact { Answers (seen (path_text path.now) type.Timestamp document.now) result }
    ensures fits { IfOk result (λ value. IsTrue (fits value type.Timestamp)) }
{
    match document.as_str() {
        Some(text) => timestamp_value(fit_timestamp(alloc, text, path)),
        None => Err(misfit(alloc, document, path)),
    }
}

pub(crate) fn duration_at(
    alloc: Global,
    document: &Part<'_, '_>,
    path: &Path<'_>,
) -> Result<Value, FitError>
    ensures exact { Answers (seen (path_text path.now) type.Duration document.now) result }
    ensures fits { IfOk result (λ value. IsTrue (fits value type.Duration)) }
{
    match document.as_str() {
        Some(text) => duration_value(fit_duration(alloc, text, path)),
        None => Err(misfit(alloc, document, path)),
    }
}

fn int_value(int: Result<i64, FitError>) -> Result<Value, FitError>
    ensures { result ≡ made V.Int int }
{
    Ok(Value::Int(int?))
}

fn text_value(text: Result<Text, FitError>) -> Result<Value, FitError>
    ensures { result ≡ made V.Text text }
{
    Ok(Value::Text(text?))
}

fn timestamp_value(timestamp: Result<Timestamp, FitError>) -> Result<Value, FitError>
    ensures { result ≡ made V.Timestamp timestamp }
{
    Ok(Value::Timestamp(timestamp?))
}

fn duration_value(duration: Result<i64, FitError>) -> Result<Value, FitError>
    ensures { result ≡ made V.Duration duration }
{
    Ok(Value::Duration(duration?))
}

fn fit_int(alloc: Global, number: Number, path: &Path<'_>) -> Result<i64, FitError>
    ensures { Answers (seen_int (path_text path.now) (num_of number)) result }
{
    match number {
        Number::Unsigned(n) => {
            if n <= i64::MAX as u64 {
                Ok(n as i64)
            } else {
                Err(refusal(alloc, FitFaultKind::IntRange, path))
            }
        }
        Number::Negative(z) => Ok(z),
        Number::Float(_) => Err(refusal(alloc, FitFaultKind::WrongKind, path)),
    }
}

fn fit_text(alloc: Global, max: u32, text: &str, path: &Path<'_>) -> Result<Text, FitError>
    ensures { Answers (seen_text max (path_text path.now) text.now) result }
{
    check_limit(alloc, max, code_points(text), path)?;
    Ok(Text::from_str(alloc, text)?)
}

fn fit_timestamp(alloc: Global, text: &str, path: &Path<'_>) -> Result<Timestamp, FitError>
    ensures { Answers (seen_time (instant_of text.now) (path_text path.now)) result }
{
    match timestamp_or_date(text) {
        Some(timestamp) => Ok(timestamp),
        None => Err(refusal(alloc, FitFaultKind::WrongKind, path)),
    }
}

/// A timestamp, or the midnight in UTC with which a date begins.
#[tactic(auto, unfolding(crate::specs::Seen::instant_of))]
fn timestamp_or_date(text: &str) -> Option<Timestamp>
    ensures { result ≡ instant_of text.now }
{
    match read_timestamp(text) {
        Some(timestamp) => Some(timestamp),
        None => read_date(text),
    }
}

fn fit_duration(alloc: Global, text: &str, path: &Path<'_>) -> Result<i64, FitError>
    ensures { Answers (seen_time (duration_of text.now) (path_text path.now)) result }
{
    match read_duration(text) {
        Some(duration) => Ok(duration),
        None => Err(refusal(alloc, FitFaultKind::WrongKind, path)),
    }
}
