//! Whether a part of a document is a value of a type that holds no other.

ghost use Rattle.std.specs.Prelude.{◌≤◌, IsTrue};
ghost use Rattle.cel_value.specs.Value.{code_points};
ghost use Rattle.vap_schema_conformance.specs.Conformance.{IsValueOf};
ghost use Rattle.cel_value.specs.declared.cel_type.CelType as type;

use base_containers::{Number, Part};
use cel_value::{CelType, code_points, read_date, read_duration, read_timestamp};

/// Whether a document is known to be a value of a type; of a type that holds others it is not known.
pub(crate) fn is_scalar_of(cel_type: &CelType, document: &Part<'_, '_>) -> bool
    ensures { IsTrue result → IsValueOf cel_type.now document.now }
{
    match cel_type {
        CelType::Null => document.is_null(),
        CelType::Bool => document.as_bool().is_some(),
        CelType::Int => is_int(document),
        CelType::Text { max } => is_text(*max, document),
        CelType::Timestamp => is_timestamp(document),
        CelType::Duration => is_duration(document),
        CelType::Opaque => true,
        _ => false,
    }
}

fn is_int(document: &Part<'_, '_>) -> bool
    ensures { IsTrue result → IsValueOf type.Int document.now }
{
    match document.as_number() {
        Some(Number::Unsigned(n)) => n <= i64::MAX as u64,
        Some(Number::Negative(_)) => true,
        _ => false,
    }
}

/// Whether it is a text of at most so many code points.
fn is_text(max: u32, document: &Part<'_, '_>) -> bool
    ensures { IsTrue result → IsValueOf (type.Text max) document.now }
{
    match document.as_str() {
        Some(text) => has_at_most(max, text),
        None => false,
    }
}

/// Whether a text has at most so many code points. They are counted only if it has more bytes.
pub(crate) fn has_at_most(max: u32, text: &str) -> bool
    ensures { IsTrue result → code_points text.now ≤ max }
{
    if text.len() <= max as usize {
        return true;
    }
    code_points(text) <= max as usize
}

fn is_timestamp(document: &Part<'_, '_>) -> bool
    ensures { IsTrue result → IsValueOf type.Timestamp document.now }
{
    match document.as_str() {
        Some(text) => read_timestamp(text).is_some() || read_date(text).is_some(),
        None => false,
    }
}

fn is_duration(document: &Part<'_, '_>) -> bool
    ensures { IsTrue result → IsValueOf type.Duration document.now }
{
    match document.as_str() {
        Some(text) => read_duration(text).is_some(),
        None => false,
    }
}
