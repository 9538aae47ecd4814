//! Types, from the front of the bytes.

ghost use Rattle.std.specs.Prelude.{◌≡◌, false, slice_get};
ghost use Rattle.base_containers.specs.Failures.{Gives};
ghost use Rattle.std.specs.Int.{w32};
ghost use Rattle.cel_code.specs.declared.fault.ReadFault.TheVariants.{BadTable};
ghost use Rattle.cel_code.specs.Spelling.{name_after};
ghost use Rattle.cel_code.specs.Reading.{last_of, list_at, field_at, type_readers, read_by, level_at, type_at};

use crate::fault::{ReadError, ReadFault};
use crate::fields::{text_of, truth_of, u32_at};
use base_containers::{Keyed, Shared, TextMap};
use cel_value::{CelType, Field};
use std::alloc::Global;

/// The type at the front, of at most so many levels.
#[cycle(reading)]
#[tactic(auto, using(crate::proofs::Behind::type_none, crate::proofs::Behind::type_more))]
pub fn type_of(
    alloc: Global,
    depth: u32,
    in_nullable: bool,
    bytes: &[u8],
) -> Result<(CelType, &[u8]), ReadError>
    ensures { Gives (λ x. (x.0, x.1.now)) result (type_at depth in_nullable bytes.now) }
{
    if depth == 0 {
        return Err(ReadError::Fault(ReadFault::BadTable));
    }
    level_of(alloc, depth - 1, in_nullable, bytes)
}

// The type at the front, with at most so many levels inside.
#[cycle(reading)]
fn level_of(
    alloc: Global,
    depth: u32,
    in_nullable: bool,
    bytes: &[u8],
) -> Result<(CelType, &[u8]), ReadError>
    ensures { Gives (λ x. (x.0, x.1.now)) result (level_at (type_at depth) in_nullable bytes.now) }
{
    match bytes {
        [] => Err(ReadError::Fault(ReadFault::Truncated)),
        [tag, rest @ ..] => type_behind(alloc, depth, in_nullable, *tag, rest),
    }
}

// What is after a tag.
#[cycle(reading)]
#[tactic(auto, using(crate::proofs::Behind::none_behind))]
fn type_behind(
    alloc: Global,
    depth: u32,
    in_nullable: bool,
    tag: u8,
    bytes: &[u8],
) -> Result<(CelType, &[u8]), ReadError>
    ensures { Gives (λ x. (x.0, x.1.now)) result (read_by BadTable (slice_get (type_readers (type_at depth) in_nullable) tag) bytes.now) }
{
    if in_nullable && matches!(tag, 0 | 1 | 9) {
        return Err(ReadError::Fault(ReadFault::BadTable));
    }
    match tag {
        0 => Ok((CelType::Never, bytes)),
        1 => Ok((CelType::Null, bytes)),
        2 => Ok((CelType::Bool, bytes)),
        3 => Ok((CelType::Int, bytes)),
        4 => Ok((CelType::Uint, bytes)),
        5 => {
            let (max, rest) = u32_at(bytes)?;
            Ok((CelType::Text { max }, rest))
        }
        6 => {
            let (max, rest) = u32_at(bytes)?;
            let (plain, rest) = truth_of(rest)?;
            let (item, rest) = type_of(alloc, depth, false, rest)?;
            let item = Shared::new(alloc, item)?;
            Ok((CelType::List { max, plain, item }, rest))
        }
        7 => {
            let (max, rest) = u32_at(bytes)?;
            let (key_max, rest) = u32_at(rest)?;
            let (item, rest) = type_of(alloc, depth, false, rest)?;
            let item = Shared::new(alloc, item)?;
            Ok((CelType::Map { max, key_max, item }, rest))
        }
        8 => {
            let (fields, rest) = fields_of(alloc, depth, bytes)?;
            let fields = Shared::new(alloc, fields)?;
            Ok((CelType::Object { fields }, rest))
        }
        9 => {
            let (item, rest) = type_of(alloc, depth, true, bytes)?;
            Ok((CelType::Nullable(Shared::new(alloc, item)?), rest))
        }
        10 => Ok((CelType::Opaque, bytes)),
        11 => Ok((CelType::Timestamp, bytes)),
        12 => Ok((CelType::Duration, bytes)),
        _ => Err(ReadError::Fault(ReadFault::BadTable)),
    }
}

// The fields of an object, each of a type of at most so many levels.
#[cycle(reading)]
fn fields_of(
    alloc: Global,
    depth: u32,
    bytes: &[u8],
) -> Result<(TextMap<Field<CelType>>, &[u8]), ReadError>
    ensures { Gives (λ x. (x.0, x.1.now)) result (list_at (field_at (type_at depth false)) bytes.now) }
{
    let (count, start) = u32_at(bytes)?;
    let mut fields = Vec::new(alloc);
    let mut rest = start;
    for _ in 0..count {
        let (field, after) = field_of(alloc, depth, fields.as_slice(), rest)?;
        fields.push(field)?;
        rest = after;
    }
    Ok((TextMap::from_vec(fields), rest))
}

// One field after others.
#[cycle(reading)]
fn field_of<'a>(
    alloc: Global,
    depth: u32,
    fields: &[Keyed<Field<CelType>>],
    bytes: &'a [u8],
) -> Result<(Keyed<Field<CelType>>, &'a [u8]), ReadError>
    ensures { Gives (λ x. (x.0, x.1.now)) result (field_at (type_at depth false) (last_of fields.now) bytes.now) }
{
    let (key, rest) = text_of(alloc, bytes)?;
    if !comes_after(fields, key.as_str()) {
        return Err(ReadError::Fault(ReadFault::BadTable));
    }
    let (required, rest) = truth_of(rest)?;
    let (cel_type, rest) = type_of(alloc, depth, false, rest)?;
    let value = Field { required, cel_type };
    Ok((Keyed { key, value }, rest))
}

/// Whether a name comes after the last one, if there is any.
#[tactic(auto, using(crate::proofs::Loops::last_at))]
pub fn comes_after(fields: &[Keyed<Field<CelType>>], name: &str) -> bool
    ensures { result ≡ name_after (last_of fields.now) name.now }
{
    match fields.last() {
        Some(field) => field.key.as_str() < name,
        None => true,
    }
}
