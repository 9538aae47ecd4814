//! What loops go over.

ghost use Rattle.std.specs.Prelude.{◌≡◌, ◌<◌, Some, Ok, length, slice_get, IfOk, IfSome, option_copied};
ghost use Rattle.cel_operators.specs.declared.operands.Want.TheVariants.{Ranged};
ghost use Rattle.cel_operators.specs.Wants.{taken, keys_of};
ghost use Rattle.cel_operators_applied.specs.Kinds.{seen_by};
ghost use Rattle.cel_machine.specs.Ranges.{range_items, item_at};

use crate::operand::{Held, Operand};
use base_containers::{Items, Keyed, TextMap};
use cel_value::{CelError, Value};
use std::alloc::{AllocError, Global};

/// The items of a list or the keys of a map: lent if the operand is, else the run's own.
#[derive(Drop)]
pub enum Range<'a> {
    Lent(&'a [Value]),
    Own(Items<Value>),
    LentKeys(&'a TextMap<Value>),
    OwnKeys(TextMap<Value>),
}

impl<'a> Range<'a> {
    /// How many items there are.
    pub fn len(&self) -> usize
        ensures { result ≡ length (range_items self.now) }
    {
        match self {
            Range::Lent(items) => items.len(),
            Range::Own(items) => items.len(),
            Range::LentKeys(entries) => entries.len(),
            Range::OwnKeys(entries) => entries.len(),
        }
    }

    /// The item at a place: an item that is lent is lent on, all else is copied.
    pub fn item(&self, alloc: Global, place: usize) -> Result<Operand<'a>, AllocError>
        requires { place < length (range_items self.now) }
        ensures { IfOk result (λ item. item ≡ item_at (range_items self.now) place) }
    {
        let Some(item) = self.found(alloc, place)? else {
            unreachable!();
        };
        Ok(item)
    }

    /// The item at a place, if it is lent.
    pub fn lent_item(&self, place: usize) -> Option<&'a Value>
        ensures { IfSome result (λ item. item.now ≡ item_at (range_items self.now) place) }
    {
        match self {
            Range::Lent(items) => items.get(place),
            _ => None,
        }
    }

    fn found(&self, alloc: Global, place: usize) -> Result<Option<Operand<'a>>, AllocError>
        ensures { IfOk result (λ item. item ≡ slice_get (range_items self.now) place) }
    {
        match self {
            Range::Lent(items) => Ok(items.get(place).map(Operand::lent)),
            Range::Own(items) => copied(alloc, items.get(place)),
            Range::LentKeys(entries) => key(entries.as_slice(), place),
            Range::OwnKeys(entries) => key(entries.as_slice(), place),
        }
    }
}

// A copy of an item.
fn copied<'a>(alloc: Global, item: Option<&Value>) -> Result<Option<Operand<'a>>, AllocError>
    ensures { IfOk result (λ copy. copy ≡ option_copied item.entry) }
{
    match item {
        Some(item) => Ok(Some(Operand::own(item.copy(alloc)?))),
        None => Ok(None),
    }
}

// A key, as a text of its own.
fn key<'a>(entries: &[Keyed<Value>], place: usize) -> Result<Option<Operand<'a>>, AllocError>
    ensures { IfOk result (λ key. key ≡ slice_get (keys_of entries.now) place) }
{
    match entries.get(place) {
        Some(entry) => Ok(Some(Operand::own(Value::Text(entry.key.copy()?)))),
        None => Ok(None),
    }
}

/// The range or error that an operand is, if it is one. Null is an error.
pub fn ranged<'a>(x: Result<Operand<'a>, CelError>) -> Option<Result<Range<'a>, CelError>>
    ensures { seen_by range_items result ≡ taken Ranged (Some x.entry) }
{
    match x {
        Err(error) => Some(Err(error)),
        Ok(operand) => match operand.into_held() {
            Held::Lent(value) => lent(value),
            Held::Own(value) => own(value),
        },
    }
}

fn lent<'a>(value: &'a Value) -> Option<Result<Range<'a>, CelError>>
    ensures { seen_by range_items result ≡ taken Ranged (Some (Ok value.now)) }
{
    match value {
        Value::List(items) => Some(Ok(Range::Lent(items.as_slice()))),
        Value::Map(entries) => Some(Ok(Range::LentKeys(entries))),
        Value::Null => Some(Err(CelError::NullOperand)),
        _ => None,
    }
}

fn own<'a>(value: Value) -> Option<Result<Range<'a>, CelError>>
    ensures { seen_by range_items result ≡ taken Ranged (Some (Ok value)) }
{
    match value {
        Value::List(items) => Some(Ok(Range::Own(items))),
        Value::Map(entries) => Some(Ok(Range::OwnKeys(entries))),
        Value::Null => Some(Err(CelError::NullOperand)),
        _ => None,
    }
}
