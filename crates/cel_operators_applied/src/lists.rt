ghost use Rattle.std.specs.Prelude.{◌≡◌, ◌++◌, ◌-◌, ◌^◌, min, IfOk, Some, OnOk};
ghost use Rattle.std.specs.List.{list_any};
ghost use Rattle.cel_value.specs.Value.{same, items_weight_of};
ghost use Rattle.cel_operators.specs.Operators.{row, at_one, at_two, item_at};
ghost use Rattle.cel_operators_applied.specs.Counted.{counted};
ghost use Rattle.cel_operators_applied.specs.Lent.{lent};

use crate::kinds::{alone, both, characters, count, entries, items, made, whole};
use crate::texts::tenths_in;
use base_containers::Items;
use cel_operators::{Made, Operator};
use cel_value::{CelError, Value, equal, weight};
use std::alloc::{AllocError, Global};

pub fn size_list(x: Result<&Value, CelError>) -> Option<Made>
    ensures { result ≡ counted (at_one (row Operator.SizeList) (Some (lent x.entry))) }
{
    match alone(items(x)) {
        Ok(items) => made(count(items.len()), 1),
        Err(made) => made,
    }
}

pub fn size_map(x: Result<&Value, CelError>) -> Option<Made>
    ensures { result ≡ counted (at_one (row Operator.SizeMap) (Some (lent x.entry))) }
{
    match alone(entries(x)) {
        Ok(entries) => made(count(entries.as_slice().len()), 1),
        Err(made) => made,
    }
}

pub fn in_list(x: Result<&Value, CelError>, y: Result<&Value, CelError>) -> Option<Made>
    ensures { result ≡ counted (at_two (row Operator.InList) (Some (lent x.entry)) (Some (lent y.entry))) }
{
    match both(Some(x), items(y)) {
        Ok((value, items)) => made(
            Ok(Value::Bool(is_in(value, items))),
            items_weight(items).saturating_add(2),
        ),
        Err(made) => made,
    }
}

fn is_in(v: &Value, items: &[Value]) -> bool
    ensures { result ≡ list_any (same v.now) items.now }
{
    for item in items {
        if equal(v, item) {
            return true;
        }
    }
    false
}

/// What values weigh together, or the greatest u64 if that is less.
pub fn items_weight(items: &[Value]) -> u64
    ensures { result ≡ min (items_weight_of items.now) (2 ^ 64 - 1) }
{
    let mut total: u64 = 0;
    for item in items {
        total = total.saturating_add(weight(item));
    }
    total
}

pub fn in_map(x: Result<&Value, CelError>, y: Result<&Value, CelError>) -> Option<Made>
    ensures { result ≡ counted (at_two (row Operator.InMap) (Some (lent x.entry)) (Some (lent y.entry))) }
{
    match both(characters(x), entries(y)) {
        Ok((key, entries)) => made(
            Ok(Value::Bool(entries.get(key).is_some())),
            1 + tenths_in(key),
        ),
        Err(made) => made,
    }
}

/// A copy of the item of a list at a place.
pub fn item_of_list(
    alloc: Global,
    x: Result<&Value, CelError>,
    y: Result<&Value, CelError>,
) -> Result<Option<Made>, AllocError>
    ensures { IfOk result (λ made. made ≡ counted (at_two (row Operator.IndexList) (Some (lent x.entry)) (Some (lent y.entry)))) }
{
    match both(items(x), whole(y)) {
        Ok((items, place)) => Ok(made(copied(alloc, item_at(items, place))?, 1)),
        Err(made) => Ok(made),
    }
}

/// The item at a place.
pub fn item_at(items: &[Value], place: i64) -> Result<&Value, CelError>
    ensures { lent result ≡ item_at items.now place }
{
    let Ok(place) = usize::try_from(place) else {
        return Err(CelError::OutOfRange);
    };
    items.get(place).ok_or(CelError::OutOfRange)
}

/// A copy of what is under a key of a map.
pub fn value_of_map(
    alloc: Global,
    x: Result<&Value, CelError>,
    y: Result<&Value, CelError>,
) -> Result<Option<Made>, AllocError>
    ensures { IfOk result (λ made. made ≡ counted (at_two (row Operator.IndexMap) (Some (lent x.entry)) (Some (lent y.entry)))) }
{
    match both(entries(x), characters(y)) {
        Ok((entries, key)) => {
            let value = copied(alloc, entries.get(key).ok_or(CelError::NoSuchKey))?;
            Ok(made(value, 1 + tenths_in(key)))
        }
        Err(made) => Ok(made),
    }
}

/// A copy of what is lent.
fn copied(
    alloc: Global,
    outcome: Result<&Value, CelError>,
) -> Result<Result<Value, CelError>, AllocError>
    ensures { IfOk result (λ value. value ≡ lent outcome.entry) }
{
    match outcome {
        Ok(value) => Ok(Ok(value.copy(alloc)?)),
        Err(error) => Ok(Err(error)),
    }
}

pub fn lists_in_a_row(
    alloc: Global,
    x: Result<&Value, CelError>,
    y: Result<&Value, CelError>,
) -> Result<Option<Made>, AllocError>
    ensures { IfOk result (λ made. made ≡ counted (at_two (row Operator.AddList) (Some (lent x.entry)) (Some (lent y.entry)))) }
{
    match both(items(x), items(y)) {
        Ok((left, right)) => {
            let charge = (left.len() as u64)
                .saturating_add(right.len() as u64)
                .saturating_add(1);
            Ok(made(Ok(Value::List(in_a_row(alloc, left, right)?)), charge))
        }
        Err(made) => Ok(made),
    }
}

fn in_a_row(alloc: Global, left: &[Value], right: &[Value]) -> Result<Items<Value>, AllocError>
    ensures { IfOk result (λ items. items ≡ left.now ++ right.now) }
{
    let mut items = Vec::with_capacity(alloc, left.len())?;
    push_copies(alloc, &mut items, left)?;
    push_copies(alloc, &mut items, right)?;
    Ok(Items::from_vec(items))
}

fn push_copies(alloc: Global, to: &mut Vec<Value>, items: &[Value]) -> Result<(), AllocError>
    ensures { OnOk result (to.new.items ≡ to.old.items ++ items.now) }
{
    for item in items {
        to.push(item.copy(alloc)?)?;
    }
    Ok(())
}
