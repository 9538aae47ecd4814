//! Items by their places, and what is under keys. A part of what is lent is lent, and one of the run's own values is
//! copied.

ghost use Rattle.std.specs.Prelude.{◌≡◌, Ok, Some, IfOk, MatchResult, option_map};
ghost use Rattle.cel_operators.specs.Operators.{row, at_two};
ghost use Rattle.cel_operators_applied.specs.Counted.{counted};
ghost use Rattle.cel_machine.specs.Found.{made_by};
ghost use Rattle.cel_operators_applied.specs.Lent.{lent};

use crate::operand::{Held, Operand, own};
use crate::parts::lend;
use cel_operators::{Made, Operator};
use cel_operators_applied::{
    both, characters, entries, item_at, item_of_list, items, tenths_in, value_of_map, whole,
};
use cel_value::{CelError, Value};
use std::alloc::{AllocError, Global};

/// What an index finds, and what that charges.
#[derive(Drop)]
pub struct Found<'a> {
    pub operand: Result<Operand<'a>, CelError>,
    pub charge: u64,
}

/// The item of a list at a place.
pub fn index_list<'a>(
    alloc: Global,
    x: Result<Operand<'a>, CelError>,
    y: Result<&Value, CelError>,
) -> Result<Option<Found<'a>>, AllocError>
    ensures { IfOk result (λ found. option_map made_by found
        ≡ counted (at_two (row Operator.IndexList) (Some x.entry) (Some (lent y.entry)))) }
{
    match x {
        Err(error) => owned(item_of_list(alloc, Err(error), y)),
        Ok(operand) => match operand.into_held() {
            Held::Lent(list) => Ok(item_in(list, y)),
            Held::Own(list) => owned(item_of_list(alloc, Ok(&list), y)),
        },
    }
}

fn item_in<'a>(list: &'a Value, y: Result<&Value, CelError>) -> Option<Found<'a>>
    ensures { option_map made_by result ≡ counted (at_two (row Operator.IndexList) (Some (Ok list.now)) (Some (lent y.entry))) }
{
    match both(items(Ok(list)), whole(y)) {
        Ok((items, place)) => Some(Found {
            operand: lend(item_at(items, place)),
            charge: 1,
        }),
        Err(made) => as_found(made),
    }
}

/// What is under a key of a map.
pub fn index_map<'a>(
    alloc: Global,
    x: Result<Operand<'a>, CelError>,
    y: Result<&Value, CelError>,
) -> Result<Option<Found<'a>>, AllocError>
    ensures { IfOk result (λ found. option_map made_by found
        ≡ counted (at_two (row Operator.IndexMap) (Some x.entry) (Some (lent y.entry)))) }
{
    match x {
        Err(error) => owned(value_of_map(alloc, Err(error), y)),
        Ok(operand) => match operand.into_held() {
            Held::Lent(map) => Ok(value_in(map, y)),
            Held::Own(map) => owned(value_of_map(alloc, Ok(&map), y)),
        },
    }
}

fn value_in<'a>(map: &'a Value, y: Result<&Value, CelError>) -> Option<Found<'a>>
    ensures { option_map made_by result ≡ counted (at_two (row Operator.IndexMap) (Some (Ok map.now)) (Some (lent y.entry))) }
{
    match both(entries(Ok(map)), characters(y)) {
        Ok((entries, key)) => Some(Found {
            operand: lend(entries.get(key).ok_or(CelError::NoSuchKey)),
            charge: 1 + tenths_in(key),
        }),
        Err(made) => as_found(made),
    }
}

fn owned<'a>(made: Result<Option<Made>, AllocError>) -> Result<Option<Found<'a>>, AllocError>
    ensures { MatchResult result (λ parts. made ≡ Ok (option_map made_by parts)) (λ e. made ≡ Err e) }
{
    match made {
        Ok(made) => Ok(as_found(made)),
        Err(error) => Err(error),
    }
}

fn as_found<'a>(made: Option<Made>) -> Option<Found<'a>>
    ensures { option_map made_by result ≡ made }
{
    match made {
        Some(made) => Some(Found {
            operand: own(made.outcome),
            charge: made.charge,
        }),
        None => None,
    }
}
