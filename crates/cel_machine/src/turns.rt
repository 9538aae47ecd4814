//! What loops gather from their items.

ghost use Rattle.std.specs.Prelude.{◌≡◌, ◌<◌, Some, IfOk, length, option_map};
ghost use Rattle.cel_operators.specs.Loops.{GoesOn, nothing_yet, with_error, with_item, error_or, result_of, turn};
ghost use Rattle.cel_operators.specs.Loops.{turn_all, turn_exists, turn_exists_one, turn_filter, turn_map};
ghost use Rattle.cel_machine.specs.Ranges.{range_items, item_at};
ghost use Rattle.cel_machine.specs.Turns.{passes, turn_by, turn_side};

use crate::operand::{Operand, outcome_of, read};
use crate::range::Range;
use base_containers::Items;
use cel_operators::{Accumulator, Tally};
use cel_operators_applied::truth;
use cel_value::{CelError, Loop, Value};
use std::alloc::{AllocError, Global};

/// How a loop goes on after an item.
#[derive(Drop)]
pub enum Turned {
    /// It ends with this.
    Closes(Result<Value, CelError>),
    /// To the next item, with what it has gathered.
    GoesOn,
    /// Not at all: its body's value is of a kind that cannot occur there.
    IsStuck,
}

/// What a loop has gathered before its first item.
pub fn nothing_yet(alloc: Global) -> Accumulator
    ensures { result ≡ nothing_yet }
{
    Accumulator {
        error: None,
        tally: Tally::Zero,
        items: Items::new(alloc),
    }
}

/// What a loop makes of what it has gathered from all items.
pub fn result_of(mode: Loop, gathered: Accumulator) -> Result<Value, CelError>
    ensures { result ≡ result_of mode gathered }
{
    match mode {
        Loop::All => error_or(gathered.error, true),
        Loop::Exists => error_or(gathered.error, false),
        Loop::ExistsOne => Ok(Value::Bool(gathered.tally.is_one())),
        Loop::Filter => Ok(Value::List(gathered.items)),
        Loop::Map => Ok(Value::List(gathered.items)),
    }
}

// An error, or else a truth value.
fn error_or(error: Option<CelError>, truth: bool) -> Result<Value, CelError>
    ensures { result ≡ error_or error truth }
{
    match error {
        Some(error) => Err(error),
        None => Ok(Value::Bool(truth)),
    }
}

/// A loop's turn at the item at a place of its range, by what its body gave there. An item that `filter` keeps is copied,
/// and so is what the body of `map` gave, if it is lent.
pub fn turn(
    alloc: Global,
    mode: Loop,
    range: &Range<'_>,
    place: usize,
    gathered: &mut Accumulator,
    x: Result<Operand<'_>, CelError>,
) -> Result<Turned, AllocError>
    requires { place < length (range_items range.now) }
    ensures { IfOk result (λ t. turn_by t gathered.new
        ≡ turn mode (item_at (range_items range.now) place) gathered.old (Some x.entry)) }
{
    match mode {
        Loop::Map => turn_map(gathered, outcome_of(alloc, x)?),
        _ => turn_side(alloc, mode, range, place, gathered, truth(read(&x))),
    }
}

// The turn of a loop whose body is a predicate.
fn turn_side(
    alloc: Global,
    mode: Loop,
    range: &Range<'_>,
    place: usize,
    gathered: &mut Accumulator,
    side: Option<Result<bool, CelError>>,
) -> Result<Turned, AllocError>
    requires { place < length (range_items range.now) }
    ensures { IfOk result (λ t. turn_by t gathered.new
        ≡ turn_side mode (item_at (range_items range.now) place) gathered.old side) }
{
    match mode {
        Loop::All => Ok(turn_all(gathered, side)),
        Loop::Exists => Ok(turn_exists(gathered, side)),
        Loop::ExistsOne => Ok(turn_exists_one(gathered, side)),
        Loop::Filter => turn_filter(alloc, range, place, gathered, side),
        Loop::Map => Ok(Turned::IsStuck),
    }
}

/// Whether a loop goes on from an item with what it has gathered, its body a predicate that gave this there.
pub fn passes(mode: Loop, side: Option<Result<bool, CelError>>) -> bool
    ensures { result ≡ passes mode side }
{
    match (mode, side) {
        (Loop::All, Some(Ok(true))) => true,
        (Loop::Exists | Loop::ExistsOne | Loop::Filter, Some(Ok(false))) => true,
        _ => false,
    }
}

// An error more, which ends no loop: the first one stays.
fn keep_error(gathered: &mut Accumulator, error: CelError) -> Turned
    ensures { turn_by result gathered.new ≡ Some (GoesOn (with_error error gathered.old)) }
{
    match gathered.error {
        Some(_) => {}
        None => gathered.error = Some(error),
    }
    Turned::GoesOn
}

// `all`: a false ends it, and an error is kept.
fn turn_all(gathered: &mut Accumulator, side: Option<Result<bool, CelError>>) -> Turned
    ensures { turn_by result gathered.new ≡ option_map (turn_all gathered.old) side }
{
    match side {
        Some(Ok(true)) => Turned::GoesOn,
        Some(Ok(false)) => Turned::Closes(Ok(Value::Bool(false))),
        Some(Err(error)) => keep_error(gathered, error),
        None => Turned::IsStuck,
    }
}

// `exists`: a true ends it, and an error is kept.
fn turn_exists(gathered: &mut Accumulator, side: Option<Result<bool, CelError>>) -> Turned
    ensures { turn_by result gathered.new ≡ option_map (turn_exists gathered.old) side }
{
    match side {
        Some(Ok(true)) => Turned::Closes(Ok(Value::Bool(true))),
        Some(Ok(false)) => Turned::GoesOn,
        Some(Err(error)) => keep_error(gathered, error),
        None => Turned::IsStuck,
    }
}

// `exists_one`: it counts, and an error ends it.
fn turn_exists_one(gathered: &mut Accumulator, side: Option<Result<bool, CelError>>) -> Turned
    ensures { turn_by result gathered.new ≡ option_map (turn_exists_one gathered.old) side }
{
    match side {
        Some(Ok(true)) => {
            gathered.tally = gathered.tally.one_more();
            Turned::GoesOn
        }
        Some(Ok(false)) => Turned::GoesOn,
        Some(Err(error)) => Turned::Closes(Err(error)),
        None => Turned::IsStuck,
    }
}

// `filter`: a copy of the item at a place is kept if the predicate holds, and an error ends it.
fn turn_filter(
    alloc: Global,
    range: &Range<'_>,
    place: usize,
    gathered: &mut Accumulator,
    side: Option<Result<bool, CelError>>,
) -> Result<Turned, AllocError>
    requires { place < length (range_items range.now) }
    ensures { IfOk result (λ t. turn_by t gathered.new
        ≡ option_map (turn_filter (item_at (range_items range.now) place) gathered.old) side) }
{
    match side {
        Some(Ok(true)) => {
            let item = range.item(alloc, place)?;
            keep(gathered, item.into_value(alloc)?)
        }
        Some(Ok(false)) => Ok(Turned::GoesOn),
        Some(Err(error)) => Ok(Turned::Closes(Err(error))),
        None => Ok(Turned::IsStuck),
    }
}

// `map`: what the transform gives is the next item, and an error ends it.
fn turn_map(
    gathered: &mut Accumulator,
    outcome: Result<Value, CelError>,
) -> Result<Turned, AllocError>
    ensures { IfOk result (λ t. turn_by t gathered.new ≡ Some (turn_map gathered.old outcome)) }
{
    match outcome {
        Ok(value) => keep(gathered, value),
        Err(error) => Ok(Turned::Closes(Err(error))),
    }
}

// One more item of the list that is made.
fn keep(gathered: &mut Accumulator, value: Value) -> Result<Turned, AllocError>
    ensures { IfOk result (λ t. turn_by t gathered.new ≡ Some (GoesOn (with_item value gathered.old))) }
{
    gathered.items.push(value)?;
    Ok(Turned::GoesOn)
}
