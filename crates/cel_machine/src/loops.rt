//! The instructions of loops.

ghost use Rattle.std.specs.Prelude.{◌≡◌, ◌+◌, ◌<◌, ◌^◌, List, Some, Ok, IfOk, slice_get};
ghost use Rattle.cel_operators.specs.Outcomes.{Outcome};
ghost use Rattle.cel_code.specs.Machine.{item_of, slot, opened};
ghost use Rattle.cel_machine.specs.Ranges.{range_items};
ghost use Rattle.cel_machine.specs.Room.{HasRoom};
ghost use Rattle.cel_machine.specs.Follow.{Follows, LeadsTo, Turns, loop_of, item_in, when_in, side_in, next_in};
ghost use Rattle.cel_machine.specs.Follow.{mapped_in, gone_in, finished_in, closed_in};

use crate::frame::Frame;
use crate::frames::Frames;
use crate::operand::{Operand, own, read};
use crate::position::Position;
use crate::range::{Range, ranged};
use crate::stack::Stack;
use crate::step::Move;
use crate::turns::{Turned, nothing_yet, result_of};
use cel_code::loop_kind;
use cel_operators_applied::truth;
use cel_value::{CelError, Loop, Value};
use std::alloc::{AllocError, Global};

/// The item at which an open loop is.
pub fn local<'a>(
    alloc: Global,
    number: usize,
    position: &mut Position,
    stack: &mut Stack<'a>,
    frames: &Frames<'a>,
) -> Result<Move, AllocError>
    requires at { position.old.at + 1 < 2 ^ 64 }
    requires room { HasRoom stack.old }
    ensures acts { IfOk result (λ m. Follows
        (slot (item_of (slice_get frames.now number)) position.old.at stack.old.items frames.now)
        m position.new stack.new.items frames.now) }
    ensures room { stack.new.room ≡ stack.old.room }
{
    let Some(frame) = frames.get(number) else {
        return Ok(Move::IsStuckHere);
    };
    match frame.lent_item() {
        Some(item) => {
            stack.push(Ok(Operand::lent(item)));
            Ok(position.go_on(1))
        }
        None => copied(alloc, frame, position, stack),
    }
}

// The item at which a loop is, which may be a copy.
fn copied<'a>(
    alloc: Global,
    frame: &Frame<'a>,
    position: &mut Position,
    stack: &mut Stack<'a>,
) -> Result<Move, AllocError>
    requires at { position.old.at + 1 < 2 ^ 64 }
    requires room { HasRoom stack.old }
    ensures acts { IfOk result (λ m. LeadsTo (slot (Some (Ok frame.now.item)) position.old.at stack.old.items)
        m position.new stack.new.items) }
    ensures room { stack.new.room ≡ stack.old.room }
{
    stack.push(Ok(frame.item(alloc)?));
    Ok(position.go_on(1))
}

/// A loop of the kind of a number over what is on top: it is opened, or its error or the result of no items goes where it leads.
pub fn open_loop<'a>(
    alloc: Global,
    number: usize,
    exit: usize,
    position: &mut Position,
    stack: &mut Stack<'a>,
    frames: &mut Frames<'a>,
) -> Result<Move, AllocError>
    requires at { position.old.at + 1 < 2 ^ 64 }
    requires room { HasRoom stack.old }
    ensures acts { IfOk result (λ m. Follows (loop_of number exit stack.old.items position.old.at frames.old)
        m position.new stack.new.items frames.new) }
    ensures room { stack.new.room ≡ stack.old.room }
{
    let Some(x) = stack.pop() else {
        return Ok(Move::IsStuckHere);
    };
    let Some(mode) = loop_kind(number) else {
        return Ok(Move::IsStuckHere);
    };
    match ranged(x) {
        Some(Ok(range)) => open_over(alloc, mode, exit, position, range, stack, frames),
        Some(Err(error)) => {
            stack.push(Err(error));
            Ok(position.go_to(exit, 1))
        }
        None => Ok(Move::IsStuckHere),
    }
}

// A loop over a range.
fn open_over<'a>(
    alloc: Global,
    mode: Loop,
    exit: usize,
    position: &mut Position,
    range: Range<'a>,
    stack: &mut Stack<'a>,
    frames: &mut Frames<'a>,
) -> Result<Move, AllocError>
    requires at { position.old.at + 1 < 2 ^ 64 }
    requires room { HasRoom stack.old }
    ensures acts { IfOk result (λ m. Follows
        (opened mode (Some (Ok (range_items range.entry))) exit position.old.at stack.old.items frames.old)
        m position.new stack.new.items frames.new) }
    ensures room { stack.new.room ≡ stack.old.room }
{
    if range.len() == 0 {
        stack.push(own(result_of(mode, nothing_yet(alloc))));
        return Ok(position.go_to(exit, 1));
    }
    let frame = Frame::new(alloc, position.at, exit, mode, range);
    frames.push(frame)?;
    Ok(position.go_on(1))
}

/// The next item of the innermost loop.
pub fn item(position: &mut Position, frames: &mut Frames<'_>) -> Move
    requires at { position.old.at + 1 < 2 ^ 64 }
    ensures acts { (stack : List Outcome) → Follows (item_in position.old.at stack frames.old)
        result position.new stack frames.new }
{
    if !frames.advance() {
        return Move::IsStuckHere;
    }
    position.go_on(1)
}

/// The predicate of the innermost loop: true goes on, false drops the item, and an error ends the loop.
pub fn when<'a>(position: &mut Position, stack: &mut Stack<'a>, frames: &mut Frames<'a>) -> Move
    requires at { position.old.at + 1 < 2 ^ 64 }
    requires room { HasRoom stack.old }
    ensures acts { Follows (when_in position.old.at stack.old.items frames.old) result position.new stack.new.items frames.new }
    ensures room { stack.new.room ≡ stack.old.room }
{
    let Some(x) = stack.pop() else {
        return Move::IsStuckHere;
    };
    test(truth(read(&x)), position, stack, frames)
}

// What the predicate gave.
fn test<'a>(
    side: Option<Result<bool, CelError>>,
    position: &mut Position,
    stack: &mut Stack<'a>,
    frames: &mut Frames<'a>,
) -> Move
    requires at { position.old.at + 1 < 2 ^ 64 }
    requires room { HasRoom stack.old }
    ensures acts { Follows (side_in side position.old.at stack.old.items frames.old)
        result position.new stack.new.items frames.new }
    ensures room { stack.new.room ≡ stack.old.room }
{
    let Some(frame) = frames.get(0) else {
        return Move::IsStuckHere;
    };
    match frame.mode() {
        Loop::Map => test_in_map(side, position, stack, frames),
        _ => Move::IsStuckHere,
    }
}

// What the predicate of a `map` gave.
fn test_in_map<'a>(
    side: Option<Result<bool, CelError>>,
    position: &mut Position,
    stack: &mut Stack<'a>,
    frames: &mut Frames<'a>,
) -> Move
    requires at { position.old.at + 1 < 2 ^ 64 }
    requires room { HasRoom stack.old }
    ensures acts { Follows (mapped_in side position.old.at stack.old.items frames.old)
        result position.new stack.new.items frames.new }
    ensures room { stack.new.room ≡ stack.old.room }
{
    match side {
        Some(Ok(true)) => position.go_on(0),
        Some(Ok(false)) => go_on(position, stack, frames),
        Some(Err(error)) => close(Err(error), position, stack, frames),
        None => Move::IsStuckHere,
    }
}

/// What the body of the innermost loop gave for the item.
pub fn next<'a>(
    alloc: Global,
    position: &mut Position,
    stack: &mut Stack<'a>,
    frames: &mut Frames<'a>,
) -> Result<Move, AllocError>
    requires room { HasRoom stack.old }
    ensures acts { IfOk result (λ m. Follows (next_in stack.old.items frames.old) m position.new stack.new.items frames.new) }
    ensures room { stack.new.room ≡ stack.old.room }
{
    let Some(x) = stack.top() else {
        return Ok(Move::IsStuckHere);
    };
    if frames.passes(truth(x)) {
        stack.drop_top();
        return Ok(go_on(position, stack, frames));
    }
    turn(alloc, position, stack, frames)
}

// A turn of the innermost loop.
fn turn<'a>(
    alloc: Global,
    position: &mut Position,
    stack: &mut Stack<'a>,
    frames: &mut Frames<'a>,
) -> Result<Move, AllocError>
    requires room { HasRoom stack.old }
    ensures acts { IfOk result (λ m. Follows (next_in stack.old.items frames.old) m position.new stack.new.items frames.new) }
    ensures room { stack.new.room ≡ stack.old.room }
{
    let Some(x) = stack.pop() else {
        return Ok(Move::IsStuckHere);
    };
    behind(frames.turn(alloc, x), position, stack, frames)
}

// After a turn: the loop ends, or goes on with what it has gathered.
fn behind<'a>(
    turned: Result<Turned, AllocError>,
    position: &mut Position,
    stack: &mut Stack<'a>,
    frames: &mut Frames<'a>,
) -> Result<Move, AllocError>
    requires room { HasRoom stack.old }
    ensures acts { IfOk result (λ m. Turns turned stack.old.items frames.old m position.new stack.new.items frames.new) }
    ensures room { stack.new.room ≡ stack.old.room }
{
    match turned {
        Ok(Turned::GoesOn) => Ok(go_on(position, stack, frames)),
        Ok(Turned::Closes(outcome)) => Ok(close(outcome, position, stack, frames)),
        Ok(Turned::IsStuck) => Ok(Move::IsStuckHere),
        Err(error) => Err(error),
    }
}

// To the next item, or out of the loop with its result if none is left.
fn go_on<'a>(position: &mut Position, stack: &mut Stack<'a>, frames: &mut Frames<'a>) -> Move
    requires room { HasRoom stack.old }
    ensures acts { Follows (gone_in stack.old.items frames.old) result position.new stack.new.items frames.new }
    ensures room { stack.new.room ≡ stack.old.room }
{
    let Some(frame) = frames.get(0) else {
        return Move::IsStuckHere;
    };
    if frame.has_left() {
        return position.go_to(frame.again(), 0);
    }
    finish_loop(position, stack, frames)
}

// Out of the loop with its result. A truth value is told without taking the loop off.
fn finish_loop<'a>(position: &mut Position, stack: &mut Stack<'a>, frames: &mut Frames<'a>) -> Move
    requires room { HasRoom stack.old }
    ensures acts { Follows (finished_in stack.old.items frames.old) result position.new stack.new.items frames.new }
    ensures room { stack.new.room ≡ stack.old.room }
{
    let Some(frame) = frames.get(0) else {
        return Move::IsStuckHere;
    };
    let Some(holds) = frame.truth() else {
        return finish_any(position, stack, frames);
    };
    let exit = frame.exit();
    frames.pop();
    stack.push(Ok(Operand::own(Value::Bool(holds))));
    position.go_to(exit, 0)
}

// The same, whatever the result is.
fn finish_any<'a>(position: &mut Position, stack: &mut Stack<'a>, frames: &mut Frames<'a>) -> Move
    requires room { HasRoom stack.old }
    ensures acts { Follows (finished_in stack.old.items frames.old) result position.new stack.new.items frames.new }
    ensures room { stack.new.room ≡ stack.old.room }
{
    let Some(frame) = frames.pop() else {
        return Move::IsStuckHere;
    };
    let to = frame.exit();
    stack.push(own(frame.into_outcome()));
    position.go_to(to, 0)
}

// Out of the loop with this.
fn close<'a>(
    outcome: Result<Value, CelError>,
    position: &mut Position,
    stack: &mut Stack<'a>,
    frames: &mut Frames<'a>,
) -> Move
    requires room { HasRoom stack.old }
    ensures acts { Follows (closed_in outcome stack.old.items frames.old) result position.new stack.new.items frames.new }
    ensures room { stack.new.room ≡ stack.old.room }
{
    let Some(frame) = frames.pop() else {
        return Move::IsStuckHere;
    };
    stack.push(own(outcome));
    position.go_to(frame.exit(), 0)
}
