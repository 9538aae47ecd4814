//! The instruction of the operators that are given a text.

ghost use Rattle.std.specs.Prelude.{◌≡◌, ◌+◌, ◌<◌, ◌^◌, ◌∷◌, Ok, IfOk, IsErrOf, Some, option_map, slice_get};
ghost use Rattle.base_containers.specs.declared.failed.Failed.TheVariants.{Fault};
ghost use Rattle.cel_machine.specs.declared.fault.RunFault.TheVariants.{Pattern};
ghost use Rattle.cel_operators.specs.TextOperators.{row_with};
ghost use Rattle.cel_code.specs.Machine.{constant_text, operate_with};
ghost use Rattle.cel_machine.specs.Room.{HasRoom};
ghost use Rattle.cel_machine.specs.Follow.{LeadsTo, Comes, below_top, metered_one};

use crate::fault::RunError;
use crate::operand::read;
use crate::parts::{field, field_in, has_field, lend};
use crate::position::Position;
use crate::search::matches;
use crate::stack::Stack;
use crate::step::{Move, finish, told};
use cel_code::Image;
use cel_operators::{Matchers, TextOperator};
use cel_value::Value;
use std::alloc::{AllocError, Global};

/// The text that a constant is, if it is one.
pub fn text_at(image: &Image, number: usize) -> Option<&str>
    ensures { option_map (λ s. s.now) result ≡ constant_text (slice_get image.now.constants number) }
{
    match image.constants.get(number) {
        Some(Value::Text(text)) => Some(text.as_str()),
        _ => None,
    }
}

/// An operator with a text at the operand on the stack.
pub fn operate_with(
    alloc: Global,
    op: TextOperator,
    text: &str,
    position: &mut Position,
    stack: &mut Stack<'_>,
    matchers: &mut Matchers,
) -> Result<Move, RunError>
    requires at { position.old.at + 1 < 2 ^ 64 }
    requires room { HasRoom stack.old }
    ensures acts { IfOk result (λ m. LeadsTo (operate_with op (Some text.now) position.old.at stack.old.items)
        m position.new stack.new.items) }
    ensures pattern { IsErrOf result (Fault Pattern) → op ≡ TextOperator.Matches }
    ensures room { stack.new.room ≡ stack.old.room }
{
    match op {
        TextOperator::Select => told(select(alloc, text, position, stack)),
        TextOperator::Has => told(has(text, position, stack)),
        TextOperator::Matches => search(alloc, text, position, stack, matchers),
    }
}

fn select(
    alloc: Global,
    name: &str,
    position: &mut Position,
    stack: &mut Stack<'_>,
) -> Result<Move, AllocError>
    requires at { position.old.at + 1 < 2 ^ 64 }
    requires room { HasRoom stack.old }
    ensures acts { IfOk result (λ m. Comes (metered_one (row_with TextOperator.Select name.now) position.old.at stack.old.items)
        m position.new stack.new.items) }
    ensures room { stack.new.room ≡ stack.old.room }
{
    if let Some(value) = stack.lent_top() {
        return Ok(select_in(value, name, position, stack));
    }
    select_any(alloc, name, position, stack)
}

// The same of any operand. It stands apart, since a function writes zeros over the room of its locals whenever it is called.
fn select_any(
    alloc: Global,
    name: &str,
    position: &mut Position,
    stack: &mut Stack<'_>,
) -> Result<Move, AllocError>
    requires at { position.old.at + 1 < 2 ^ 64 }
    requires room { HasRoom stack.old }
    ensures acts { IfOk result (λ m. Comes (metered_one (row_with TextOperator.Select name.now) position.old.at stack.old.items)
        m position.new stack.new.items) }
    ensures room { stack.new.room ≡ stack.old.room }
{
    let Some(x) = stack.pop() else {
        return Ok(Move::IsStuckHere);
    };
    let Some(part) = field(alloc, x, name)? else {
        return Ok(Move::IsStuckHere);
    };
    stack.push(part);
    Ok(position.go_on(1))
}

// A field of the value on top, which is lent.
fn select_in<'a>(
    value: &'a Value,
    name: &str,
    position: &mut Position,
    stack: &mut Stack<'a>,
) -> Move
    requires at { position.old.at + 1 < 2 ^ 64 }
    requires room { HasRoom stack.old }
    requires top { stack.old.items ≡ Ok value.now ∷ below_top stack.old.items }
    ensures acts { Comes (metered_one (row_with TextOperator.Select name.now) position.old.at stack.old.items)
        result position.new stack.new.items }
    ensures room { stack.new.room ≡ stack.old.room }
{
    let Some(part) = field_in(value, name) else {
        return Move::IsStuckHere;
    };
    match part {
        Ok(value) => stack.put_lent(value),
        error => stack.put_over_top(lend(error)),
    }
    position.go_on(1)
}

fn has(name: &str, position: &mut Position, stack: &mut Stack<'_>) -> Result<Move, AllocError>
    requires at { position.old.at + 1 < 2 ^ 64 }
    requires room { HasRoom stack.old }
    ensures acts { IfOk result (λ m. Comes (metered_one (row_with TextOperator.Has name.now) position.old.at stack.old.items)
        m position.new stack.new.items) }
    ensures room { stack.new.room ≡ stack.old.room }
{
    let Some(x) = stack.top() else {
        return Ok(Move::IsStuckHere);
    };
    let made = has_field(x, name);
    stack.drop_top();
    finish(Ok(made), position, stack)
}

fn search(
    alloc: Global,
    pattern: &str,
    position: &mut Position,
    stack: &mut Stack<'_>,
    matchers: &mut Matchers,
) -> Result<Move, RunError>
    requires at { position.old.at + 1 < 2 ^ 64 }
    requires room { HasRoom stack.old }
    ensures acts { IfOk result (λ m. Comes (metered_one (row_with TextOperator.Matches pattern.now) position.old.at stack.old.items)
        m position.new stack.new.items) }
    ensures room { stack.new.room ≡ stack.old.room }
{
    let Some(x) = stack.pop() else {
        return Ok(Move::IsStuckHere);
    };
    finish(matches(alloc, read(&x), pattern, matchers), position, stack)
}
