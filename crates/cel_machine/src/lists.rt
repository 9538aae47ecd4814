//! The instruction that makes a list.

ghost use Rattle.std.specs.Prelude.{◌≡◌, ◌+◌, ◌<◌, ◌≤◌, ◌^◌, [], length, IfOk, MatchOption, None, Some};
ghost use Rattle.cel_operators.specs.Lists.{values_in, list_made};
ghost use Rattle.cel_code.specs.Machine.{taken_off, listed};
ghost use Rattle.cel_machine.specs.Room.{HasRoom};
ghost use Rattle.cel_machine.specs.Follow.{LeadsTo};
ghost use Rattle.cel_operators_applied.specs.Counted.{counted};

use crate::position::Position;
use crate::stack::Stack;
use crate::step::{Move, finish};
use base_containers::Items;
use cel_operators::Made;
use cel_value::{CelError, Value};
use std::alloc::{AllocError, Global};

/// The list of so many items on the stack, the last one on top, or the leftmost error.
pub fn list(
    alloc: Global,
    count: usize,
    position: &mut Position,
    stack: &mut Stack<'_>,
) -> Result<Move, AllocError>
    requires at { position.old.at + 1 < 2 ^ 64 }
    requires room { HasRoom stack.old }
    ensures acts { IfOk result (λ m. LeadsTo (listed (taken_off count [] stack.old.items) position.old.at) m position.new stack.new.items) }
    ensures room { stack.new.room ≡ stack.old.room }
{
    let Some(items) = taken_off(alloc, count, stack)? else {
        return Ok(Move::IsStuckHere);
    };
    let made = made_list(alloc, count, items)?;
    finish(Ok(Some(made)), position, stack)
}

// So many operands off the stack, the lowest on top.
fn taken_off<'a>(
    alloc: Global,
    count: usize,
    stack: &mut Stack<'a>,
) -> Result<Option<Stack<'a>>, AllocError>
    ensures taken { IfOk result (λ taken. MatchOption taken
        (taken_off count [] stack.old.items ≡ None)
        (λ items. taken_off count [] stack.old.items ≡ Some (items.items, stack.new.items))) }
    ensures shorter { length stack.new.items ≤ length stack.old.items }
    ensures room { stack.new.room ≡ stack.old.room }
{
    let mut taken = Stack::with_room(alloc, count)?;
    let mut left = count;
    while left > 0 {
        let Some(x) = stack.pop() else {
            return Ok(None);
        };
        taken.push(x);
        left -= 1;
    }
    Ok(Some(taken))
}

// The list of so many items, the first on top, with its charge.
fn made_list(alloc: Global, count: usize, items: Stack<'_>) -> Result<Made, AllocError>
    ensures { IfOk result (λ made. counted (Some (list_made items.entry.items)) ≡ Some made) }
{
    Ok(match values(alloc, count, items)? {
        Ok(values) => {
            let charge = (values.len() as u64).saturating_add(1);
            Made {
                outcome: Ok(Value::List(values)),
                charge,
            }
        }
        Err(error) => Made {
            outcome: Err(error),
            charge: 1,
        },
    })
}

// The values of so many items, the first on top, or the leftmost error; what is lent is copied. No answer depends on the number: it is
// the room that is made.
fn values(
    alloc: Global,
    count: usize,
    mut items: Stack<'_>,
) -> Result<Result<Items<Value>, CelError>, AllocError>
    ensures { IfOk result (λ values. values ≡ values_in items.entry.items) }
{
    let mut values = Vec::with_capacity(alloc, count)?;
    while let Some(item) = items.pop() {
        match item {
            Ok(operand) => values.push(operand.into_value(alloc)?)?,
            Err(error) => return Ok(Err(error)),
        }
    }
    Ok(Ok(Items::from_vec(values)))
}
