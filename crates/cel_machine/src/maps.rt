//! The instruction that makes a map.

ghost use Rattle.std.specs.Prelude.{◌≡◌, ◌+◌, ◌<◌, ◌≤◌, ◌^◌, [], length, IfOk, MatchOption, None, Some, Ok};
ghost use Rattle.cel_code.specs.Machine.{taken_off, mapped};
ghost use Rattle.cel_machine.specs.Room.{HasRoom};
ghost use Rattle.cel_machine.specs.Follow.{LeadsTo};
ghost use Rattle.cel_operators_applied.specs.Pairs.{entries_off, turned, entry_of, under};
ghost use Rattle.cel_operators.specs.Wants.{taken};
ghost use Rattle.cel_operators.specs.declared.operands.Want.TheVariants.{Characters};
ghost use Rattle.cel_operators_applied.specs.Lent.{lent};

use crate::operand::{Operand, outcome_of, read};
use crate::position::Position;
use crate::stack::Stack;
use crate::step::{Move, finish};
use base_containers::{Items, Keyed, Text};
use cel_operators_applied::{characters, in_front, map_of};
use cel_value::{CelError, Value};
use std::alloc::{AllocError, Global};

/// The map of so many keys and values on the stack, each value on its key and the last one on top, or the leftmost error.
pub fn map(
    alloc: Global,
    count: usize,
    position: &mut Position,
    stack: &mut Stack<'_>,
) -> Result<Move, AllocError>
    requires at { position.old.at + 1 < 2 ^ 64 }
    requires room { HasRoom stack.old }
    ensures acts { IfOk result (λ m. LeadsTo (mapped (taken_off (count + count) [] stack.old.items) position.old.at)
        m position.new stack.new.items) }
    ensures room { stack.new.room ≡ stack.old.room }
{
    let Some(entries) = entries_off(alloc, count, stack)? else {
        return Ok(Move::IsStuckHere);
    };
    finish(map_of(alloc, entries), position, stack)
}

// The entries that so many keys and values on the stack are, from the last to the first, or the leftmost error; nothing
// if there are fewer or a key is no text. What is lent is copied.
fn entries_off(
    alloc: Global,
    count: usize,
    stack: &mut Stack<'_>,
) -> Result<Option<Result<Items<Keyed<Value>>, CelError>>, AllocError>
    ensures taken { IfOk result (λ entries. MatchOption entries
        (entries_off count (Some (Ok [])) stack.old.items ≡ None)
        (λ es. entries_off count (Some (Ok [])) stack.old.items ≡ Some (turned es, stack.new.items))) }
    ensures shorter { length stack.new.items ≤ length stack.old.items }
    ensures room { stack.new.room ≡ stack.old.room }
{
    let mut entries = Ok(Items::new(alloc));
    let mut left = count;
    while left > 0 {
        let Some(value) = stack.pop() else {
            return Ok(None);
        };
        let Some(key) = stack.pop() else {
            return Ok(None);
        };
        let Some(entry) = entry(alloc, read(&key), value)? else {
            return Ok(None);
        };
        entries = in_front(entry, entries)?;
        left -= 1;
    }
    Ok(Some(entries))
}

// A value under a key, or the error of the two that comes first; nothing if the key is no text. Null is no key but an
// error. What is lent is copied.
fn entry(
    alloc: Global,
    key: Result<&Value, CelError>,
    value: Result<Operand<'_>, CelError>,
) -> Result<Option<Result<Keyed<Value>, CelError>>, AllocError>
    ensures { IfOk result (λ entry. entry ≡ entry_of (taken Characters (Some (lent key.entry))) value.entry) }
{
    match characters(key) {
        Some(Ok(key)) => Ok(Some(under(alloc, key, outcome_of(alloc, value)?)?)),
        Some(Err(error)) => Ok(Some(Err(error))),
        None => Ok(None),
    }
}

fn under(
    alloc: Global,
    key: &str,
    value: Result<Value, CelError>,
) -> Result<Result<Keyed<Value>, CelError>, AllocError>
    ensures { IfOk result (λ entry. entry ≡ under key.now value) }
{
    match value {
        Ok(value) => Ok(Ok(Keyed {
            key: Text::from_str(alloc, key)?,
            value,
        })),
        Err(error) => Ok(Err(error)),
    }
}
