//! The rule of the instruction that makes a list.

ghost use Rattle.std.specs.Prelude.{◌≡◌, [], IfOk, MatchOption, None, Some};
ghost use Rattle.cel_operators.specs.Lists.{join_all, items_type};
ghost use Rattle.cel_code.specs.Machine.{taken_off};
ghost use Rattle.cel_verify.specs.Sound.{listed_rule, given as given_rule};
ghost use Rattle.cel_verify.specs.Walked.{Follows};

use crate::fault::{Refusal, VerifyRule};
use crate::rules::given;
use crate::type_stack::TypeStack;
use cel_operators::{Untyped, join_next, plain_list};
use cel_value::CelType;
use std::alloc::{AllocError, Global};

/// The rule of a list of so many items at the types of the stack.
pub fn listed(
    alloc: Global,
    count: usize,
    mut types: TypeStack,
) -> Result<Option<TypeStack>, Refusal>
    ensures { Follows result (listed_rule (taken_off count [] types)) }
{
    let Some(items) = taken_off(alloc, count, &mut types)? else {
        return Err(Refusal::Fault(VerifyRule::Underflow));
    };
    list_given(alloc, items, types)
}

/// The types of so many items, the first on top, which are taken off the stack.
pub fn taken_off(
    alloc: Global,
    count: usize,
    types: &mut TypeStack,
) -> Result<Option<TypeStack>, AllocError>
    ensures { IfOk result (λ taken. MatchOption taken
        (taken_off count [] types.old ≡ None)
        (λ items. taken_off count [] types.old ≡ Some (items, types.new))) }
{
    let mut items = TypeStack::new(alloc);
    let mut left = count;
    while left > 0 {
        let Some(cel_type) = types.pop() else {
            return Ok(None);
        };
        items.push(cel_type)?;
        left -= 1;
    }
    Ok(Some(items))
}

// A list of items of these types, the first on top.
fn list_given(
    alloc: Global,
    items: TypeStack,
    types: TypeStack,
) -> Result<Option<TypeStack>, Refusal>
    ensures { Follows result (given_rule (items_type items) types) }
{
    let count = items.len();
    let joined = join_all(alloc, items)?;
    match plain_list(alloc, count, joined) {
        Ok(answer) => given(Ok(answer), types),
        Err(Untyped::Fault(rule)) => given(Err(rule), types),
        Err(Untyped::OutOfMemory) => Err(Refusal::OutOfMemory),
    }
}

// The type that items have in common, the first on top.
fn join_all(alloc: Global, mut items: TypeStack) -> Result<Option<CelType>, AllocError>
    ensures { IfOk result (λ joined. joined ≡ join_all items) }
{
    let mut joined = Some(CelType::Never);
    while let Some(cel_type) = items.pop() {
        joined = join_next(alloc, joined, &cel_type)?;
    }
    Ok(joined)
}
