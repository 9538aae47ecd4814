//! The types of loops.

ghost use Rattle.std.specs.Prelude.{◌≡◌, true, IfOk};
ghost use Rattle.cel_value.specs.declared.cel_type.CelType as type;
ghost use Rattle.cel_operators.specs.Loops.{by_predicate, loop_type};
ghost use Rattle.base_containers.specs.Failures.{Answers};
ghost use Rattle.cel_operators.specs.Wants.{limit_of};
ghost use Rattle.cel_operators.specs.declared.operands.Want.TheVariants.{Truth};

use crate::limit::is_truth;
use crate::type_rule::{TypeRule, Untyped};
use base_containers::Shared;
use cel_value::{CelType, Loop};
use std::alloc::{AllocError, Global};

/// The type of a loop's answer, by the most items of its range, their type, and the body's type.
pub fn loop_type(
    alloc: Global,
    kind: Loop,
    max: u32,
    item: &CelType,
    body: &CelType,
) -> Result<CelType, Untyped>
    ensures { Answers (loop_type kind (record { max = max; item = item.now }) body.now) result }
{
    match kind {
        Loop::All | Loop::Exists | Loop::ExistsOne => by_predicate(body, CelType::Bool),
        Loop::Filter => by_predicate(body, list_of(alloc, max, item)?),
        Loop::Map => Ok(list_of(alloc, max, body)?),
    }
}

// The type of the plain lists of so many items at most.
fn list_of(alloc: Global, max: u32, item: &CelType) -> Result<CelType, AllocError>
    ensures { IfOk result (λ list. list ≡ type.List max true item.now) }
{
    Ok(CelType::List {
        max,
        plain: true,
        item: Shared::new(alloc, item.copy()?)?,
    })
}

// The type of an answer, if the body is a predicate.
fn by_predicate(body: &CelType, answer: CelType) -> Result<CelType, Untyped>
    ensures { Answers (by_predicate (limit_of Truth body.now) answer) result }
{
    if is_truth(body) {
        Ok(answer)
    } else {
        Err(Untyped::Fault(TypeRule::NoOverload))
    }
}
