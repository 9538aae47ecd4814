//! The rules of the instructions of loops.

ghost use Rattle.std.specs.Prelude.{◌≡◌, ◌<◌, ◌∷◌, [], true, Option, Some, Ok, MatchResult, length, reverse, slice_get};
ghost use Rattle.base_containers.specs.Failures.{Fails};
ghost use Rattle.cel_value.specs.declared.cel_type.CelType as type;
ghost use Rattle.cel_value.specs.declared.expr.Loop.{Loop as LoopKind};
ghost use Rattle.cel_operators.specs.Loops.{loop_type as type_of_loop};
ghost use Rattle.cel_code.specs.LoopNumbers.{loop_kind as kind_of_loop};
ghost use Rattle.cel_verify.specs.declared.fault.VerifyRule.TheVariants.{WrongKind};
ghost use Rattle.cel_verify.specs.StackTypes.{StackTypes, all_assignable};
ghost use Rattle.cel_verify.specs.Sound.{needs, entry_in, no_items, span_of as span_of_open};
ghost use Rattle.cel_verify.specs.Sound.{local_rule, item_rule, when_rule, next_rule, closing_rule, loop_rule, kind_rule, empty_rule};
ghost use Rattle.cel_verify.specs.Arrivals.{AreArrivals};
ghost use Rattle.cel_verify.specs.Walked.{Follows, IsRange, Begins, Awaits};

use crate::arrivals::Arrivals;
use crate::fault::{Refusal, VerifyRule};
use crate::open_loop::Open;
use crate::opens::Opens;
use crate::targets::entry;
use crate::type_stack::TypeStack;
use cel_code::{Image, loop_kind};
use cel_operators::{Span, Untyped, is_truth, loop_type, span_of};
use cel_value::{CelType, Loop};
use std::alloc::Global;

/// The item of an open loop, on top.
pub fn local(
    opens: &Opens,
    within: usize,
    mut types: TypeStack,
) -> Result<Option<TypeStack>, Refusal>
    ensures { Follows result (local_rule (slice_get opens.now within) types) }
{
    let Some(around) = opens.get(within) else {
        return Err(Refusal::Fault(VerifyRule::Underflow));
    };
    types.push(around.item.get().copy()?)?;
    Ok(Some(types))
}

/// The next item, with nothing above the frame.
pub fn item(mut types: TypeStack) -> Result<Option<TypeStack>, Refusal>
    ensures { Follows result (item_rule types) }
{
    if types.pop().is_some() {
        return Err(Refusal::Fault(VerifyRule::WrongKind));
    }
    Ok(Some(types))
}

/// The predicate of `map`, alone above the frame.
pub fn when(mut types: TypeStack) -> Result<Option<TypeStack>, Refusal>
    ensures { Follows result (when_rule types) }
{
    let Some(t) = types.pop() else {
        return Err(Refusal::Fault(VerifyRule::Underflow));
    };
    if types.pop().is_some() || !is_truth(&t) {
        return Err(Refusal::Fault(VerifyRule::WrongKind));
    }
    Ok(Some(types))
}

/// What a body gives, alone above the frame.
#[tactic(auto, using(crate::proofs::Openings::next_outside))]
pub fn next(
    alloc: Global,
    opens: &Opens,
    mut types: TypeStack,
) -> Result<Option<TypeStack>, Refusal>
    ensures { Follows result (next_rule opens.now types) }
{
    let Some(t) = types.pop() else {
        return Err(Refusal::Fault(VerifyRule::Underflow));
    };
    let Some(around) = opens.innermost() else {
        return Err(Refusal::Fault(VerifyRule::WrongKind));
    };
    let below = types.pop();
    if below.is_some() {
        return Err(Refusal::Fault(VerifyRule::WrongKind));
    }
    closing(alloc, around, &t)
}

// The result of a loop whose body gives a type.
fn closing(alloc: Global, around: &Open, body: &CelType) -> Result<Option<TypeStack>, Refusal>
    ensures { Follows result (closing_rule around.now (type_of_loop around.now.mode (span_of_open around.now) body.now)) }
{
    match loop_type(alloc, around.mode, around.max, around.item.get(), body) {
        Ok(answer) => leads_on(around, &answer),
        Err(Untyped::Fault(_)) => Err(Refusal::Fault(VerifyRule::WrongKind)),
        Err(Untyped::OutOfMemory) => Err(Refusal::OutOfMemory),
    }
}

// A loop's result may be used where it leads.
fn leads_on(around: &Open, answer: &CelType) -> Result<Option<TypeStack>, Refusal>
    ensures { Follows result (closing_rule around.now (Ok answer.now)) }
{
    if !around.below.fits_under(answer, around.after.as_slice()) {
        return Err(Refusal::Fault(VerifyRule::WrongKind));
    }
    Ok(None)
}

/// The loop of the kind of a number that begins at an instruction, over the range on top.
pub fn opened(
    alloc: Global,
    image: &Image,
    arrivals: &Arrivals,
    at: usize,
    number: usize,
    exit: usize,
    mut types: TypeStack,
) -> Result<Open, Refusal>
    requires known { AreArrivals image.now arrivals.now }
    requires inside { exit < length image.now.code }
    ensures { MatchResult result
        (λ o. Begins image.now at number exit types o)
        (λ r. Fails r (kind_rule (kind_of_loop number) (entry_in image.now.targets exit) types)) }
{
    let Some(mode) = loop_kind(number) else {
        return Err(Refusal::Fault(VerifyRule::BadConstant));
    };
    let span = range_taken(alloc, &mut types)?;
    let after = awaited(alloc, image, arrivals, mode, exit, &types)?;
    Ok(Open {
        start: at,
        exit,
        mode,
        item: span.item,
        max: span.max,
        below: types,
        after,
    })
}

// What the type on top says of a range; it is taken off.
fn range_taken(alloc: Global, types: &mut TypeStack) -> Result<Span, Refusal>
    ensures { MatchResult result
        (λ span. IsRange types.old span types.new)
        (λ r. (mode : LoopKind) (entry : Option StackTypes) → Fails r (loop_rule mode entry types.old)) }
{
    let Some(range) = types.pop() else {
        return Err(Refusal::Fault(VerifyRule::Underflow));
    };
    match span_of(alloc, &range) {
        Ok(Some(span)) => Ok(span),
        Ok(None) => Err(Refusal::Fault(VerifyRule::WrongKind)),
        Err(_) => Err(Refusal::OutOfMemory),
    }
}

// The types where a loop leads, if its result of no items may be used there.
fn awaited(
    alloc: Global,
    image: &Image,
    arrivals: &Arrivals,
    mode: Loop,
    exit: usize,
    below: &TypeStack,
) -> Result<TypeStack, Refusal>
    requires known { AreArrivals image.now arrivals.now }
    requires inside { exit < length image.now.code }
    ensures { MatchResult result
        (λ after. Awaits image.now mode exit below.now after)
        (λ r. Fails r (empty_rule (entry_in image.now.targets exit) below.now (type_of_loop mode no_items type.Never))) }
{
    let Some(entry) = entry(image, arrivals, exit) else {
        return Err(Refusal::Fault(VerifyRule::WrongKind));
    };
    match loop_type(alloc, mode, 0, &CelType::Never, &CelType::Never) {
        Ok(empty) => taken_in(alloc, below, &empty, entry),
        Err(Untyped::Fault(_)) => Err(Refusal::Fault(VerifyRule::WrongKind)),
        Err(Untyped::OutOfMemory) => Err(Refusal::OutOfMemory),
    }
}

// The types of an entry, if these with a type on top are assignable to it.
fn taken_in(
    alloc: Global,
    below: &TypeStack,
    top: &CelType,
    entry: &[CelType],
) -> Result<TypeStack, Refusal>
    ensures { MatchResult result
        (λ after. (after ≡ reverse entry.now) × (all_assignable (top.now ∷ below.now) after ≡ true))
        (λ r. Fails r (needs (all_assignable (top.now ∷ below.now) (reverse entry.now)) WrongKind (Ok (Some [])))) }
{
    if !below.fits_under(top, entry) {
        return Err(Refusal::Fault(VerifyRule::WrongKind));
    }
    Ok(TypeStack::from_slice(alloc, entry)?)
}
