ghost use Rattle.std.specs.Prelude.{◌≡◌, ◌<◌, false, length, slice_get};
ghost use Rattle.std.specs.List.{AllByRecursion};
ghost use Rattle.cel_operators.specs.Operators.{row, type_of_two};
ghost use Rattle.cel_operators.specs.TextOperators.{row_with};
ghost use Rattle.cel_code.specs.Machine.{constant_text};
ghost use Rattle.cel_verify.specs.StackTypes.{constant_type};
ghost use Rattle.cel_verify.specs.Sound.{enters as may_enter, entry_in, jumps_of, typed_rule};
ghost use Rattle.cel_verify.specs.Sound.{text_rule, constant_rule, row_rule, given as given_rule};
ghost use Rattle.cel_verify.specs.Sound.{test_rule, join_rule, cond_rule, jump_rule, end_rule};
ghost use Rattle.cel_verify.specs.Paths.{is_loop};
ghost use Rattle.cel_verify.specs.Arrivals.{AreArrivals};
ghost use Rattle.cel_verify.specs.Walked.{Follows, rule_of_one, rule_of_two};

use crate::arrivals::Arrivals;
use crate::constants::{constant_text, constant_type};
use crate::fault::{Refusal, VerifyRule};
use crate::list_rule::listed;
use crate::loops::{item, local, next, when};
use crate::map_rule::mapped;
use crate::opens::Opens;
use crate::targets::entry;
use crate::type_stack::TypeStack;
use cel_code::{Image, Instr};
use cel_operators::{Operands, Operator, TextOperator, TypeRule, Untyped, is_truth};
use cel_value::{CelType, assignable};
use std::alloc::Global;

/// The rule of one instruction that begins no loop, at the types above the innermost frame: the types that go on to the
/// next one, if any do.
pub fn typed(
    alloc: Global,
    image: &Image,
    arrivals: &Arrivals,
    instr: Instr,
    opens: &Opens,
    types: TypeStack,
) -> Result<Option<TypeStack>, Refusal>
    requires known { AreArrivals image.now arrivals.now }
    requires inside { AllByRecursion (λ to. to < length image.now.code) (jumps_of instr) }
    requires plain { is_loop instr ≡ false }
    ensures { Follows result (typed_rule image.now instr opens.now types) }
{
    match instr {
        Instr::Const(number) => constant(image, number, types),
        Instr::Slot(number) => slot(image, number, types),
        Instr::Local(within) => local(opens, within, types),
        Instr::Op(code) => match Operator::from_code(code) {
            Some(op) => operation(alloc, op, types),
            None => Err(Refusal::Fault(VerifyRule::BadConstant)),
        },
        Instr::WithText(op, number) => with_text(image, op, number, types),
        Instr::List(count) => listed(alloc, count, types),
        Instr::Map(count) => mapped(alloc, count, types),
        Instr::AndTest(to) | Instr::OrTest(to) => test(image, arrivals, to, types),
        Instr::And | Instr::Or => both_sides(types),
        Instr::Cond(if_false, if_error) => condition(image, arrivals, if_false, if_error, types),
        Instr::Jump(to) => jump(image, arrivals, to, &types),
        Instr::Item => item(types),
        Instr::When => when(types),
        Instr::Next => next(alloc, opens, types),
        Instr::End => end(&image.result, types),
        Instr::Loop(_, _) => unreachable!(),
    }
}

fn constant(
    image: &Image,
    number: usize,
    mut types: TypeStack,
) -> Result<Option<TypeStack>, Refusal>
    ensures { Follows result (constant_rule (constant_type (slice_get image.now.constants number)) types) }
{
    let Some(cel_type) = constant_type(image, number) else {
        return Err(Refusal::Fault(VerifyRule::BadConstant));
    };
    types.push(cel_type)?;
    Ok(Some(types))
}

fn slot(image: &Image, number: usize, mut types: TypeStack) -> Result<Option<TypeStack>, Refusal>
    ensures { Follows result (constant_rule (slice_get image.now.slots number) types) }
{
    let Some(cel_type) = image.slots.get(number) else {
        return Err(Refusal::Fault(VerifyRule::BadConstant));
    };
    types.push(cel_type.copy()?)?;
    Ok(Some(types))
}

fn operation(alloc: Global, op: Operator, types: TypeStack) -> Result<Option<TypeStack>, Refusal>
    ensures { Follows result (row_rule (row op) types) }
{
    match op.operands() {
        Operands::One(_) => operation_on_one(op, types),
        Operands::Two(_, _) => operation_on_two(alloc, op, types),
    }
}

fn operation_on_one(op: Operator, mut types: TypeStack) -> Result<Option<TypeStack>, Refusal>
    ensures { Follows result (rule_of_one (row op) types) }
{
    let Some(s) = types.pop() else {
        return Err(Refusal::Fault(VerifyRule::Underflow));
    };
    given(op.type_of_one(&s), types)
}

fn operation_on_two(
    alloc: Global,
    op: Operator,
    mut types: TypeStack,
) -> Result<Option<TypeStack>, Refusal>
    ensures { Follows result (rule_of_two (row op) types) }
{
    let Some(t) = types.pop() else {
        return Err(Refusal::Fault(VerifyRule::Underflow));
    };
    let Some(s) = types.pop() else {
        return Err(Refusal::Fault(VerifyRule::Underflow));
    };
    given_of_two(alloc, op, &s, &t, types)
}

// An operator with a text, if there is one.
fn with_text(
    image: &Image,
    op: TextOperator,
    number: usize,
    types: TypeStack,
) -> Result<Option<TypeStack>, Refusal>
    ensures { Follows result (text_rule op (constant_text (slice_get image.now.constants number)) types) }
{
    match constant_text(image, number) {
        Some(text) => operation_with(op, text, types),
        None => Err(Refusal::Fault(VerifyRule::BadConstant)),
    }
}

fn operation_with(
    op: TextOperator,
    text: &str,
    mut types: TypeStack,
) -> Result<Option<TypeStack>, Refusal>
    ensures { Follows result (rule_of_one (row_with op text.now) types) }
{
    let Some(s) = types.pop() else {
        return Err(Refusal::Fault(VerifyRule::Underflow));
    };
    match op.type_of(text, &s) {
        Ok(answer) => given(Ok(answer), types),
        Err(Untyped::Fault(rule)) => given(Err(rule), types),
        Err(Untyped::OutOfMemory) => Err(Refusal::OutOfMemory),
    }
}

fn given_of_two(
    alloc: Global,
    op: Operator,
    s: &CelType,
    t: &CelType,
    types: TypeStack,
) -> Result<Option<TypeStack>, Refusal>
    ensures { Follows result (given_rule (type_of_two (row op) s.now t.now) types) }
{
    match op.type_of_two(alloc, s, t) {
        Ok(answer) => given(Ok(answer), types),
        Err(Untyped::Fault(rule)) => given(Err(rule), types),
        Err(Untyped::OutOfMemory) => Err(Refusal::OutOfMemory),
    }
}

/// The type that an instruction gives, on top of those below its operands.
pub fn given(
    answer: Result<CelType, TypeRule>,
    mut types: TypeStack,
) -> Result<Option<TypeStack>, Refusal>
    ensures { Follows result (given_rule answer types) }
{
    match answer {
        Ok(answer) => {
            types.push(answer)?;
            Ok(Some(types))
        }
        Err(TypeRule::TooLarge) => Err(Refusal::Fault(VerifyRule::OverBudget)),
        Err(_) => Err(Refusal::Fault(VerifyRule::WrongKind)),
    }
}

// Whether these types may be used where a jump arrives.
fn enters(image: &Image, arrivals: &Arrivals, to: usize, types: &TypeStack) -> bool
    requires known { AreArrivals image.now arrivals.now }
    requires inside { to < length image.now.code }
    ensures { result ≡ may_enter (entry_in image.now.targets to) types.now }
{
    match entry(image, arrivals, to) {
        Some(entry) => types.fits(entry),
        None => false,
    }
}

fn test(
    image: &Image,
    arrivals: &Arrivals,
    to: usize,
    mut types: TypeStack,
) -> Result<Option<TypeStack>, Refusal>
    requires known { AreArrivals image.now arrivals.now }
    requires inside { to < length image.now.code }
    ensures { Follows result (test_rule (entry_in image.now.targets to) types) }
{
    let Some(t) = types.pop() else {
        return Err(Refusal::Fault(VerifyRule::Underflow));
    };
    types.push(CelType::Bool)?;
    if !(is_truth(&t) && enters(image, arrivals, to, &types)) {
        return Err(Refusal::Fault(VerifyRule::WrongKind));
    }
    types.pop();
    types.push(t)?;
    Ok(Some(types))
}

fn both_sides(mut types: TypeStack) -> Result<Option<TypeStack>, Refusal>
    ensures { Follows result (join_rule types) }
{
    let Some(t) = types.pop() else {
        return Err(Refusal::Fault(VerifyRule::Underflow));
    };
    let Some(s) = types.pop() else {
        return Err(Refusal::Fault(VerifyRule::Underflow));
    };
    if !(is_truth(&s) && is_truth(&t)) {
        return Err(Refusal::Fault(VerifyRule::WrongKind));
    }
    types.push(CelType::Bool)?;
    Ok(Some(types))
}

fn condition(
    image: &Image,
    arrivals: &Arrivals,
    if_false: usize,
    if_error: usize,
    mut types: TypeStack,
) -> Result<Option<TypeStack>, Refusal>
    requires known { AreArrivals image.now arrivals.now }
    requires if_false { if_false < length image.now.code }
    requires if_error { if_error < length image.now.code }
    ensures { Follows result (cond_rule (entry_in image.now.targets if_false) (entry_in image.now.targets if_error) types) }
{
    let Some(t) = types.pop() else {
        return Err(Refusal::Fault(VerifyRule::Underflow));
    };
    let holds = is_truth(&t) && enters(image, arrivals, if_false, &types);
    types.push(CelType::Never)?;
    if !(holds && enters(image, arrivals, if_error, &types)) {
        return Err(Refusal::Fault(VerifyRule::WrongKind));
    }
    types.pop();
    Ok(Some(types))
}

fn jump(
    image: &Image,
    arrivals: &Arrivals,
    to: usize,
    types: &TypeStack,
) -> Result<Option<TypeStack>, Refusal>
    requires known { AreArrivals image.now arrivals.now }
    requires inside { to < length image.now.code }
    ensures { Follows result (jump_rule (entry_in image.now.targets to) types.now) }
{
    if !enters(image, arrivals, to, types) {
        return Err(Refusal::Fault(VerifyRule::WrongKind));
    }
    Ok(None)
}

fn end(result_type: &CelType, mut types: TypeStack) -> Result<Option<TypeStack>, Refusal>
    ensures { Follows result (end_rule result_type.now types) }
{
    let Some(t) = types.pop() else {
        return Err(Refusal::Fault(VerifyRule::Underflow));
    };
    if types.pop().is_some() || !assignable(&t, result_type) {
        return Err(Refusal::Fault(VerifyRule::WrongKind));
    }
    Ok(None)
}
