ghost use Rattle.std.specs.Prelude.{◌≡◌, ◌+◌, ◌<◌, ◌^◌, ℕ, List, [], Ok, IfOk, IfSome, IsErrOf, IsTrue, Some};
ghost use Rattle.std.specs.Prelude.{slice_get, option_map, reverse};
ghost use Rattle.base_containers.specs.declared.failed.Failed.TheVariants.{Fault};
ghost use Rattle.cel_machine.specs.declared.fault.RunFault.TheVariants.{Pattern};
ghost use Rattle.cel_value.specs.declared.value.Value as value;
ghost use Rattle.cel_operators.specs.Operators.{row, operator_of, at_one};
ghost use Rattle.cel_operators.specs.Wants.{side_of};
ghost use Rattle.cel_code.specs.Machine.{Frame, act, inputs_of, push, constant as constant_of, slot as slot_of, operate_by};
ghost use Rattle.cel_code.specs.Machine.{made as made_next, join as sides_joined, joined as joined_next};
ghost use Rattle.cel_machine.specs.Found.{made_by};
ghost use Rattle.cel_code.specs.Matches.{is_matches};
ghost use Rattle.cel_operators_applied.specs.Counted.{counted};
ghost use Rattle.cel_operators_applied.specs.Lent.{lent};
ghost use Rattle.cel_machine.specs.Room.{HasRoom};
ghost use Rattle.cel_machine.specs.declared.position.Position.{Position};
ghost use Rattle.cel_machine.specs.Follow.{Follows, LeadsTo, Comes, Finishes, metered_one, metered_two, made_of_two};
ghost use Rattle.cel_machine.specs.Follow.{top_of, below_two, test_of, join_of, sides_of, branch_of, end_of, size_made};

use crate::arithmetic::calculated;
use crate::comparison::compared;
use crate::fault::RunError;
use crate::frames::Frames;
use crate::index::{Found, index_list, index_map};
use crate::lists::list;
use crate::loops::{item, local, next, open_loop, when};
use crate::maps::map;
use crate::operand::{Operand, own, read};
use crate::parts::lend;
use crate::position::Position;
use crate::slots::Slots;
use crate::stack::Stack;
use crate::with_text::{operate_with, text_at};
use cel_code::{Image, Instr};
use cel_operators::{Made, Matchers, Operands, Operator};
use cel_operators_applied::{on_one, on_two, truth};
use cel_value::{CelError, Value, code_points, tenths};
use std::alloc::{AllocError, Global};

/// Whether a run goes on after an instruction.
#[derive(Clone, Copy)]
pub enum Move {
    /// It goes on where it is then.
    GoesOn,
    /// It is over, and its outcome is on top.
    IsOver,
    IsStuckHere,
}

/// One instruction, which is the one that the position has. Its operands are the constants and what the slots hold, which are
/// not copied, and what the run made. A loop that it opens is among the open ones, and goes over what is lent in its place.
#[inline(always)]
pub fn step<'a>(
    alloc: Global,
    image: &'a Image,
    slots: &'a Slots<'_>,
    instr: Instr,
    position: &mut Position,
    stack: &mut Stack<'a>,
    frames: &mut Frames<'a>,
    matchers: &mut Matchers,
) -> Result<Move, RunError>
    requires at { position.old.at + 1 < 2 ^ 64 }
    requires room { HasRoom stack.old }
    ensures acts { IfOk result (λ m. Follows (act (inputs_of image.now slots.now) instr position.old.at stack.old.items frames.old)
        m position.new stack.new.items frames.new) }
    ensures pattern { IsErrOf result (Fault Pattern) → IsTrue (is_matches instr) }
    ensures room { stack.new.room ≡ stack.old.room }
{
    let moved = match instr {
        Instr::Const(number) => constant(image, number, position, stack),
        Instr::Slot(number) => slot(slots, number, position, stack),
        Instr::Local(number) => return told(local(alloc, number, position, stack, frames)),
        Instr::Op(code) => return told(operator(alloc, code, position, stack)),
        Instr::WithText(op, number) => return match text_at(image, number) {
            Some(text) => operate_with(alloc, op, text, position, stack, matchers),
            None => Ok(Move::IsStuckHere),
        },
        Instr::List(count) => return told(list(alloc, count, position, stack)),
        Instr::Map(count) => return told(map(alloc, count, position, stack)),
        Instr::AndTest(to) => test(stack, false, to, position),
        Instr::OrTest(to) => test(stack, true, to, position),
        Instr::And => join(stack, true, position),
        Instr::Or => join(stack, false, position),
        Instr::Cond(if_false, if_error) => branch(stack, if_false, if_error, position),
        Instr::Jump(to) => position.go_to(to, 0),
        Instr::Loop(number, exit) => {
            return told(open_loop(alloc, number, exit, position, stack, frames));
        }
        Instr::Item => item(position, frames),
        Instr::When => when(position, stack, frames),
        Instr::Next => return told(next(alloc, position, stack, frames)),
        Instr::End => end(stack),
    };
    Ok(moved)
}

// The end of the run, with the top as its outcome.
fn end(stack: &Stack<'_>) -> Move
    ensures { (there : Position) → LeadsTo (end_of stack.now.items) result there stack.now.items }
{
    match stack.top() {
        Some(_) => Move::IsOver,
        None => Move::IsStuckHere,
    }
}

/// The move of an instruction that can fail only for lack of memory, as a step answers it.
pub fn told(moved: Result<Move, AllocError>) -> Result<Move, RunError>
    ensures moved { IfOk result (λ m. moved ≡ Ok m) }
    ensures memory { IsErrOf result (Fault Pattern) → ⊥ }
{
    match moved {
        Ok(moved) => Ok(moved),
        Err(error) => Err(RunError::from(error)),
    }
}

fn constant<'a>(
    image: &'a Image,
    number: usize,
    position: &mut Position,
    stack: &mut Stack<'a>,
) -> Move
    requires at { position.old.at + 1 < 2 ^ 64 }
    requires room { HasRoom stack.old }
    ensures acts { LeadsTo (push (constant_of (slice_get image.now.constants number)) position.old.at stack.old.items)
        result position.new stack.new.items }
    ensures room { stack.new.room ≡ stack.old.room }
{
    let Some(value) = image.constants.get(number) else {
        return Move::IsStuckHere;
    };
    stack.push(Ok(Operand::lent(value)));
    position.go_on(0)
}

fn slot<'a>(
    slots: &'a Slots<'_>,
    number: usize,
    position: &mut Position,
    stack: &mut Stack<'a>,
) -> Move
    requires at { position.old.at + 1 < 2 ^ 64 }
    requires room { HasRoom stack.old }
    ensures acts { LeadsTo (slot_of (slice_get slots.now number) position.old.at stack.old.items) result position.new stack.new.items }
    ensures room { stack.new.room ≡ stack.old.room }
{
    match slots.get(number) {
        Some(Ok(value)) => stack.push(Ok(Operand::lent(value))),
        Some(error) => stack.push(lend(error)),
        None => return Move::IsStuckHere,
    }
    position.go_on(1)
}

// The operator of a number.
fn operator(
    alloc: Global,
    code: usize,
    position: &mut Position,
    stack: &mut Stack<'_>,
) -> Result<Move, AllocError>
    requires at { position.old.at + 1 < 2 ^ 64 }
    requires room { HasRoom stack.old }
    ensures acts { IfOk result (λ m. LeadsTo (operate_by (operator_of code) position.old.at stack.old.items)
        m position.new stack.new.items) }
    ensures room { stack.new.room ≡ stack.old.room }
{
    match Operator::from_code(code) {
        Some(op) => operate(alloc, op, position, stack),
        None => Ok(Move::IsStuckHere),
    }
}

fn operate(
    alloc: Global,
    op: Operator,
    position: &mut Position,
    stack: &mut Stack<'_>,
) -> Result<Move, AllocError>
    requires at { position.old.at + 1 < 2 ^ 64 }
    requires room { HasRoom stack.old }
    ensures acts { IfOk result (λ m. LeadsTo (operate_by (Some op) position.old.at stack.old.items) m position.new stack.new.items) }
    ensures room { stack.new.room ≡ stack.old.room }
{
    match op {
        Operator::Not => negate(alloc, position, stack),
        Operator::SizeText => measure(alloc, position, stack),
        Operator::Equal
        | Operator::NotEqual
        | Operator::Less
        | Operator::AtMost
        | Operator::Greater
        | Operator::AtLeast
        | Operator::StartsWith
        | Operator::EndsWith
        | Operator::Contains
        | Operator::InList
        | Operator::InMap => compare(alloc, op, position, stack),
        Operator::Add | Operator::Subtract | Operator::Multiply => calculate(
            alloc, op, position, stack,
        ),
        _ => apply(alloc, op, position, stack),
    }
}

// `!`: the opposite of a truth value takes its place.
fn negate(alloc: Global, position: &mut Position, stack: &mut Stack<'_>) -> Result<Move, AllocError>
    requires at { position.old.at + 1 < 2 ^ 64 }
    requires room { HasRoom stack.old }
    ensures acts { IfOk result (λ m. LeadsTo (operate_by (Some Operator.Not) position.old.at stack.old.items)
        m position.new stack.new.items) }
    ensures room { stack.new.room ≡ stack.old.room }
{
    let Some(holds) = truth_on_top(stack) else {
        return apply(alloc, Operator::Not, position, stack);
    };
    stack.put_truth(!holds);
    Ok(position.go_on(1))
}

fn truth_on_top(stack: &Stack<'_>) -> Option<bool>
    ensures { IfSome result (λ holds. top_of stack.now.items ≡ Some (Ok (value.Bool holds))) }
{
    match stack.top() {
        Some(Ok(Value::Bool(holds))) => Some(*holds),
        _ => None,
    }
}

// An operator whose truth value may be found where its operands are: then it takes their place. It is put there by what is compiled
// into this function: if it were handed to another one in memory, it would be read in other pieces than it is written in, and a
// processor has to wait for that.
fn compare(
    alloc: Global,
    op: Operator,
    position: &mut Position,
    stack: &mut Stack<'_>,
) -> Result<Move, AllocError>
    requires at { position.old.at + 1 < 2 ^ 64 }
    requires room { HasRoom stack.old }
    ensures acts { IfOk result (λ m. LeadsTo (operate_by (Some op) position.old.at stack.old.items) m position.new stack.new.items) }
    ensures room { stack.new.room ≡ stack.old.room }
{
    if let Some(comparison) = compared(op, stack.as_slice()) {
        stack.drop_top();
        stack.put_truth(comparison.holds);
        return Ok(position.go_on(comparison.charge));
    }
    apply(alloc, op, position, stack)
}

// The size of a text takes its place.
#[inline(never)]
fn measure(
    alloc: Global,
    position: &mut Position,
    stack: &mut Stack<'_>,
) -> Result<Move, AllocError>
    requires at { position.old.at + 1 < 2 ^ 64 }
    requires room { HasRoom stack.old }
    ensures acts { IfOk result (λ m. LeadsTo (operate_by (Some Operator.SizeText) position.old.at stack.old.items)
        m position.new stack.new.items) }
    ensures room { stack.new.room ≡ stack.old.room }
{
    let Some(size) = size_on_top(stack) else {
        return apply(alloc, Operator::SizeText, position, stack);
    };
    stack.put_over_top(Ok(Operand::own(Value::Int(size as i64))));
    Ok(position.go_on(1 + tenths(size as u64)))
}

fn size_on_top(stack: &Stack<'_>) -> Option<usize>
    ensures size { IfSome result (λ n. counted (at_one (row Operator.SizeText) (top_of stack.now.items)) ≡ Some (size_made n)) }
    ensures small { IfSome result (λ n. n < 2 ^ 63) }
{
    match stack.top() {
        Some(Ok(Value::Text(text))) => Some(code_points(text.as_str())),
        _ => None,
    }
}

// A sum, a difference or a product: of two integers it takes their place. It stands apart, since few steps are any.
#[inline(never)]
fn calculate(
    alloc: Global,
    op: Operator,
    position: &mut Position,
    stack: &mut Stack<'_>,
) -> Result<Move, AllocError>
    requires at { position.old.at + 1 < 2 ^ 64 }
    requires room { HasRoom stack.old }
    ensures acts { IfOk result (λ m. LeadsTo (operate_by (Some op) position.old.at stack.old.items) m position.new stack.new.items) }
    ensures room { stack.new.room ≡ stack.old.room }
{
    if let Some(number) = calculated(op, stack.as_slice()) {
        stack.put_over_two(Ok(Operand::own(Value::Int(number))));
        return Ok(position.go_on(1));
    }
    apply(alloc, op, position, stack)
}

// Any operator. What it may need is much, and is set to zero at each call: so it stands apart from what most steps are.
#[inline(never)]
fn apply(
    alloc: Global,
    op: Operator,
    position: &mut Position,
    stack: &mut Stack<'_>,
) -> Result<Move, AllocError>
    requires at { position.old.at + 1 < 2 ^ 64 }
    requires room { HasRoom stack.old }
    ensures acts { IfOk result (λ m. LeadsTo (operate_by (Some op) position.old.at stack.old.items) m position.new stack.new.items) }
    ensures room { stack.new.room ≡ stack.old.room }
{
    match op.operands() {
        Operands::One(_) => operate_one(alloc, op, position, stack),
        Operands::Two(_, _) => operate_two(alloc, op, position, stack),
    }
}

fn operate_one(
    alloc: Global,
    op: Operator,
    position: &mut Position,
    stack: &mut Stack<'_>,
) -> Result<Move, AllocError>
    requires at { position.old.at + 1 < 2 ^ 64 }
    requires room { HasRoom stack.old }
    ensures acts { IfOk result (λ m. Comes (metered_one (row op) position.old.at stack.old.items) m position.new stack.new.items) }
    ensures room { stack.new.room ≡ stack.old.room }
{
    let Some(x) = stack.top() else {
        return Ok(Move::IsStuckHere);
    };
    let made = on_one(alloc, op, x);
    stack.drop_top();
    finish(made, position, stack)
}

fn operate_two<'a>(
    alloc: Global,
    op: Operator,
    position: &mut Position,
    stack: &mut Stack<'a>,
) -> Result<Move, AllocError>
    requires at { position.old.at + 1 < 2 ^ 64 }
    requires room { HasRoom stack.old }
    ensures acts { IfOk result (λ m. Comes (metered_two (row op) position.old.at stack.old.items) m position.new stack.new.items) }
    ensures room { stack.new.room ≡ stack.old.room }
{
    match op {
        Operator::IndexList | Operator::IndexMap => index(alloc, op, position, stack),
        _ => finish_over(
            made_of_two(alloc, op, stack.as_slice()),
            op,
            position,
            stack,
        ),
    }
}

// An index; what is in a lent list or map is lent.
fn index<'a>(
    alloc: Global,
    op: Operator,
    position: &mut Position,
    stack: &mut Stack<'a>,
) -> Result<Move, AllocError>
    requires at { position.old.at + 1 < 2 ^ 64 }
    requires room { HasRoom stack.old }
    ensures acts { IfOk result (λ m. Comes (metered_two (row op) position.old.at stack.old.items) m position.new stack.new.items) }
    ensures room { stack.new.room ≡ stack.old.room }
{
    let Some(y) = stack.pop() else {
        return Ok(Move::IsStuckHere);
    };
    let Some(x) = stack.pop() else {
        return Ok(Move::IsStuckHere);
    };
    match op {
        Operator::IndexList => Ok(finish_found(index_list(alloc, x, read(&y))?, position, stack)),
        Operator::IndexMap => Ok(finish_found(index_map(alloc, x, read(&y))?, position, stack)),
        _ => finish(on_two(alloc, op, read(&x), read(&y)), position, stack),
    }
}

// What an operator makes of the last two operands, which stay where they are; nothing if there are fewer.
fn made_of_two(
    alloc: Global,
    op: Operator,
    operands: &[Result<Operand<'_>, CelError>],
) -> Result<Option<Made>, AllocError>
    ensures { IfOk result (λ made. made ≡ made_of_two (row op) (reverse operands.now)) }
{
    let [.., x, y] = operands else {
        return Ok(None);
    };
    on_two(alloc, op, read(x), read(y))
}

// On to the next instruction with what was made of the two operands on top, in their place.
fn finish_over(
    made: Result<Option<Made>, AllocError>,
    op: Operator,
    position: &mut Position,
    stack: &mut Stack<'_>,
) -> Result<Move, AllocError>
    requires at { position.old.at + 1 < 2 ^ 64 }
    requires room { HasRoom stack.old }
    requires made { IfOk made (λ made. made ≡ made_of_two (row op) stack.old.items) }
    ensures acts { IfOk result (λ m. Comes (metered_two (row op) position.old.at stack.old.items) m position.new stack.new.items) }
    ensures room { stack.new.room ≡ stack.old.room }
{
    match made {
        Ok(Some(made)) => {
            let charge = made.charge;
            match made.outcome {
                Ok(Value::Bool(holds)) => {
                    stack.drop_top();
                    stack.put_truth(holds);
                }
                outcome => stack.put_over_two(own(outcome)),
            }
            Ok(position.go_on(charge))
        }
        Ok(None) => Ok(Move::IsStuckHere),
        Err(error) => Err(error),
    }
}

// On to the next instruction with what an index found.
fn finish_found<'a>(
    found: Option<Found<'a>>,
    position: &mut Position,
    stack: &mut Stack<'a>,
) -> Move
    requires at { position.old.at + 1 < 2 ^ 64 }
    requires room { HasRoom stack.old }
    ensures acts { Comes (made_next (option_map made_by found.entry) position.old.at stack.old.items) result position.new stack.new.items }
    ensures room { stack.new.room ≡ stack.old.room }
{
    let Some(part) = found else {
        return Move::IsStuckHere;
    };
    stack.push(part.operand);
    position.go_on(part.charge)
}

/// On to the next instruction with what was made.
pub fn finish<E: Drop>(
    made: Result<Option<Made>, E>,
    position: &mut Position,
    stack: &mut Stack<'_>,
) -> Result<Move, E>
    requires at { position.old.at + 1 < 2 ^ 64 }
    requires room { HasRoom stack.old }
    ensures acts { IfOk result (λ m. Finishes made position.old.at stack.old.items m position.new stack.new.items) }
    ensures room { stack.new.room ≡ stack.old.room }
{
    match made {
        Ok(Some(made)) => {
            let charge = made.charge;
            match made.outcome {
                Ok(Value::Bool(holds)) => stack.push(Ok(Operand::own(Value::Bool(holds)))),
                outcome => stack.push(own(outcome)),
            }
            Ok(position.go_on(charge))
        }
        Ok(None) => Ok(Move::IsStuckHere),
        Err(error) => Err(error),
    }
}

// The jump of a test, which is taken if the top is this truth value.
fn test(stack: &Stack<'_>, ends: bool, to: usize, position: &mut Position) -> Move
    requires { position.old.at + 1 < 2 ^ 64 }
    ensures { LeadsTo (test_of ends stack.now.items to position.old.at) result position.new stack.now.items }
{
    let Some(x) = stack.top() else {
        return Move::IsStuckHere;
    };
    match truth(x) {
        Some(Ok(b)) if b == ends => position.go_to(to, 1),
        Some(_) => position.go_on(1),
        None => Move::IsStuckHere,
    }
}

// Both sides of `&&`, if `all` is true, or of `||`: of two truth values, that of both takes their place.
fn join(stack: &mut Stack<'_>, all: bool, position: &mut Position) -> Move
    requires at { position.old.at + 1 < 2 ^ 64 }
    requires room { HasRoom stack.old }
    ensures acts { LeadsTo (join_of all stack.old.items position.old.at) result position.new stack.new.items }
    ensures room { stack.new.room ≡ stack.old.room }
{
    let Some(holds) = truths_joined(stack.as_slice(), all) else {
        return join_any(stack, all, position);
    };
    stack.drop_top();
    stack.put_truth(holds);
    position.go_on(0)
}

// What the two truth values on top give; nothing if other operands are there.
fn truths_joined(operands: &[Result<Operand<'_>, CelError>], all: bool) -> Option<bool>
    ensures { IfSome result (λ holds. (at : ℕ) (frames : List Frame) → join_of all (reverse operands.now) at frames
        ≡ joined_next (Some (Ok (value.Bool holds))) at (below_two (reverse operands.now)) frames) }
{
    let [.., x, y] = operands else {
        return None;
    };
    match (read(x), read(y)) {
        (Ok(Value::Bool(a)), Ok(Value::Bool(b))) => Some(if all { *a && *b } else { *a || *b }),
        _ => None,
    }
}

// Both sides, whatever they are.
#[inline(never)]
fn join_any(stack: &mut Stack<'_>, all: bool, position: &mut Position) -> Move
    requires at { position.old.at + 1 < 2 ^ 64 }
    requires room { HasRoom stack.old }
    ensures acts { LeadsTo (join_of all stack.old.items position.old.at) result position.new stack.new.items }
    ensures room { stack.new.room ≡ stack.old.room }
{
    let Some(y) = stack.pop() else {
        return Move::IsStuckHere;
    };
    let Some(x) = stack.pop() else {
        return Move::IsStuckHere;
    };
    let Some(both) = joined(all, truth(read(&x)), truth(read(&y))) else {
        return Move::IsStuckHere;
    };
    stack.push(own(both));
    position.go_on(0)
}

fn joined(
    all: bool,
    x: Option<Result<bool, CelError>>,
    y: Option<Result<bool, CelError>>,
) -> Option<Result<Value, CelError>>
    ensures { result ≡ sides_joined (sides_of all) x y }
{
    Some(match (x?, y?) {
        (Ok(a), Ok(b)) => Ok(Value::Bool(if all { a && b } else { a || b })),
        (Ok(a), Err(e)) => if a == all { Err(e) } else { Ok(Value::Bool(a)) },
        (Err(e), Ok(b)) => if b == all { Err(e) } else { Ok(Value::Bool(b)) },
        (Err(e), Err(_)) => Err(e),
    })
}

fn branch(stack: &mut Stack<'_>, if_false: usize, if_error: usize, position: &mut Position) -> Move
    requires at { position.old.at + 1 < 2 ^ 64 }
    requires room { HasRoom stack.old }
    ensures acts { LeadsTo (branch_of if_false if_error stack.old.items position.old.at) result position.new stack.new.items }
    ensures room { stack.new.room ≡ stack.old.room }
{
    let Some(x) = stack.top() else {
        return Move::IsStuckHere;
    };
    let side = truth(x);
    stack.drop_top();
    match side {
        Some(Ok(true)) => position.go_on(1),
        Some(Ok(false)) => position.go_to(if_false, 1),
        Some(Err(e)) => {
            stack.push(Err(e));
            position.go_to(if_error, 1)
        }
        None => Move::IsStuckHere,
    }
}
