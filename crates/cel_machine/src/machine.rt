ghost use Rattle.std.specs.Prelude.{ℕ, ◌≡◌, ◌<◌, ◌≤◌, true, Some, IfOk, IsErrOf, length};
ghost use Rattle.base_containers.specs.declared.failed.Failed.TheVariants.{Fault};
ghost use Rattle.cel_machine.specs.declared.fault.RunFault.TheVariants.{Pattern};
ghost use Rattle.cel_operators.specs.Outcomes.{slots_fit};
ghost use Rattle.cel_code.specs.Machine.{Run as IsRun};
ghost use Rattle.cel_verify.specs.StackTypes.{Fits};
ghost use Rattle.cel_verify.specs.Paths.{IsRouteCharge, IsRouteLength, IsWithin};
ghost use Rattle.cel_verify.specs.Accepted.{budget};
ghost use Rattle.cel_machine.specs.Follow.{top_of};
ghost use Rattle.cel_code.specs.Matches.{HasMatches};

use crate::ended::Run;
use crate::fault::RunError;
use crate::memory::Memory;
use crate::operand::outcome_of;
use crate::position::Position;
use crate::slots::Slots;
use crate::stack::Stack;
use crate::step::{Move, step};
use cel_operators::Matchers;
use cel_value::{CelError, Value};
use cel_verify::Program;
use std::alloc::{AllocError, Global};

/// Runs a program whose slots hold these. The run is the definition's; it ends within as many steps as the longest
/// route has, for no more than the dearest route, the budget and what the image declares, with an outcome of its type.
/// Constants and what the slots hold are lent to it: memory is taken for the stack, once, before the first step, for the
/// loops that are open, for the lists and maps that literals and loops make, for the texts, lists and copied items that
/// operators answer with, for items of lists that the run made and for keys of maps if a loop's body names them, for
/// patterns that are built and searched for, and for the outcome if it is a copy of a constant or of what a slot holds.
///
/// `matchers` finds the patterns of the program, and keeps what it built for later runs; no answer depends on that.
///
/// The run is given up if memory does not suffice, or if a pattern that it looks for is not built: the latter only
/// if the program has an instruction that looks for a pattern.
pub fn run<'a>(
    alloc: Global,
    program: &'a Program,
    slots: &'a Slots<'_>,
    matchers: &mut Matchers,
) -> Result<Run, RunError>
    requires { slots_fit program.now.slots slots.now ≡ true }
    ensures run { IfOk result (λ r. IsRun program.now slots.now r.outcome r.charged r.steps) }
    ensures fits { IfOk result (λ r. Fits r.outcome program.now.result) }
    ensures steps { IfOk result (λ r. IsWithin (IsRouteLength program.now) r.steps) }
    ensures charged { IfOk result (λ r. IsWithin (IsRouteCharge program.now) r.charged) }
    ensures within_budget { IfOk result (λ r. r.charged ≤ budget) }
    ensures declared { IfOk result (λ r. (most : ℕ) → program.now.declared ≡ Some most → (r.charged ≤ most) × (most ≤ budget)) }
    ensures pattern { IsErrOf result (Fault Pattern) → HasMatches program.now }
{
    let mut memory = Memory::new(alloc);
    run_on(alloc, program, slots, &mut memory, matchers)
}

/// The same on memory that is kept from one run to the next: more is taken for the stack and for open loops only where these have not
/// the room yet.
pub fn run_on<'a>(
    alloc: Global,
    program: &'a Program,
    slots: &'a Slots<'_>,
    memory: &mut Memory<'a>,
    matchers: &mut Matchers,
) -> Result<Run, RunError>
    requires { slots_fit program.now.slots slots.now ≡ true }
    ensures run { IfOk result (λ r. IsRun program.now slots.now r.outcome r.charged r.steps) }
    ensures fits { IfOk result (λ r. Fits r.outcome program.now.result) }
    ensures steps { IfOk result (λ r. IsWithin (IsRouteLength program.now) r.steps) }
    ensures charged { IfOk result (λ r. IsWithin (IsRouteCharge program.now) r.charged) }
    ensures within_budget { IfOk result (λ r. r.charged ≤ budget) }
    ensures declared { IfOk result (λ r. (most : ℕ) → program.now.declared ≡ Some most → (r.charged ≤ most) × (most ≤ budget)) }
    ensures pattern { IsErrOf result (Fault Pattern) → HasMatches program.now }
{
    let Memory { stack, frames } = memory;
    let image = program.image();
    stack.make_room(program.max_depth() + 1)?;
    frames.clear();
    let mut position = Position { at: 0, charge: 0 };
    let mut charged: u64 = 0;
    let mut steps: u64 = 0;
    while let Some(instr) = image.code.get(position.at) {
        match step(
            alloc,
            image,
            slots,
            *instr,
            &mut position,
            stack,
            frames,
            matchers,
        )? {
            Move::GoesOn => {
                charged += position.charge;
                steps += 1;
            }
            Move::IsOver => {
                let outcome = taken(alloc, stack)?;
                return Ok(Run {
                    outcome,
                    charged,
                    steps: steps + 1,
                });
            }
            Move::IsStuckHere => unreachable!(),
        }
    }
    unreachable!()
}

// The outcome of a run that is over. A truth value is read where it is, on the stack.
fn taken(alloc: Global, stack: &mut Stack<'_>) -> Result<Result<Value, CelError>, AllocError>
    requires { 0 < length stack.old.items }
    ensures { IfOk result (λ x. top_of stack.old.items ≡ Some x) }
{
    if let Some(Ok(Value::Bool(holds))) = stack.top() {
        return Ok(Ok(Value::Bool(*holds)));
    }
    let Some(x) = stack.pop() else {
        unreachable!();
    };
    outcome_of(alloc, x)
}
