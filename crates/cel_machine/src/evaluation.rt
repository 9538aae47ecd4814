ghost use Rattle.std.specs.Prelude.{◌≡◌, ◌≤◌, true, Some, IfOk, IsErrOf};
ghost use Rattle.base_containers.specs.declared.failed.Failed.TheVariants.{Fault};
ghost use Rattle.cel_machine.specs.declared.fault.RunFault.TheVariants.{Pattern};
ghost use Rattle.cel_operators.specs.Outcomes.{outcome_fits, slots_fit};
ghost use Rattle.cel_check.specs.Typing.{types_in};
ghost use Rattle.cel_estimate.specs.Estimate.{budget};
ghost use Rattle.cel_expression.specs.Expressions.{estimate_at, run_of, type_at};
ghost use Rattle.cel_expression.specs.Patterns.{MayMatch};

use crate::fault::RunError;
use crate::memory::Memory;
use crate::slots::Slots;
use cel_expression::Compiled;
use cel_operators::Matchers;
use cel_value::{CelError, Value};
use std::alloc::Global;

/// What a run resulted in.
#[derive(Drop)]
pub struct Ran {
    pub outcome: Result<Value, CelError>,
    /// What it charged.
    pub charged: u64,
}

/// What the definitions say of the text, if its names hold these; it is given up if memory does not suffice, or if a
/// pattern that it looks for is not built: the latter only if `matches` is given a literal text in it.
pub fn run<'a>(
    alloc: Global,
    compiled: &'a Compiled,
    slots: &'a Slots<'_>,
    matchers: &mut Matchers,
) -> Result<Ran, RunError>
    requires { slots_fit (types_in compiled.now.names) slots.now ≡ true }
    ensures run { IfOk result (λ r. run_of compiled.now slots.now ≡ Some (record { outcome = r.outcome; charged = r.charged })) }
    ensures fits { IfOk result (λ r. outcome_fits (type_at compiled.now) (Some r.outcome) ≡ true) }
    ensures within { IfOk result (λ r. r.charged ≤ estimate_at compiled.now) }
    ensures small { IfOk result (λ r. r.charged ≤ budget) }
    ensures pattern { IsErrOf result (Fault Pattern) → MayMatch compiled.now }
{
    let mut memory = Memory::new(alloc);
    run_on(alloc, compiled, slots, &mut memory, matchers)
}

/// The same on memory that is kept from one run to the next.
pub fn run_on<'a>(
    alloc: Global,
    compiled: &'a Compiled,
    slots: &'a Slots<'_>,
    memory: &mut Memory<'a>,
    matchers: &mut Matchers,
) -> Result<Ran, RunError>
    requires { slots_fit (types_in compiled.now.names) slots.now ≡ true }
    ensures run { IfOk result (λ r. run_of compiled.now slots.now ≡ Some (record { outcome = r.outcome; charged = r.charged })) }
    ensures fits { IfOk result (λ r. outcome_fits (type_at compiled.now) (Some r.outcome) ≡ true) }
    ensures within { IfOk result (λ r. r.charged ≤ estimate_at compiled.now) }
    ensures small { IfOk result (λ r. r.charged ≤ budget) }
    ensures pattern { IsErrOf result (Fault Pattern) → MayMatch compiled.now }
{
    let ended = crate::machine::run_on(alloc, compiled.program(), slots, memory, matchers)?;
    Ok(Ran {
        outcome: ended.outcome,
        charged: ended.charged,
    })
}
