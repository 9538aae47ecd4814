//! Running one expression.

ghost use Rattle.std.specs.Prelude.{◌≡◌, ◌≤◌, true, Some, IfOk, IsErrOf};
ghost use Rattle.base_containers.specs.declared.failed.Failed.TheVariants.{Fault};
ghost use Rattle.cel_machine.specs.declared.fault.RunFault.TheVariants.{Pattern};
ghost use Rattle.cel_operators.specs.Outcomes.{outcome_fits, slots_fit};
ghost use Rattle.cel_check.specs.Typing.{types_in};
ghost use Rattle.cel_estimate.specs.Estimate.{budget};
ghost use Rattle.cel_expression.specs.Expressions.{estimate_at, type_at};
ghost use Rattle.cel_expression.specs.Patterns.{MayMatch};
ghost use Rattle.vap_policy_evaluation.specs.Runs.{given, charge, holds, truth_of};

use cel_expression::Compiled;
use cel_machine::evaluation::{Ran, run_on};
use cel_machine::{Matchers, Memory, RunError, Slots};
use cel_value::{CelError, Value};
use std::alloc::Global;

/// What an expression gives, and what it charged.
#[tactic(auto, unfolding(crate::specs::Runs::given, crate::specs::Runs::charge))]
pub fn run(
    alloc: Global,
    expression: &Compiled,
    slots: &Slots<'_>,
    matchers: &mut Matchers,
) -> Result<Ran, RunError>
    requires { slots_fit (types_in expression.now.names) slots.now ≡ true }
    ensures given { IfOk result (λ r. r.outcome ≡ given expression.now slots.now) }
    ensures charged { IfOk result (λ r. r.charged ≡ charge expression.now slots.now) }
    ensures fits { IfOk result (λ r. outcome_fits (type_at expression.now) (Some r.outcome) ≡ true) }
    ensures within { IfOk result (λ r. r.charged ≤ estimate_at expression.now) }
    ensures small { IfOk result (λ r. r.charged ≤ budget) }
    ensures pattern { IsErrOf result (Fault Pattern) → MayMatch expression.now }
{
    let ran = cel_machine::evaluation::run(alloc, expression, slots, matchers)?;
    Ok(ran)
}

/// Whether an expression is true, or its error, and what it charged.
#[derive(Drop)]
pub struct Tested {
    pub truth: Result<bool, CelError>,
    pub charged: u64,
}

fn truth_of(outcome: &Result<Value, CelError>) -> Result<bool, CelError>
    ensures { result ≡ truth_of outcome.now }
{
    match outcome {
        Ok(Value::Bool(b)) => Ok(*b),
        Ok(_) => Ok(false),
        Err(error) => Err(*error),
    }
}

/// Runs an expression that is wanted to be a truth value, on memory that is kept for more of them.
#[tactic(auto, unfolding(crate::specs::Runs::given, crate::specs::Runs::charge))]
pub fn test<'a>(
    alloc: Global,
    expression: &'a Compiled,
    slots: &'a Slots<'_>,
    memory: &mut Memory<'a>,
    matchers: &mut Matchers,
) -> Result<Tested, RunError>
    requires { slots_fit (types_in expression.now.names) slots.now ≡ true }
    ensures truth { IfOk result (λ t. t.truth ≡ holds expression.now slots.now) }
    ensures charged { IfOk result (λ t. t.charged ≡ charge expression.now slots.now) }
    ensures within { IfOk result (λ t. t.charged ≤ estimate_at expression.now) }
    ensures small { IfOk result (λ t. t.charged ≤ budget) }
    ensures pattern { IsErrOf result (Fault Pattern) → MayMatch expression.now }
{
    let ran = run_on(alloc, expression, slots, memory, matchers)?;
    Ok(Tested {
        truth: truth_of(&ran.outcome),
        charged: ran.charged,
    })
}
