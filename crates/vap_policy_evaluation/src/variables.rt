//! Variables.

ghost use Rattle.std.specs.Prelude.{◌≡◌, ◌≤◌, ◌++◌, List, [], ◌∷◌, Some, true, sum_by, IfOk, IsErrOf, OnOk};
ghost use Rattle.std.specs.List.{Any};
ghost use Rattle.base_containers.specs.declared.failed.Failed.TheVariants.{Fault};
ghost use Rattle.cel_machine.specs.declared.fault.RunFault.TheVariants.{Pattern};
ghost use Rattle.cel_value.specs.declared.cel_type.CelType.{CelType};
ghost use Rattle.cel_operators.specs.Outcomes.{outcome_fits, slots_fit};
ghost use Rattle.cel_operators_applied.specs.Lent.{all_lent};
ghost use Rattle.cel_check.specs.Typing.{types_in};
ghost use Rattle.cel_estimate.specs.Estimate.{budget};
ghost use Rattle.cel_expression.specs.Expressions.{estimate_at, type_at};
ghost use Rattle.cel_expression.specs.Patterns.{MayMatch};
ghost use Rattle.vap_policy_programs.specs.Pairs.{most};
ghost use Rattle.vap_policy_programs.specs.Ready.{Follow};
ghost use Rattle.vap_policy_evaluation.specs.Runs.{given, charge};
ghost use Rattle.vap_policy_evaluation.specs.Variables.{values_from, values_charge};

use crate::runs::run;
use cel_expression::Compiled;
use cel_machine::evaluation::Ran;
use cel_machine::{Matchers, RunError, Slots};
use cel_value::{CelError, Value};
use std::alloc::{AllocError, Global};

/// What the variables hold.
#[derive(Drop)]
pub struct Valued {
    pub values: Vec<Result<Value, CelError>>,
    pub charged: u64,
}

fn put(
    made: &mut Vec<Result<Value, CelError>>,
    outcome: Result<Value, CelError>,
) -> Result<(), AllocError>
    ensures { OnOk result (made.new.items ≡ made.old.items ++ outcome ∷ []) }
{
    made.push(outcome)?;
    Ok(())
}

/// Runs one variable after those before it, and puts what it gives last.
fn run_next(
    alloc: Global,
    variable: &Compiled,
    lent: &[Result<&Value, CelError>],
    matchers: &mut Matchers,
    made: &mut Vec<Result<Value, CelError>>,
) -> Result<u64, RunError>
    requires { slots_fit (types_in variable.now.names) (all_lent lent.now ++ made.old.items) ≡ true }
    ensures value { OnOk result (made.new.items ≡ made.old.items ++ given variable.now (all_lent lent.now ++ made.old.items) ∷ []) }
    ensures fits { OnOk result
        (outcome_fits (type_at variable.now) (Some (given variable.now (all_lent lent.now ++ made.old.items))) ≡ true) }
    ensures charged { IfOk result (λ n. n ≡ charge variable.now (all_lent lent.now ++ made.old.items)) }
    ensures within { IfOk result (λ n. n ≤ estimate_at variable.now) }
    ensures small { IfOk result (λ n. n ≤ budget) }
    ensures pattern { IsErrOf result (Fault Pattern) → MayMatch variable.now }
{
    let ran = run(
        alloc,
        variable,
        &Slots::new(lent, made.as_slice()),
        matchers,
    )?;
    let Ran { outcome, charged } = ran;
    put(made, outcome)?;
    Ok(charged)
}

/// Runs the variables, each once and in order.
pub fn evaluate(
    alloc: Global,
    variables: &[Compiled],
    lent: &[Result<&Value, CelError>],
    matchers: &mut Matchers,
) -> Result<Valued, RunError>
    ghost types: { List CelType × List CelType }
    requires follow { Follow types.0 variables.now types.1 }
    requires fit { slots_fit types.0 (all_lent lent.now) ≡ true }
    requires few { sum_by estimate_at variables.now ≤ most }
    ensures values { IfOk result (λ v. v.values.items ≡ values_from [] variables.now (all_lent lent.now)) }
    ensures fit { IfOk result (λ v. slots_fit types.1 (all_lent lent.now ++ v.values.items) ≡ true) }
    ensures charged { IfOk result (λ v. v.charged ≡ values_charge [] variables.now (all_lent lent.now)) }
    ensures within { IfOk result (λ v. v.charged ≤ sum_by estimate_at variables.now) }
    ensures pattern { IsErrOf result (Fault Pattern) → Any MayMatch variables.now }
{
    let mut values = Vec::new(alloc);
    let mut charged: u64 = 0;
    for variable in variables {
        let cost = run_next(alloc, variable, &*lent, matchers, &mut values)?;
        charged += cost;
    }
    Ok(Valued { values, charged })
}
