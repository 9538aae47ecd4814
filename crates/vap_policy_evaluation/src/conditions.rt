//! Match conditions.

ghost use Rattle.std.specs.Prelude.{◌≡◌, ◌≤◌, true, false, List, sum_by, Err, IfOk, IsErrOf};
ghost use Rattle.std.specs.Option.{option_or};
ghost use Rattle.std.specs.List.{Any};
ghost use Rattle.base_containers.specs.declared.failed.Failed.TheVariants.{Fault};
ghost use Rattle.cel_machine.specs.declared.fault.RunFault.TheVariants.{Pattern};
ghost use Rattle.cel_value.specs.declared.cel_type.CelType.{CelType};
ghost use Rattle.cel_operators.specs.Outcomes.{slots_fit};
ghost use Rattle.vap_policy_programs.specs.Pairs.{condition_estimate, most};
ghost use Rattle.vap_policy_programs.specs.Ready.{AreConditionsAt};
ghost use Rattle.vap_policy_evaluation.specs.Conditions.{conditions_pass, conditions_charge, gate_of, said};
ghost use Rattle.vap_policy_evaluation.specs.PolicyPatterns.{ConditionMayMatch};

use crate::runs::{Tested, test};
use crate::words::condition_error;
use base_containers::Text;
use cel_machine::{Matchers, Memory, RunError, Slots};
use cel_value::CelError;
use std::alloc::{AllocError, Global};
use vap_policy_programs::Condition;

/// What the match conditions say together.
#[derive(Drop)]
pub enum Gate {
    Open,
    /// One is false.
    Shut,
    /// None is false, and this is said of the first that has an error.
    Broken(Text),
}

#[derive(Drop)]
pub struct Passed {
    pub gate: Gate,
    pub charged: u64,
}

/// The first error, as it is said, with one more condition that has an error.
fn first_error(
    alloc: Global,
    first: Option<Text>,
    name: &Text,
    error: CelError,
) -> Result<Option<Text>, AllocError>
    ensures { IfOk result (λ o. o ≡ option_or first (said name.now (Err error))) }
{
    match first {
        Some(message) => Ok(Some(message)),
        None => Ok(Some(condition_error(alloc, name, error)?)),
    }
}

/// The gate if no condition is false.
fn unless_broken(first: Option<Text>) -> Gate
    ensures { result ≡ gate_of false first }
{
    match first {
        Some(message) => Gate::Broken(message),
        None => Gate::Open,
    }
}

/// Runs the conditions in order, up to the first that is false.
pub fn pass<'a>(
    alloc: Global,
    conditions: &'a [Condition],
    slots: &'a Slots<'_>,
    matchers: &mut Matchers,
) -> Result<Passed, RunError>
    ghost types: { List CelType }
    requires at { AreConditionsAt types conditions.now }
    requires fit { slots_fit types slots.now ≡ true }
    requires few { sum_by condition_estimate conditions.now ≤ most }
    ensures gate { IfOk result (λ p. p.gate ≡ conditions_pass conditions.now slots.now) }
    ensures charged { IfOk result (λ p. p.charged ≡ conditions_charge conditions.now slots.now) }
    ensures within { IfOk result (λ p. p.charged ≤ sum_by condition_estimate conditions.now) }
    ensures pattern { IsErrOf result (Fault Pattern) → Any ConditionMayMatch conditions.now }
{
    // Most policies have none: then no memory is made and let go.
    let [_, ..] = conditions else {
        return Ok(Passed {
            gate: Gate::Open,
            charged: 0,
        });
    };
    let mut memory = Memory::new(alloc);
    let mut first = None;
    let mut total: u64 = 0;
    for condition in conditions {
        let tested = test(alloc, &condition.expression, slots, &mut memory, matchers)?;
        let Tested { truth, charged } = tested;
        total += charged;
        match truth {
            Ok(true) => {}
            Ok(false) => {
                return Ok(Passed {
                    gate: Gate::Shut,
                    charged: total,
                });
            }
            Err(error) => first = first_error(alloc, first, &condition.name, error)?,
        }
    }
    Ok(Passed {
        gate: unless_broken(first),
        charged: total,
    })
}
