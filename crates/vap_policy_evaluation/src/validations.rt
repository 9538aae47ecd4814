//! Validations.

ghost use Rattle.std.specs.Prelude.{◌≡◌, ◌≤◌, ◌*◌, ◌++◌, true, List, sum_by, Some, IfOk, IsErrOf, OnOk};
ghost use Rattle.std.specs.List.{Any};
ghost use Rattle.base_containers.specs.declared.failed.Failed.TheVariants.{Fault};
ghost use Rattle.cel_machine.specs.declared.fault.RunFault.TheVariants.{Pattern};
ghost use Rattle.cel_value.specs.declared.cel_type.CelType.{CelType};
ghost use Rattle.cel_operators.specs.Outcomes.{slots_fit};
ghost use Rattle.cel_estimate.specs.Estimate.{budget};
ghost use Rattle.vap_policy_programs.specs.Pairs.{message_estimate, check_estimate, most};
ghost use Rattle.vap_policy_programs.specs.Ready.{IsCheckAt, AreChecksAt};
ghost use Rattle.vap_policy_evaluation.specs.PolicyPatterns.{CheckMayMatch, MessageMayMatch};
ghost use Rattle.vap_policy_evaluation.specs.Validations.{message_of, told_charge, failure_at, failures_from, check_charge};

use crate::failures::{push_error, push_failure};
use crate::found::Failure;
use crate::runs::{Tested, run, test};
use crate::words::{expression_error, told_or, written};
use base_containers::Text;
use cel_machine::evaluation::Ran;
use cel_machine::{Matchers, Memory, RunError, Slots};
use std::alloc::Global;
use vap_policy_programs::Check;
use vap_read::FailurePolicy;

/// A message, and what it charged.
#[derive(Drop)]
struct Told {
    message: Text,
    charged: u64,
}

/// The message of a validation that is false.
#[tactic(auto, unfolding(crate::specs::Validations::message_of))]
fn message(
    alloc: Global,
    check: &Check,
    slots: &Slots<'_>,
    matchers: &mut Matchers,
) -> Result<Told, RunError>
    ghost types: { List CelType }
    requires at { IsCheckAt types check.now }
    requires fit { slots_fit types slots.now ≡ true }
    ensures message { IfOk result (λ t. t.message ≡ message_of check.now slots.now) }
    ensures charged { IfOk result (λ t. t.charged ≡ told_charge check.now.message_expression slots.now) }
    ensures within { IfOk result (λ t. t.charged ≤ message_estimate check.now.message_expression) }
    ensures small { IfOk result (λ t. t.charged ≤ budget) }
    ensures pattern { IsErrOf result (Fault Pattern) → MessageMayMatch check.now.message_expression }
{
    let rest = written(alloc, check.expression.text(), &check.message)?;
    match &check.message_expression {
        None => Ok(Told {
            message: rest,
            charged: 0,
        }),
        Some(expression) => {
            let ran = run(alloc, expression, slots, matchers)?;
            let Ran { outcome, charged } = ran;
            Ok(Told {
                message: told_or(outcome, rest),
                charged,
            })
        }
    }
}

/// Runs one validation, and its message if it is false.
#[tactic(auto, unfolding(crate::specs::Validations::failure_at, crate::specs::Validations::check_charge))]
fn validate<'a>(
    alloc: Global,
    policy: FailurePolicy,
    check: &'a Check,
    index: u64,
    slots: &'a Slots<'_>,
    memory: &mut Memory<'a>,
    matchers: &mut Matchers,
    failures: &mut Vec<Failure>,
) -> Result<u64, RunError>
    ghost types: { List CelType }
    requires at { IsCheckAt types check.now }
    requires fit { slots_fit types slots.now ≡ true }
    ensures failures { OnOk result (failures.new.items ≡ failures.old.items ++ failure_at policy slots.now index check.now) }
    ensures charged { IfOk result (λ n. n ≡ check_charge slots.now check.now) }
    ensures within { IfOk result (λ n. n ≤ check_estimate check.now) }
    ensures small { IfOk result (λ n. n ≤ 2 * budget) }
    ensures pattern { IsErrOf result (Fault Pattern) → CheckMayMatch check.now }
{
    let tested = test(alloc, &check.expression, slots, memory, matchers)?;
    let Tested { truth, charged } = tested;
    match truth {
        Ok(true) => Ok(charged),
        Ok(false) => {
            let told = message(alloc, check, slots, matchers)?;
            let Told {
                message,
                charged: more,
            } = told;
            push_failure(Some(index), message, check.reason, failures)?;
            Ok(charged + more)
        }
        Err(error) => {
            let message = expression_error(alloc, check.expression.text(), error)?;
            push_error(policy, Some(index), message, failures)?;
            Ok(charged)
        }
    }
}

/// Runs the validations in order.
pub fn validate_all<'a>(
    alloc: Global,
    policy: FailurePolicy,
    checks: &'a [Check],
    slots: &'a Slots<'_>,
    matchers: &mut Matchers,
    failures: &mut Vec<Failure>,
) -> Result<u64, RunError>
    ghost types: { List CelType }
    requires at { AreChecksAt types checks.now }
    requires fit { slots_fit types slots.now ≡ true }
    requires few { sum_by check_estimate checks.now ≤ most }
    ensures failures { OnOk result (failures.new.items ≡ failures.old.items ++ failures_from policy slots.now 0 checks.now) }
    ensures charged { IfOk result (λ n. n ≡ sum_by (check_charge slots.now) checks.now) }
    ensures within { IfOk result (λ n. n ≤ sum_by check_estimate checks.now) }
    ensures pattern { IsErrOf result (Fault Pattern) → Any CheckMayMatch checks.now }
{
    let mut memory = Memory::new(alloc);
    let mut charged: u64 = 0;
    let mut index: usize = 0;
    for check in checks {
        let number = index as u64;
        let cost = validate(
            alloc,
            policy,
            check,
            number,
            slots,
            &mut memory,
            matchers,
            failures,
        )?;
        charged += cost;
        index += 1;
    }
    Ok(charged)
}
