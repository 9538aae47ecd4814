//! A policy at one param.

ghost use Rattle.std.specs.Prelude.{◌≡◌, ◌≤◌, ◌++◌, true, List, IfOk, IsErrOf, OnOk};
ghost use Rattle.base_containers.specs.declared.failed.Failed.TheVariants.{Fault};
ghost use Rattle.cel_machine.specs.declared.fault.RunFault.TheVariants.{Pattern};
ghost use Rattle.cel_value.specs.declared.cel_type.CelType.{CelType};
ghost use Rattle.cel_operators.specs.Outcomes.{slots_fit};
ghost use Rattle.cel_operators_applied.specs.Lent.{all_lent};
ghost use Rattle.std.specs.List.{flat_map};
ghost use Rattle.vap_policy_programs.specs.Pairs.{price_behind, price_of, most};
ghost use Rattle.vap_policy_programs.specs.Ready.{IsReady, AreChecksAt, AreAnnotationsAt};
ghost use Rattle.vap_policy_evaluation.specs.Annotations.{note};
ghost use Rattle.vap_policy_evaluation.specs.Found.{failures_behind, charge_behind, failures_of, notes_of, charge_of};
ghost use Rattle.vap_policy_evaluation.specs.PolicyPatterns.{DecisionMayMatch, PolicyMayMatch};

use crate::annotations::annotate_all;
use crate::conditions::{Gate, Passed, pass};
use crate::failures::push_error;
use crate::found::{Failure, Note};
use crate::validations::validate_all;
use crate::variables::{Valued, evaluate};
use cel_machine::{Matchers, RunError, Slots};
use cel_value::{CelError, Value};
use std::alloc::Global;
use vap_policy_programs::Programs;
use vap_read::FailurePolicy;

/// Runs validations and annotations.
fn decide(
    alloc: Global,
    policy: FailurePolicy,
    programs: &Programs,
    slots: &Slots<'_>,
    matchers: &mut Matchers,
    failures: &mut Vec<Failure>,
    notes: &mut Vec<Note>,
) -> Result<u64, RunError>
    ghost types: { List CelType }
    requires checks { AreChecksAt types programs.now.validations }
    requires annotations { AreAnnotationsAt types programs.now.annotations }
    requires fit { slots_fit types slots.now ≡ true }
    requires few { price_behind programs.now ≤ most }
    ensures failures { OnOk result (failures.new.items ≡ failures.old.items ++ failures_behind policy programs.now slots.now) }
    ensures notes { OnOk result (notes.new.items ≡ notes.old.items ++ flat_map (note slots.now) programs.now.annotations) }
    ensures charged { IfOk result (λ n. n ≡ charge_behind programs.now slots.now) }
    ensures within { IfOk result (λ n. n ≤ price_behind programs.now) }
    ensures pattern { IsErrOf result (Fault Pattern) → DecisionMayMatch programs.now }
{
    let first = validate_all(
        alloc,
        policy,
        programs.validations.as_slice(),
        &*slots,
        matchers,
        failures,
    )?;
    let later = annotate_all(
        alloc,
        policy,
        programs.annotations.as_slice(),
        slots,
        matchers,
        failures,
        notes,
    )?;
    Ok(first + later)
}

/// The same, with what the variables hold after what is lent.
fn decide_behind(
    alloc: Global,
    policy: FailurePolicy,
    programs: &Programs,
    lent: &[Result<&Value, CelError>],
    values: &[Result<Value, CelError>],
    matchers: &mut Matchers,
    failures: &mut Vec<Failure>,
    notes: &mut Vec<Note>,
) -> Result<u64, RunError>
    ghost types: { List CelType }
    requires checks { AreChecksAt types programs.now.validations }
    requires annotations { AreAnnotationsAt types programs.now.annotations }
    requires fit { slots_fit types (all_lent lent.now ++ values.now) ≡ true }
    requires few { price_behind programs.now ≤ most }
    ensures failures { OnOk result
        (failures.new.items ≡ failures.old.items ++ failures_behind policy programs.now (all_lent lent.now ++ values.now)) }
    ensures notes { OnOk result
        (notes.new.items ≡ notes.old.items ++ flat_map (note (all_lent lent.now ++ values.now)) programs.now.annotations) }
    ensures charged { IfOk result (λ n. n ≡ charge_behind programs.now (all_lent lent.now ++ values.now)) }
    ensures within { IfOk result (λ n. n ≤ price_behind programs.now) }
    ensures pattern { IsErrOf result (Fault Pattern) → DecisionMayMatch programs.now }
{
    let slots = Slots::new(&*lent, &*values);
    decide(alloc, policy, programs, &slots, matchers, failures, notes)
}

/// What a policy finds at one param, if its names hold what is lent: the failures and the notes are pushed in order, and the
/// answer is what was charged. It is given up if memory runs out, or if a pattern is not built. The latter happens only if `matches`
/// is given a literal text in one of the policy's expressions.
#[tactic(auto, unfolding(crate::specs::Found::failures_of, crate::specs::Found::notes_of, crate::specs::Found::charge_of))]
pub fn judge(
    alloc: Global,
    policy: FailurePolicy,
    programs: &Programs,
    lent: &[Result<&Value, CelError>],
    matchers: &mut Matchers,
    failures: &mut Vec<Failure>,
    notes: &mut Vec<Note>,
) -> Result<u64, RunError>
    ghost types: { List CelType }
    requires ready { IsReady types programs.now }
    requires few { price_of programs.now ≤ most }
    requires fit { slots_fit types (all_lent lent.now) ≡ true }
    ensures failures { OnOk result (failures.new.items ≡ failures.old.items ++ failures_of policy programs.now (all_lent lent.now)) }
    ensures notes { OnOk result (notes.new.items ≡ notes.old.items ++ notes_of programs.now (all_lent lent.now)) }
    ensures charged { IfOk result (λ n. n ≡ charge_of programs.now (all_lent lent.now)) }
    ensures within { IfOk result (λ n. n ≤ price_of programs.now) }
    ensures pattern { IsErrOf result (Fault Pattern) → PolicyMayMatch programs.now }
{
    let none: Vec<Result<Value, CelError>> = Vec::new(alloc);
    let slots = Slots::new(&*lent, none.as_slice());
    let passed = pass(alloc, programs.conditions.as_slice(), &slots, matchers)?;
    let Passed { gate, charged } = passed;
    match gate {
        Gate::Open => {
            let valued = evaluate(alloc, programs.variables.as_slice(), &*lent, matchers)?;
            let Valued {
                values,
                charged: more,
            } = valued;
            let cost = decide_behind(
                alloc,
                policy,
                programs,
                &*lent,
                values.as_slice(),
                matchers,
                failures,
                notes,
            )?;
            Ok(charged + more + cost)
        }
        Gate::Shut => Ok(charged),
        Gate::Broken(message) => {
            push_error(policy, None, message, failures)?;
            Ok(charged)
        }
    }
}
