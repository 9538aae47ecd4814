//! A policy at a kind.

ghost use Rattle.std.specs.Prelude.{◌≡◌, ℕ, IfOk, IsErrOf};
ghost use Rattle.base_containers.specs.declared.failed.Failed.TheVariants.{Fault};
ghost use Rattle.cel_expression.specs.declared.refusal.CompileFault.TheVariants.{Unverified};
ghost use Rattle.vap_policy_programs.specs.Expressions.{of_decisions, of_behind, expressions_of, IsOneUnverified};
ghost use Rattle.vap_policy_programs.specs.Scopes.{first_names};
ghost use Rattle.vap_policy_programs.specs.Pairs.{decisions_behind, programs_behind, programs_at, programs_with, pair_of};
ghost use Rattle.vap_policy_programs.specs.Defined.{scoped_by};
ghost use Rattle.vap_policy_programs.specs.Ready.{PairsAreReady, PairsAreWithin};

use crate::annotations::compile_annotations;
use crate::conditions::compile_conditions;
use crate::names::{KindTypes, NameTypes, ParamsType, first_names};
use crate::pair_fault::PairFault;
use crate::prices::within_price;
use crate::programs::{Condition, Pair, Programs};
use crate::validations::compile_checks;
use crate::variables::{Defined, compile_variables};
use crate::wanted::Choice;
use base_containers::Items;
use cel_expression::CompileError;
use std::alloc::Global;
use vap_read::PolicySpec;

/// What comes after the variables.
fn compile_decisions(
    alloc: Global,
    choice: &Choice,
    conditions: Items<Condition>,
    defined: Defined,
    policy: &PolicySpec,
) -> Result<Result<Programs, PairFault>, CompileError>
    ensures compiled { IfOk result (λ ps. ps ≡ decisions_behind choice.now conditions policy.now (scoped_by defined)) }
    ensures unverified { (at : ℕ) → IsErrOf result (Fault (Unverified at))
        → IsOneUnverified at (of_decisions choice.now defined.names policy.now) }
{
    let Defined { variables, names } = defined;
    match compile_checks(alloc, choice, &names, policy.validations.as_slice())? {
        Err(fault) => Ok(Err(fault)),
        Ok(validations) => {
            match compile_annotations(alloc, choice, &names, policy.audit_annotations.as_slice())? {
                Err(fault) => Ok(Err(fault)),
                Ok(annotations) => Ok(within_price(
                    conditions,
                    variables,
                    validations,
                    annotations,
                )),
            }
        }
    }
}

/// What comes after the conditions.
fn compile_behind(
    alloc: Global,
    choice: &Choice,
    names: &NameTypes,
    conditions: Items<Condition>,
    policy: &PolicySpec,
) -> Result<Result<Programs, PairFault>, CompileError>
    ensures compiled { IfOk result (λ ps. ps ≡ programs_behind choice.now names.now policy.now conditions) }
    ensures unverified { (at : ℕ) → IsErrOf result (Fault (Unverified at))
        → IsOneUnverified at (of_behind choice.now names.now policy.now) }
{
    match compile_variables(alloc, choice, names, policy.variables.as_slice())? {
        Err(fault) => Ok(Err(fault)),
        Ok(defined) => compile_decisions(alloc, choice, conditions, defined, policy),
    }
}

fn compile_all(
    alloc: Global,
    choice: &Choice,
    names: &NameTypes,
    policy: &PolicySpec,
) -> Result<Result<Programs, PairFault>, CompileError>
    ensures compiled { IfOk result (λ ps. ps ≡ programs_at choice.now names.now policy.now) }
    ensures unverified { (at : ℕ) → IsErrOf result (Fault (Unverified at))
        → IsOneUnverified at (expressions_of choice.now names.now policy.now) }
{
    match compile_conditions(alloc, choice, names, policy.match_conditions.as_slice())? {
        Err(fault) => Ok(Err(fault)),
        Ok(conditions) => compile_behind(alloc, choice, names, conditions, policy),
    }
}

fn compile_with(
    alloc: Global,
    choice: &Choice,
    types: &KindTypes,
    params: &ParamsType,
    policy: &PolicySpec,
) -> Result<Result<Programs, PairFault>, CompileError>
    ensures compiled { IfOk result (λ ps. ps ≡ programs_with choice.now types.now params.now policy.now) }
    ensures unverified { (at : ℕ) → IsErrOf result (Fault (Unverified at))
        → IsOneUnverified at (expressions_of choice.now (first_names types.now params.now) policy.now) }
{
    if params.is_unknown() {
        return Ok(Err(PairFault::UnknownParamKind));
    }
    let names = first_names(alloc, types, params)?;
    compile_all(alloc, choice, &names, policy)
}

/// The programs of a policy at a kind, whose objects have these types, or the first of what makes it misconfigured there: the kind
/// of its params is not known; a fault of an expression, in the order of conditions, variables, validations, each before its
/// message, and annotations; together they may charge more than 100,000,000. It is an error if memory does not suffice, or if
/// the verifier refuses the image of one of the expressions.
#[tactic(auto, unfolding(crate::specs::Pairs::pair_of))]
pub fn pair(
    alloc: Global,
    choice: &Choice,
    types: &KindTypes,
    params: &ParamsType,
    policy: &PolicySpec,
) -> Result<Pair, CompileError>
    ensures pair { IfOk result (λ pair. pair ≡ pair_of choice.now types.now params.now policy.now) }
    ensures unverified { (at : ℕ) → IsErrOf result (Fault (Unverified at))
        → IsOneUnverified at (expressions_of choice.now (first_names types.now params.now) policy.now) }
{
    match compile_with(alloc, choice, types, params, policy)? {
        Ok(programs) => Ok(Pair::Runs(programs)),
        Err(fault) => Ok(Pair::Misconfigured(fault)),
    }
}

/// The law that the expressions of a pair may be run one after another: each is at the types of what its names hold then,
/// and together they charge at most 100,000,000.
pub fn pairs_are_ready()
    ensures ready { PairsAreReady }
    ensures within { PairsAreWithin }
{}
