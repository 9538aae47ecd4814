//! Match conditions, compiled.

ghost use Rattle.std.specs.Prelude.{◌≡◌, ℕ, IfOk, IsErrOf};
ghost use Rattle.cel_expression.specs.Faulty.{IsUnverified};
ghost use Rattle.base_containers.specs.declared.failed.Failed.TheVariants.{Fault};
ghost use Rattle.cel_expression.specs.declared.refusal.CompileFault.TheVariants.{Unverified};
ghost use Rattle.vap_policy_programs.specs.Expressions.{of_conditions, IsOneUnverified};
ghost use Rattle.vap_policy_programs.specs.Pairs.{each, condition_of};
ghost use Rattle.vap_policy_programs.specs.Scopes.{source};

use crate::names::NameTypes;
use crate::pair_fault::PairFault;
use crate::programs::Condition;
use crate::wanted::{Choice, Wanted, compile_as};
use base_containers::Items;
use cel_expression::CompileError;
use std::alloc::Global;
use vap_read::NamedExpression;

#[tactic(auto, unfolding(crate::specs::Pairs::condition_of))]
fn compile_condition(
    alloc: Global,
    choice: &Choice,
    names: &NameTypes,
    condition: &NamedExpression,
) -> Result<Result<Condition, PairFault>, CompileError>
    ensures compiled { IfOk result (λ c. c ≡ condition_of choice.now names.now condition.now) }
    ensures unverified { (at : ℕ) → IsErrOf result (Fault (Unverified at))
        → IsUnverified (source choice.now names.now condition.now.expression) at }
{
    let name = condition.name.copy()?;
    match compile_as(alloc, choice, names, &condition.expression, Wanted::Truth)? {
        Ok(expression) => Ok(Ok(Condition { name, expression })),
        Err(fault) => Ok(Err(fault)),
    }
}

pub fn compile_conditions(
    alloc: Global,
    choice: &Choice,
    names: &NameTypes,
    conditions: &[NamedExpression],
) -> Result<Result<Items<Condition>, PairFault>, CompileError>
    ensures compiled { IfOk result (λ cs. cs ≡ each (condition_of choice.now names.now) conditions.now) }
    ensures unverified { (at : ℕ) → IsErrOf result (Fault (Unverified at))
        → IsOneUnverified at (of_conditions choice.now names.now conditions.now) }
{
    let mut made = Vec::new(alloc);
    for condition in conditions {
        match compile_condition(alloc, choice, names, condition)? {
            Ok(compiled) => made.push(compiled)?,
            Err(fault) => return Ok(Err(fault)),
        }
    }
    Ok(Ok(Items::from_vec(made)))
}
