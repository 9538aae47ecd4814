//! Validations, compiled, with their messages.

ghost use Rattle.std.specs.Prelude.{◌≡◌, ℕ, IfOk, IsErrOf};
ghost use Rattle.std.specs.List.{flat_map};
ghost use Rattle.base_containers.specs.declared.failed.Failed.TheVariants.{Fault};
ghost use Rattle.cel_expression.specs.declared.refusal.CompileFault.TheVariants.{Unverified};
ghost use Rattle.vap_policy_programs.specs.Expressions.{of_check, of_message, IsOneUnverified};
ghost use Rattle.vap_policy_programs.specs.Pairs.{each, message_of, check_of};

use crate::names::NameTypes;
use crate::pair_fault::PairFault;
use crate::programs::Check;
use crate::wanted::{Choice, Wanted, compile_as};
use base_containers::{Items, Text};
use cel_expression::{CompileError, Compiled};
use std::alloc::{AllocError, Global};
use vap_read::Validation;

fn compile_message(
    alloc: Global,
    choice: &Choice,
    names: &NameTypes,
    message: &Option<Text>,
) -> Result<Result<Option<Compiled>, PairFault>, CompileError>
    ensures compiled { IfOk result (λ m. m ≡ message_of choice.now names.now message.now) }
    ensures unverified { (at : ℕ) → IsErrOf result (Fault (Unverified at))
        → IsOneUnverified at (of_message choice.now names.now message.now) }
{
    match message {
        None => Ok(Ok(None)),
        Some(text) => match compile_as(alloc, choice, names, text, Wanted::Message)? {
            Ok(compiled) => Ok(Ok(Some(compiled))),
            Err(fault) => Ok(Err(fault)),
        },
    }
}

fn copied(text: &Option<Text>) -> Result<Option<Text>, AllocError>
    ensures { IfOk result (λ copy. copy ≡ text.now) }
{
    match text {
        Some(text) => Ok(Some(text.copy()?)),
        None => Ok(None),
    }
}

#[tactic(auto, unfolding(crate::specs::Pairs::check_of))]
fn compile_check(
    alloc: Global,
    choice: &Choice,
    names: &NameTypes,
    validation: &Validation,
) -> Result<Result<Check, PairFault>, CompileError>
    ensures compiled { IfOk result (λ c. c ≡ check_of choice.now names.now validation.now) }
    ensures unverified { (at : ℕ) → IsErrOf result (Fault (Unverified at))
        → IsOneUnverified at (of_check choice.now names.now validation.now) }
{
    let message = copied(&validation.message)?;
    match compile_as(alloc, choice, names, &validation.expression, Wanted::Truth)? {
        Ok(expression) => {
            match compile_message(alloc, choice, names, &validation.message_expression)? {
                Ok(message_expression) => Ok(Ok(Check {
                    expression,
                    message,
                    message_expression,
                    reason: validation.reason,
                })),
                Err(fault) => Ok(Err(fault)),
            }
        }
        Err(fault) => Ok(Err(fault)),
    }
}

pub fn compile_checks(
    alloc: Global,
    choice: &Choice,
    names: &NameTypes,
    validations: &[Validation],
) -> Result<Result<Items<Check>, PairFault>, CompileError>
    ensures compiled { IfOk result (λ cs. cs ≡ each (check_of choice.now names.now) validations.now) }
    ensures unverified { (at : ℕ) → IsErrOf result (Fault (Unverified at))
        → IsOneUnverified at (flat_map (of_check choice.now names.now) validations.now) }
{
    let mut made = Vec::new(alloc);
    for validation in validations {
        match compile_check(alloc, choice, names, validation)? {
            Ok(check) => made.push(check)?,
            Err(fault) => return Ok(Err(fault)),
        }
    }
    Ok(Ok(Items::from_vec(made)))
}
