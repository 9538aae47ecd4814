//! The stages from a text to a program.

ghost use Rattle.std.specs.Prelude.{◌≡◌, ℕ, Ok, IfOk, IsErrOf};
ghost use Rattle.cel_check.specs.Typing.{names_of, types_in};
ghost use Rattle.cel_expression.specs.Compiled.{IsCompiled};
ghost use Rattle.cel_expression.specs.Correct.{Computes, Preserves};
ghost use Rattle.cel_expression.specs.Expressions.{accepted_of, root_type, typed_at, typed_of, within_budget};
ghost use Rattle.cel_expression.specs.Faulty.{IsFaulty};
ghost use Rattle.cel_expression.specs.Stages.{IsFound};
ghost use Rattle.base_containers.specs.declared.failed.Failed.TheVariants.{Fault};
ghost use Rattle.cel_expression.specs.declared.refusal.CompileFault.TheVariants.{Unverified};

use crate::compiler::compile;
use crate::refusal::{CompileError, Refusal};
use base_containers::{Keyed, Text};
use cel_check::{CheckError, Typed, check_by};
use cel_estimate::estimate;
use cel_parse::{ParseError, parse};
use cel_value::{CelType, Expr};
use cel_verify::{Program, verify};
use std::alloc::{AllocError, Global};

/// A typed expression within the budget, and the most that it charges.
#[derive(Drop)]
pub struct Accepted {
    pub typed: Typed,
    pub estimate: u64,
}

/// The typed expression of a text, or why it may not be run. No function here holds a tree where it may return early.
#[tactic(auto, unfolding(crate::specs::Expressions::accepted_of, crate::specs::Expressions::typed_of))]
pub fn typed_text(
    alloc: Global,
    choice: &[Text],
    names: &[Keyed<CelType>],
    text: &str,
) -> Result<Result<Accepted, Refusal>, AllocError>
    ensures { IfOk result (IsFound (types_in names.now)
        (accepted_of (record { choice = choice.now; names = names.now; text = text.now }))) }
{
    match parse(alloc, text) {
        Ok(expression) => typed_expression(alloc, choice, names, &expression),
        Err(ParseError::Fault(fault)) => Ok(Err(Refusal::Parse(fault))),
        Err(ParseError::OutOfMemory) => Err(AllocError),
    }
}

// The same of an expression that was read.
fn typed_expression(
    alloc: Global,
    choice: &[Text],
    names: &[Keyed<CelType>],
    expression: &Expr,
) -> Result<Result<Accepted, Refusal>, AllocError>
    ensures { IfOk result (IsFound (types_in names.now)
        (within_budget (typed_at (names_of choice.now (record { names = names.now })) (Ok expression.now)))) }
{
    match check_by(alloc, expression, names, choice) {
        Ok(typed) => Ok(rated(typed)),
        Err(CheckError::Fault(fault)) => Ok(Err(Refusal::Type(fault))),
        Err(CheckError::OutOfMemory) => Err(AllocError),
    }
}

/// The type of a text's expression, if it has one, whatever it may charge.
#[tactic(auto, unfolding(crate::specs::Expressions::typed_of))]
pub fn root_type(
    alloc: Global,
    choice: &[Text],
    names: &[Keyed<CelType>],
    spelled: &str,
) -> Result<Option<CelType>, AllocError>
    ensures { IfOk result (λ t. t ≡ root_type (typed_of (record { choice = choice.now; names = names.now; text = spelled.now }))) }
{
    match parse(alloc, spelled) {
        Ok(expression) => root_type_of(alloc, choice, names, &expression),
        Err(ParseError::Fault(_)) => Ok(None),
        Err(ParseError::OutOfMemory) => Err(AllocError),
    }
}

// The same of an expression that was read.
fn root_type_of(
    alloc: Global,
    choice: &[Text],
    names: &[Keyed<CelType>],
    expr: &Expr,
) -> Result<Option<CelType>, AllocError>
    ensures { IfOk result (λ t. t ≡ root_type (typed_at (names_of choice.now (record { names = names.now })) (Ok expr.now))) }
{
    match check_by(alloc, expr, names, choice) {
        Ok(typed) => Ok(Some(typed.tree.get().cel_type.copy()?)),
        Err(CheckError::Fault(_)) => Ok(None),
        Err(CheckError::OutOfMemory) => Err(AllocError),
    }
}

// An expression by its estimate.
fn rated(typed: Typed) -> Result<Accepted, Refusal>
    ensures { IsFound typed.slots (within_budget (Ok typed.tree)) result }
{
    match estimate(&typed) {
        Ok(estimate) => Ok(Accepted { typed, estimate }),
        Err(over) => Err(Refusal::OverBudget(over.estimate)),
    }
}

/// The program of a typed expression.
pub fn program_of(alloc: Global, typed: &Typed) -> Result<Program, CompileError>
    ensures computes { IfOk result (λ program. Computes program typed.now.tree) }
    ensures preserves { IfOk result (λ _. Preserves typed.now.slots typed.now.tree) }
    ensures slots { IfOk result (λ program. program.slots ≡ typed.now.slots) }
    ensures image { IfOk result (λ program. IsCompiled program typed.now.tree typed.now.slots) }
    ensures unverified { (at : ℕ) → IsErrOf result (Fault (Unverified at)) → IsFaulty typed.now.tree typed.now.slots at }
{
    let image = compile(alloc, typed)?;
    match verify(alloc, image) {
        Ok(program) => Ok(program),
        Err((error, _)) => Err(error.widened()),
    }
}
