//! What is found of a policy that is misconfigured at a kind.

use crate::charges::Estimate;
use crate::field::Field;
use crate::parts::{Part, parts_of};
use crate::scope::{Names, names_at, with_variable};
use base_containers::{Items, Shared, Text};
use cel_expression::{CompileError, Compiled, Refusal, compile_text};
use cel_value::CelType;
use std::alloc::{AllocError, Global};
use vap_policy_programs::PairFault;
use vap_policy_set::PolicySet;
use vap_read::PolicySpec;

/// Which part of a policy is at fault, its text if it is an expression, why that may not be run itself, if it may not, and what the
/// expressions before it may charge.
#[derive(Drop)]
pub struct Cause {
    pub field: Field,
    pub text: Option<Text>,
    pub own: Option<Refusal>,
    pub estimates: Items<Estimate>,
}

/// What an expression is in its place.
#[derive(Drop)]
enum Attempt {
    Fits(Compiled),
    /// It may be run, and is of a type that may not be there.
    Misplaced,
    Refused(Refusal),
    /// Its code is not accepted.
    Unverified,
}

/// The texts that are taken as no patterns.
type Choice = Shared<Items<Text>>;

fn attempt_at(
    alloc: Global,
    choice: &Choice,
    names: &Names,
    part: &Part<'_>,
) -> Result<Attempt, AllocError> {
    match compile_text(alloc, choice, names, part.text) {
        Ok(Ok(compiled)) => Ok(placed(part, compiled)),
        Ok(Err(refusal)) => Ok(Attempt::Refused(refusal)),
        Err(CompileError::Fault(_)) => Ok(Attempt::Unverified),
        Err(CompileError::OutOfMemory) => Err(AllocError),
    }
}

fn placed(part: &Part<'_>, compiled: Compiled) -> Attempt {
    if part.takes(compiled.cel_type()) {
        Attempt::Fits(compiled)
    } else {
        Attempt::Misplaced
    }
}

/// The names after an expression: those before it, and the variable that holds its value.
fn names_behind(
    alloc: Global,
    names: Names,
    part: &Part<'_>,
    compiled: &Compiled,
) -> Result<Names, AllocError> {
    match part.variable {
        Some(name) => with_variable(alloc, &names, name.as_str(), compiled.cel_type()),
        None => Ok(names),
    }
}

/// What is found at an expression.
fn cause_at(
    part: &Part<'_>,
    own: Option<Refusal>,
    estimates: Items<Estimate>,
) -> Result<Cause, AllocError> {
    let text = part.text.copy()?;
    Ok(Cause {
        field: part.field,
        text: Some(text),
        own,
        estimates,
    })
}

/// What is found at no expression.
fn cause_without(field: Field, estimates: Items<Estimate>) -> Cause {
    Cause {
        field,
        text: None,
        own: None,
        estimates,
    }
}

/// What is found of a policy's expressions, one after the other: the first that may not be run, or that all together may charge
/// too much.
fn cause_among(
    alloc: Global,
    choice: &Choice,
    mut names: Names,
    policy: &PolicySpec,
) -> Result<Cause, AllocError> {
    let mut estimates = Items::new(alloc);
    let parts = parts_of(alloc, policy)?;
    for part in parts.as_slice() {
        match attempt_at(alloc, choice, &names, part)? {
            Attempt::Fits(compiled) => {
                estimates.push(Estimate {
                    field: part.field,
                    most: compiled.estimate(),
                })?;
                names = names_behind(alloc, names, part, &compiled)?;
            }
            Attempt::Refused(refusal) => return cause_at(part, Some(refusal), estimates),
            Attempt::Misplaced | Attempt::Unverified => return cause_at(part, None, estimates),
        }
    }
    Ok(cause_without(Field::Spec, estimates))
}

/// What is found of a policy that has a fault if the objects are of a type.
pub fn cause_of(
    alloc: Global,
    set: &PolicySet,
    policy: &PolicySpec,
    object: &CelType,
    fault: PairFault,
) -> Result<Cause, AllocError> {
    match fault {
        PairFault::UnknownParamKind => { Ok(cause_without(Field::ParamKind, Items::new(alloc))) }
        PairFault::Expression(_) | PairFault::OverBudget => {
            let names = names_at(alloc, set, policy, object)?;
            cause_among(alloc, &set.choice().get().refused, names, policy)
        }
    }
}

/// What is found if there is no policy to look at.
pub fn no_cause(alloc: Global) -> Cause {
    cause_without(Field::Spec, Items::new(alloc))
}
