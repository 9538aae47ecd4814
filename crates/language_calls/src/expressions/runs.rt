//! Runs of programs.

ghost use Rattle.std.specs.Prelude.{◌≡◌, true};
ghost use Rattle.cel_operators.specs.Outcomes.{slots_fit as fits_slots};

use calls_notation::{shown, value_at};
use cel_machine::{Matchers, Memory, Run, RunError, RunFault, Slots, run_on, slots_fit};
use cel_value::{CelError, Value};
use cel_verify::Program;
use serde_json::Value as Json;
use std::alloc::{AllocError, Global};
use vap_match::items_of;

/// What the last of so many runs results in if slots hold what names have.
pub fn last_of(
    alloc: Global,
    program: &Program,
    names: &[Json],
    runs: usize,
) -> Result<String, AllocError> {
    let mut values = Vec::new(alloc);
    match put_held(alloc, &mut values, names) {
        Ok(()) => run_often(alloc, program, values.as_slice(), runs),
        Err(error) => Err(error),
    }
}

fn put_held(
    alloc: Global,
    values: &mut Vec<Result<Value, CelError>>,
    names: &[Json],
) -> Result<(), AllocError> {
    for name in names {
        values.push(held_in(alloc, name)?)?;
    }
    Ok(())
}

/// What a slot holds: the document at the type, and an error if there is none.
fn held_in(alloc: Global, name: &Json) -> Result<Result<Value, CelError>, AllocError> {
    match items_of(name) {
        [_, cel_type, document] => Ok(Ok(value_at(alloc, cel_type, document)?)),
        _ => Ok(Err(CelError::Overflow)),
    }
}

fn run_often(
    alloc: Global,
    program: &Program,
    values: &[Result<Value, CelError>],
    runs: usize,
) -> Result<String, AllocError> {
    let lent = lend_all(alloc, values)?;
    let made: Vec<Result<Value, CelError>> = Vec::new(alloc);
    let slots = Slots::new(lent.as_slice(), made.as_slice());
    if slots_fit(program, &slots) {
        last_with(alloc, program, &slots, runs)
    } else {
        String::from_str(alloc, "does not fit")
    }
}

/// What the last of so many runs on the same memory results in.
fn last_with<'a>(
    alloc: Global,
    program: &'a Program,
    slots: &'a Slots<'_>,
    runs: usize,
) -> Result<String, AllocError>
    requires { fits_slots program.now.slots slots.now ≡ true }
{
    let mut memory = Memory::new(alloc);
    let mut last = String::new(alloc);
    for _ in 0..runs {
        last = run_with(alloc, program, slots, &mut memory)?;
    }
    Ok(last)
}

fn lend(outcome: &Result<Value, CelError>) -> Result<&Value, CelError> {
    match outcome {
        Ok(value) => Ok(value),
        Err(error) => Err(*error),
    }
}

fn lend_all<'a>(
    alloc: Global,
    values: &'a [Result<Value, CelError>],
) -> Result<Vec<Result<&'a Value, CelError>>, AllocError> {
    let mut lent = Vec::with_capacity(alloc, values.len())?;
    for value in values {
        lent.push(lend(value))?;
    }
    Ok(lent)
}

/// What a run results in if slots hold these, what it charges, its steps and the constants of its program.
fn run_with<'a>(
    alloc: Global,
    program: &'a Program,
    slots: &'a Slots<'_>,
    memory: &mut Memory<'a>,
) -> Result<String, AllocError>
    requires { fits_slots program.now.slots slots.now ≡ true }
{
    let mut matchers = Matchers::new(alloc);
    match &run_on(alloc, program, slots, memory, &mut matchers) {
        Ok(ended) => run_text(alloc, program, ended),
        Err(RunError::Fault(RunFault::Pattern)) => String::from_str(alloc, "Pattern"),
        Err(RunError::OutOfMemory) => Err(AllocError),
    }
}

fn outcome_text(alloc: Global, outcome: &Result<Value, CelError>) -> Result<String, AllocError> {
    match outcome {
        Ok(value) => shown(alloc, value),
        Err(error) => String::from_str(alloc, error.name()),
    }
}

fn run_text(alloc: Global, program: &Program, ended: &Run) -> Result<String, AllocError> {
    let text = outcome_text(alloc, &ended.outcome)?;
    let constants = program.image().constants.len();
    format!(in alloc;
        "{text}, charged {}, steps {}, constants {constants}",
        ended.charged, ended.steps
    )
}
