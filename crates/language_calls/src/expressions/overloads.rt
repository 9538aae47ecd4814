//! The types that operators take, and the types of their answers.

use calls_notation::{Asked, json, shown_type, typed, types_of, unknown, unreadable};
use cel_check::{Operator, TypeRule, Untyped, is_natural, is_ordered, is_truth, is_whole};
use cel_value::CelType;
use std::alloc::{AllocError, Global};
use vap_match::items_of;

/// The answer to a call of overloads.
pub fn answer(alloc: Global, asked: &Asked) -> Result<String, AllocError> {
    match asked.call {
        "roles" => roles(alloc, asked.input),
        "answered" => answered(alloc, asked.number(0), asked.input),
        _ => unknown(alloc),
    }
}

fn broken(alloc: Global, rule: TypeRule) -> Result<String, AllocError> {
    format!(in alloc; "{rule:?}")
}

fn at_one(alloc: Global, operator: Operator, operand: &CelType) -> Result<String, AllocError> {
    match operator.type_of_one(operand) {
        Ok(answer) => shown_type(alloc, &answer),
        Err(rule) => broken(alloc, rule),
    }
}

fn at_two(
    alloc: Global,
    operator: Operator,
    left: &CelType,
    right: &CelType,
) -> Result<String, AllocError> {
    match operator.type_of_two(alloc, left, right) {
        Ok(answer) => shown_type(alloc, &answer),
        Err(Untyped::Fault(rule)) => broken(alloc, rule),
        Err(Untyped::OutOfMemory) => Err(AllocError),
    }
}

fn at(alloc: Global, operator: Operator, operands: &[CelType]) -> Result<String, AllocError> {
    match operands {
        [operand] => at_one(alloc, operator, operand),
        [left, right] => at_two(alloc, operator, left, right),
        _ => unreadable(alloc),
    }
}

/// The type of what the operator with a number answers at operands of types, or the rule that they break.
fn answered(alloc: Global, number: u64, row: &str) -> Result<String, AllocError> {
    match Operator::from_code(number as usize) {
        Some(operator) => at_types(alloc, operator, row),
        None => unreadable(alloc),
    }
}

fn at_types(alloc: Global, operator: Operator, row: &str) -> Result<String, AllocError> {
    let row = json(alloc, row)?;
    let operands = types_of(alloc, items_of(&row))?;
    at(alloc, operator, operands.as_slice())
}

/// Whether a type may be used where a truth value, an integer, an unsigned one, or a value with an order is asked for.
fn roles(alloc: Global, row: &str) -> Result<String, AllocError> {
    roles_of(alloc, typed(alloc, row)?)
}

fn roles_of(alloc: Global, cel_type: CelType) -> Result<String, AllocError> {
    format!(in alloc;
        "{} {} {} {}",
        is_truth(&cel_type),
        is_whole(&cel_type),
        is_natural(&cel_type),
        is_ordered(&cel_type)
    )
}
