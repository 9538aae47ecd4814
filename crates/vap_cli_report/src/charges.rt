//! What a policy may charge at a kind.

use crate::field::Field;
use base_containers::Items;
use cel_expression::Compiled;
use std::alloc::{AllocError, Global};
use vap_policy_programs::{Annotation, Check, Condition, Programs};

/// The most that an expression of a policy may charge.
#[derive(Clone, Copy, Debug, PartialEq, Eq)]
pub struct Estimate {
    pub field: Field,
    pub most: u64,
}

/// The most that each expression of a policy may charge, and all together.
#[derive(Drop)]
pub struct Charges {
    pub estimates: Items<Estimate>,
    pub sum: u64,
}

fn put(
    field: Field,
    compiled: &Compiled,
    estimates: &mut Items<Estimate>,
) -> Result<(), AllocError> {
    estimates.push(Estimate {
        field,
        most: compiled.estimate(),
    })
}

fn put_conditions(
    conditions: &[Condition],
    estimates: &mut Items<Estimate>,
) -> Result<(), AllocError> {
    for (at, condition) in conditions.iter().enumerate() {
        put(Field::Condition(at), &condition.expression, estimates)?;
    }
    Ok(())
}

fn put_variables(
    variables: &[Compiled],
    estimates: &mut Items<Estimate>,
) -> Result<(), AllocError> {
    for (at, variable) in variables.iter().enumerate() {
        put(Field::Variable(at), variable, estimates)?;
    }
    Ok(())
}

fn put_validations(
    validations: &[Check],
    estimates: &mut Items<Estimate>,
) -> Result<(), AllocError> {
    for (at, validation) in validations.iter().enumerate() {
        put(Field::Validation(at), &validation.expression, estimates)?;
        if let Some(message) = &validation.message_expression {
            put(Field::Message(at), message, estimates)?;
        }
    }
    Ok(())
}

fn put_annotations(
    annotations: &[Annotation],
    estimates: &mut Items<Estimate>,
) -> Result<(), AllocError> {
    for (at, annotation) in annotations.iter().enumerate() {
        put(Field::Annotation(at), &annotation.value, estimates)?;
    }
    Ok(())
}

/// What the expressions of a policy may charge, in the order in which they are compiled.
pub fn charges_of(alloc: Global, programs: &Programs) -> Result<Charges, AllocError> {
    let mut estimates = Items::new(alloc);
    put_conditions(programs.conditions.as_slice(), &mut estimates)?;
    put_variables(programs.variables.as_slice(), &mut estimates)?;
    put_validations(programs.validations.as_slice(), &mut estimates)?;
    put_annotations(programs.annotations.as_slice(), &mut estimates)?;
    Ok(Charges {
        estimates,
        sum: programs.price,
    })
}
