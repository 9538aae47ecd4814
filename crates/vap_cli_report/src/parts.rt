//! The expressions of a policy.

use crate::field::Field;
use base_containers::Text;
use cel_value::CelType;
use std::alloc::{AllocError, Global};
use vap_read::{AuditAnnotation, NamedExpression, PolicySpec, Validation};

/// An expression of a policy, and the variable that holds its value, if one does.
#[derive(Clone, Copy)]
pub struct Part<'a> {
    pub field: Field,
    pub text: &'a Text,
    pub variable: Option<&'a Text>,
}

impl Part<'_> {
    /// Whether the expression may be of this type.
    pub fn takes(&self, cel_type: &CelType) -> bool {
        match self.field {
            Field::Condition(_) | Field::Validation(_) => is_truth(cel_type),
            Field::Message(_) => is_text(cel_type),
            Field::Annotation(_) => is_note(cel_type),
            Field::Variable(_) | Field::ParamKind | Field::Spec => true,
        }
    }
}

fn is_truth(cel_type: &CelType) -> bool {
    matches!(cel_type, CelType::Bool)
}

fn is_text(cel_type: &CelType) -> bool {
    matches!(cel_type, CelType::Text { .. })
}

fn is_note(cel_type: &CelType) -> bool {
    match cel_type {
        CelType::Null | CelType::Text { .. } => true,
        CelType::Nullable(inner) => is_text(inner.get()),
        _ => false,
    }
}

fn put_conditions<'a>(
    conditions: &'a [NamedExpression],
    parts: &mut Vec<Part<'a>>,
) -> Result<(), AllocError> {
    for (at, condition) in conditions.iter().enumerate() {
        parts.push(Part {
            field: Field::Condition(at),
            text: &condition.expression,
            variable: None,
        })?;
    }
    Ok(())
}

fn put_variables<'a>(
    variables: &'a [NamedExpression],
    parts: &mut Vec<Part<'a>>,
) -> Result<(), AllocError> {
    for (at, variable) in variables.iter().enumerate() {
        parts.push(Part {
            field: Field::Variable(at),
            text: &variable.expression,
            variable: Some(&variable.name),
        })?;
    }
    Ok(())
}

fn put_validations<'a>(
    validations: &'a [Validation],
    parts: &mut Vec<Part<'a>>,
) -> Result<(), AllocError> {
    for (at, validation) in validations.iter().enumerate() {
        parts.push(Part {
            field: Field::Validation(at),
            text: &validation.expression,
            variable: None,
        })?;
        if let Some(message) = &validation.message_expression {
            parts.push(Part {
                field: Field::Message(at),
                text: message,
                variable: None,
            })?;
        }
    }
    Ok(())
}

fn put_annotations<'a>(
    annotations: &'a [AuditAnnotation],
    parts: &mut Vec<Part<'a>>,
) -> Result<(), AllocError> {
    for (at, annotation) in annotations.iter().enumerate() {
        parts.push(Part {
            field: Field::Annotation(at),
            text: &annotation.value_expression,
            variable: None,
        })?;
    }
    Ok(())
}

/// The expressions of a policy, in the order in which they are compiled.
pub fn parts_of(alloc: Global, policy: &PolicySpec) -> Result<Vec<Part<'_>>, AllocError> {
    let mut parts = Vec::new(alloc);
    put_conditions(policy.match_conditions.as_slice(), &mut parts)?;
    put_variables(policy.variables.as_slice(), &mut parts)?;
    put_validations(policy.validations.as_slice(), &mut parts)?;
    put_annotations(policy.audit_annotations.as_slice(), &mut parts)?;
    Ok(parts)
}
