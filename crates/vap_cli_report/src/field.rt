//! The parts of a policy.

use std::fmt;

/// A part of a policy's document. Items are counted from 0.
#[derive(Clone, Copy, Debug, PartialEq, Eq)]
pub enum Field {
    ParamKind,
    Condition(usize),
    Variable(usize),
    Validation(usize),
    Message(usize),
    Annotation(usize),
    /// All expressions together.
    Spec,
}

impl fmt::Display for Field {
    fn fmt<W: fmt::Write>(&self, f: &mut fmt::Formatter<W>) -> fmt::Result {
        match *self {
            Field::ParamKind => write!(f, "spec.paramKind"),
            Field::Condition(at) => write!(f, "spec.matchConditions[{at}].expression"),
            Field::Variable(at) => write!(f, "spec.variables[{at}].expression"),
            Field::Validation(at) => write!(f, "spec.validations[{at}].expression"),
            Field::Message(at) => write!(f, "spec.validations[{at}].messageExpression"),
            Field::Annotation(at) => write!(f, "spec.auditAnnotations[{at}].valueExpression"),
            Field::Spec => write!(f, "spec"),
        }
    }
}
