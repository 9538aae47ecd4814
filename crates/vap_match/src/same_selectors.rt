//! Selectors of labels.

use crate::selector::{Operator, Requirement, Selector};
use base_containers::Same;

impl Same for Operator {
    fn same(&self, other: &Operator) -> bool {
        match (self, other) {
            (Operator::In, Operator::In) => true,
            (Operator::NotIn, Operator::NotIn) => true,
            (Operator::Exists, Operator::Exists) => true,
            (Operator::DoesNotExist, Operator::DoesNotExist) => true,
            _ => false,
        }
    }
}

impl Same for Requirement {
    fn same(&self, other: &Requirement) -> bool {
        self.key.same(&other.key)
            && self.operator.same(&other.operator)
            && self.values.same(&other.values)
    }
}

impl Same for Selector {
    fn same(&self, other: &Selector) -> bool {
        self.match_labels.same(&other.match_labels)
            && self.match_expressions.same(&other.match_expressions)
    }
}
