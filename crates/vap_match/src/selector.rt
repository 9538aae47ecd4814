//! Selectors of labels.

use base_containers::{Items, Keyed, Text};

/// How a requirement tests a label.
#[derive(Clone, Copy)]
pub enum Operator {
    In,
    NotIn,
    Exists,
    DoesNotExist,
}

/// What is required of the label under a key.
#[derive(Drop)]
pub struct Requirement {
    pub key: Text,
    pub operator: Operator,
    pub values: Items<Text>,
}

/// A selector of labels: those that have each of some labels and meet each of some requirements.
#[derive(Drop)]
pub struct Selector {
    pub match_labels: Items<Keyed<Text>>,
    pub match_expressions: Items<Requirement>,
}
