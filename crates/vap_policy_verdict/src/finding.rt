//! What judging finds, in the order in which it is found: policies by name, their bindings by name, params, validations.

use base_containers::Text;
use vap_read::{Reason, ValidationActions};

/// A failure that counts, and what its binding makes of it.
#[derive(Drop)]
pub struct Finding {
    pub policy: Text,
    pub binding: Text,
    pub actions: ValidationActions,
    pub reason: Reason,
    pub message: Text,
    /// The validation that failed, from 0, if it was one.
    pub expression_index: Option<u64>,
}

/// A value that an annotation of a policy has. An empty one counts as none.
#[derive(Drop)]
pub struct Note {
    pub policy: Text,
    pub key: Text,
    pub value: Text,
}
