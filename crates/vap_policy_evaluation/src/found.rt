//! What is found.

use base_containers::Text;
use vap_read::Reason;

/// A failure of a policy at one param.
#[derive(Drop)]
pub struct Failure {
    /// Which validation it is of, counted from 0; none if it is of a condition or an annotation.
    pub expression_index: Option<u64>,
    pub message: Text,
    pub reason: Reason,
}

/// What an annotation gave: a text that is not empty.
#[derive(Drop)]
pub struct Note {
    pub key: Text,
    pub value: Text,
}
