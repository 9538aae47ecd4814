//! Entries.

use base_containers::Shared;
use vap_read::{Key, Object};

/// An object with the key that it is under, and its outcome.
#[derive(Drop)]
pub struct Entry<T> {
    pub key: Key,
    pub object: Shared<Object>,
    pub outcome: T,
}
