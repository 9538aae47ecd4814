//! Objects.

use crate::binding::Binding;
use crate::document::Document;
use crate::key::Key;
use crate::policy::Policy;

/// What an object is when requests are judged: a policy, a binding, or none of them.
#[derive(Drop)]
pub enum Content {
    Policy(Policy),
    Binding(Binding),
    Other,
}

/// An object with its key, and what it was read as.
pub struct Object {
    pub key: Key,
    pub content: Content,
    pub document: Document,
}

impl Drop for Object {
    fn drop(self) {
        let Object {
            key: _key,
            content: _content,
            document: _document,
        } = self;
    }
}
