//! Kinds whose schema is refused, so that they are as kinds that are not known.

use crate::scope::object_type_of;
use base_containers::{Items, Text};
use std::alloc::{AllocError, Global};
use vap_read_objects::Kind;

/// A kind whose schema is refused.
#[derive(Drop)]
pub struct UnreadKind {
    pub group: Text,
    pub version: Text,
    pub kind: Text,
}

/// The kinds whose schema is refused.
pub fn unread_kinds_in(alloc: Global, kinds: &[Kind]) -> Result<Items<UnreadKind>, AllocError> {
    let mut unread = Items::new(alloc);
    for known in kinds {
        if object_type_of(known).is_none() {
            let group = known.group.copy()?;
            let version = known.version.copy()?;
            let kind = known.kind.copy()?;
            unread.push(UnreadKind {
                group,
                version,
                kind,
            })?;
        }
    }
    Ok(unread)
}
