//! What judging keeps.

use cel_machine::Matchers;
use json::Scratch;
use std::alloc::Global;

/// What is kept from one judgement to the next, on which no verdict depends: the patterns that are built, and the room in which a
/// review is opened.
#[derive(Drop)]
pub struct Workspace {
    pub(crate) matchers: Matchers,
    pub(crate) scratch: Scratch,
}

impl Workspace {
    pub fn new(alloc: Global) -> Workspace {
        Workspace {
            matchers: Matchers::new(alloc),
            scratch: Scratch::new(alloc),
        }
    }
}
