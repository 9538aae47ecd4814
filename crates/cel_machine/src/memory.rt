//! What runs work on.

use crate::frames::Frames;
use crate::stack::Stack;
use std::alloc::Global;

/// What runs work on: an operand stack and the open loops. It may be kept from one run to the next, so that a later run takes memory
/// for them only where it needs more. No answer depends on what is left there.
#[derive(Drop)]
pub struct Memory<'a> {
    pub(crate) stack: Stack<'a>,
    pub(crate) frames: Frames<'a>,
}

impl<'a> Memory<'a> {
    /// One that has nothing yet. This takes no memory.
    pub fn new(alloc: Global) -> Memory<'a> {
        Memory {
            stack: Stack::new(alloc),
            frames: Frames::new(alloc),
        }
    }
}
