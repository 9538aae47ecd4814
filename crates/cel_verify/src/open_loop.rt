use crate::type_stack::TypeStack;
use base_containers::Shared;
use cel_value::{CelType, Loop};

/// A loop that is open at an instruction.
#[derive(Drop)]
pub struct Open {
    /// The number of its LOOP.
    pub start: usize,
    /// Where it leads.
    pub exit: usize,
    pub mode: Loop,
    /// The type of its items.
    pub item: Shared<CelType>,
    /// The most items.
    pub max: u32,
    /// The types below its frame, down to the frame of the next loop outside.
    pub below: TypeStack,
    /// The types where it leads.
    pub after: TypeStack,
}
