//! The bounds of an accepted image.

/// What no run passes.
#[derive(Clone, Copy)]
pub struct Bounds {
    /// The charge of the dearest route.
    pub cost: u64,
    /// The instructions of the longest route.
    pub steps: u64,
    /// The most operands at any instruction.
    pub depth: usize,
    /// The most loops open at any instruction.
    pub nesting: usize,
}
