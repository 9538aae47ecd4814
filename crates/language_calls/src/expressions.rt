//! What rests on expressions: trees, types, estimates, images and their bytes, programs, `eval` and `check`.

pub mod bytes;
pub mod commands;
pub mod images;
pub mod made;
pub mod operands;
pub mod overloads;
pub mod runs;
pub mod trees;
