//! Flat code for CEL: the instructions of the machine, the images that hold these, and images as bytes, in one spelling each.
//!
//! What a run of an [`Image`] does is defined here. [`encode`] gives the bytes of an image that [`has_spelling`], and [`decode`] the image
//! of bytes, whoever wrote them; [`one_spelling`] is the law that no image has two, and that none begins another.
#![tactic(auto)]

mod code;
mod constants;
mod fault;
mod fields;
mod image;
mod image_bytes;
mod instr;
mod loop_numbers;
mod spellable;
mod spelt;
mod types;
mod writing;

pub use fault::{ImageError, ImageFault};
pub use image::{Image, Target};
pub use image_bytes::{decode, encode, has_spelling, one_spelling};
pub use instr::Instr;
pub use loop_numbers::{loop_kind, loop_number};
