//! Expressions that may be run, from their texts: [`Compiled`] is seen as its text, in its scope.
//!
//! [`compile_text`] reads, types, estimates, compiles and verifies a text, or answers why it is refused; [`compile`] is the step from
//! what `cel_check` answers for an expression to an image. The program that [`Compiled::program`] lends does what the text says;
//! `cel_machine` runs it. [`ask_patterns`] and [`choice_of`] make the choice of texts that are taken as no patterns, before anything is
//! typed; [`gather_texts`] gathers the texts that may be. [`root_type`] is the type of a text's expression, whatever it may charge.
#![tactic(auto)]

mod choice;
mod compiled;
mod compiler;
mod constants;
mod key;
mod refusal;
mod stages;
mod texts;

pub use choice::{ask_patterns, choice_of};
pub use compiled::{Compiled, compile_text};
pub use compiler::compile;
pub use refusal::{CompileError, CompileFault, Refusal};
pub use stages::root_type;
pub use texts::gather_texts;
