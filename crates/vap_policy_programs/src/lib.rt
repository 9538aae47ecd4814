//! A policy's expressions at one kind of objects, ready to be run, and what their names hold at a request.
//!
//! [`pair`] compiles what a policy says if its names have the types of a kind: match conditions, variables, validations with
//! their messages, and annotations. If one of them may not be run, or all together may charge more than 100,000,000, it
//! reports the first fault. An expression is seen as its text at its place, so that a pair is what the policy says.
//! [`pairs_are_ready`] is the law by which each expression of a pair may be run with what its names hold.
//!
//! [`request_type`] is the type of `request`, and [`request_value`] what it holds of a review, which is of that type. [`FixedTypes`]
//! keeps that type and the type of Namespaces, so that both are made once. [`object_at`] makes what `object` holds, or reports the
//! fault of the object, and [`held_at`] what all names except `params` hold; an old object that does not fit is an error, which its
//! name then holds.
#![tactic(auto)]

mod annotations;
mod conditions;
mod fixed_types;
mod held;
mod names;
mod pair_fault;
mod pairs;
mod prices;
mod programs;
mod types;
mod validations;
mod values;
mod variables;
mod wanted;

pub use cel_expression::{CompileError, CompileFault, Compiled, Refusal};
pub use fixed_types::FixedTypes;
pub use held::{Held, held_at, object_at};
pub use names::{KindTypes, ParamsType};
pub use pair_fault::PairFault;
pub use pairs::{pair, pairs_are_ready};
pub use programs::{Annotation, Check, Condition, Pair, Programs};
pub use types::request_type;
pub use values::request_value;
