//! The machine, and runs of compiled expressions.
//!
//! [`run`] runs a program that `cel_verify` accepted, if its slots hold what [`Slots`] has: it answers the
//! definition's outcome, with what the run charges and how many steps it takes; [`run_on`] does so on [`Memory`] that is kept
//! from one run to the next. It is given up if memory does not suffice
//! or a pattern is not built, and refuses nothing else. [`slots_fit`] is the test of what slots may hold. What slots and
//! constants hold is lent and not copied, and so is what [`field`] takes out of it and the item of a loop over it; what a
//! list or a map literal takes in, or a loop into its list, is copied if it is lent. [`Matchers`] keeps the patterns
//! that a run built for later ones.
//!
//! [`evaluation::run`] runs a compiled expression, and answers what the definitions of the language say of its text.
#![tactic(auto)]

mod arithmetic;
mod comparison;
mod ended;
pub mod evaluation;
mod fault;
mod frame;
mod frames;
mod index;
mod lists;
mod loops;
mod machine;
mod maps;
mod memory;
mod operand;
mod parts;
mod position;
mod range;
mod search;
mod slots;
mod stack;
mod step;
mod turns;
mod with_text;

pub use cel_operators::Matchers;
pub use ended::Run;
pub use fault::{RunError, RunFault};
pub use machine::{run, run_on};
pub use memory::Memory;
pub use operand::Operand;
pub use parts::field;
pub use slots::{Slots, slots_fit};
