//! Lines of a stream: what each is, and those that are read before their turn.
//!
//! A [`LineQueue`] takes one line after the other from a reader, into a [`LineBuffer`], which says what its bytes are: a [`Line`], and
//! if that is a review, the answer to it at a snapshot: it is judged where it is read, while it is open. With several threads
//! ([`LineReaders`]) those lines that are pending as a whole are read and judged side by side, and wait for their turn.
#![tactic(auto)]

mod answer;
mod fault;
mod judging;
mod line;
mod line_queue;
mod queued_line;
mod workspaces;

pub use answer::{ReviewAnswer, answer_line};
pub use fault::LineFault;
pub use judging::ReadLine;
pub use line::Line;
pub use line_queue::{LineQueue, LineReaders, TakenLine};
pub use queued_line::LineBuffer;
