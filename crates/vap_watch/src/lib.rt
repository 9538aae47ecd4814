//! Logs of events, and their publication with the sets that are built of them.
//!
//! A [`Desk`] stages events, each after the others, and publishes all that is staged at once: [`Desk::snapshot`] lends the
//! published [`Snapshot`], a [`Log`] with the set that is built of exactly this log, which its type keeps. The revision of a
//! snapshot, [`revision_of`], is the length of its log. A log keeps with the last event of each publication the choice of
//! patterns that the set was built by.
//!
//! A [`Writer`] is a desk that shows what is published to [`Reader`]s, which may be in other threads: [`Reader::enter`] answers the
//! published snapshot and waits for nobody; a publication waits only for readers that are in the middle of this one step. What a
//! reader sees begins with all that it had seen, and with all that it was told of: a [`Told`] of [`Writer::tell`] is taken in by
//! [`Reader::learn`].
//!
//! Readers and the writer use `left_right` under a rule (`rule.rt`): what is published follows all that each place has seen. Which log
//! is at which number is kept on a board (`board.rt`), whose notes say which of two logs is the later by comparing two numbers. One
//! writer puts a log on the board before it is published, and then says that it was published, or that it was not. The lists are in
//! the proofs alone: the board itself is one word in memory.
#![tactic(auto)]

mod board;
mod board_rule;
mod desk;
mod entrance;
mod entry;
mod fault;
mod listed;
mod log;
mod note;
mod pool;
mod posted;
mod publisher;
mod reader;
mod rule;
mod snapshot;
mod told;
mod writer;

pub use desk::{Desk, MOST_EVENTS};
pub use fault::{PublishError, PublishFault, ReaderError, ReaderFault, StageFault};
pub use log::{Log, Logged};
pub use reader::{Reader, ReaderSource};
pub use snapshot::{Snapshot, revision_of};
pub use told::Told;
pub use writer::{Writer, open};
