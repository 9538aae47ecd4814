//! The replay of a stream: watch events and admission reviews in, an answer for each review out.
//!
//! [`replay`] reads lines, by several threads side by side. An event is staged and published. A review is judged at the log of the
//! events before it, where it is read and while it is open; a group of up to [`LARGEST_GROUP`] in which some review was not judged
//! there is judged by the workers. Reviews are recorded, and answered in order, one line each; with the audit, a line for each entry of
//! the history follows at the end. The first line that is refused ends the run, and is reported with its number and its `LineFault`.
//! [`replay_with`] reports how far it is after each line, and at the end what was decided, to a [`Progress`].
#![tactic(auto)]

mod audit_line;
mod crew;
mod fault;
mod progress;
mod recorded;
mod session;
mod stream;

pub use fault::ReplayError;
pub use progress::{Progress, Silent};
pub use session::LARGEST_GROUP;
pub use stream::{MOST_WORKERS, replay, replay_with};
