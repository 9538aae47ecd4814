//! Workers that judge by what is published and record in one history, in threads.
//!
//! A [`SharedHistory`] is a history under its lock, with a [`Pass`] for each of its workers. A [`Worker`] has a reader of its own:
//! [`Worker::judge`] enters at what is published and judges there, [`Worker::record`] puts what was judged last in the history that the
//! lock lends, and [`Worker::admit`] does both. [`Worker::learn`] tells a worker of a log, and the worker sees this log from then on.
//! [`run_workers`] has requests judged by several workers side by side, each in a thread, and answers the verdicts in order. [`close`]
//! compares each entry with the final log when all is done, and counts the entries. In `vap_plane_steps` the same actions are steps.
#![tactic(auto)]

mod closing;
mod collected;
mod gate;
mod jobs;
mod kept;
mod messages;
mod post;
mod running;
mod worker;

pub use closing::{CloseError, Plan, Report, SharedHistory, close, settle};
pub use gate::{Gate, Open};
pub use jobs::Batch;
pub use kept::Kept;
pub use running::{run_workers, told_to};
pub use worker::{Judged, Pass, Worker};
