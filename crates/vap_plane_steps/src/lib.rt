//! What workers do as steps, in any order, with no thread in it and nothing to wait for.
//!
//! A [`Step`] is one atomic action of one actor: an event is staged, all that is staged is published, a worker enters with a request,
//! judges it, records the verdict or gives the request up. [`play`] makes, of a list of steps in any order, the [`World`] that
//! the definition gives: a step that cannot be taken changes nothing. Its history is right in what is published, and the revisions
//! that a worker enters at never go back. In `vap_plane` the actions are the same, in threads.
#![tactic(auto)]

mod held;
mod step;
mod world;

pub use step::Step;
pub use world::{World, play};
