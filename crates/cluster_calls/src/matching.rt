//! Documents, labels, selectors, rules, reviews, policies, bindings, lines as events, and what events leave.

use calls_notation::{Asked, unknown};
use std::alloc::{AllocError, Global};

mod bindings;
mod covered;
mod documents;
mod events;
mod faults;
mod forms;
mod limits;
mod matched;
pub mod objects;
mod policies;
mod read;
mod reviews;
mod samples;
mod selected;

pub use objects::take_line;
pub use read::agreed;

/// The answer to a call of a part of matching.
pub fn answer(alloc: Global, asked: &Asked) -> Result<String, AllocError> {
    match asked.part {
        "bindings" => bindings::answer(alloc, asked),
        "covered" => covered::answer(alloc, asked),
        "documents" => documents::answer(alloc, asked),
        "events" => events::answer(alloc, asked),
        "faults" => faults::answer(alloc, asked),
        "forms" => forms::answer(alloc, asked),
        "matched" => matched::answer(alloc, asked),
        "objects" => objects::answer(alloc, asked),
        "policies" => policies::answer(alloc, asked),
        "reviews" => reviews::answer(alloc, asked),
        "samples" => samples::answer(alloc, asked),
        "selected" => selected::answer(alloc, asked),
        _ => unknown(alloc),
    }
}
