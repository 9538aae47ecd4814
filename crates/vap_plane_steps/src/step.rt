//! Steps.

use vap_match::Request;
use vap_read::Event;

/// One atomic action of one actor. Workers have numbers.
#[derive(Drop)]
pub enum Step {
    /// The event is staged after all others, if the limits hold after it.
    Stage(Event),
    /// All that is staged is published.
    Publish,
    /// The worker, if it holds nothing, holds the request at what is published.
    Enter(u8, Request),
    /// What the worker holds is judged, if it is not judged yet.
    Judge(u8),
    /// The verdict that the worker holds is recorded, if there is room, and the worker holds nothing.
    Record(u8),
    /// The worker holds nothing.
    GiveUp(u8),
}
