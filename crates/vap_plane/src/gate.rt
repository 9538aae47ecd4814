//! What hears of calls.

/// Hears of each call before it is judged and after it is recorded, from the worker that does it.
pub trait Gate {
    fn before(&self, call: u64);

    fn after(&self, call: u64);
}

/// Lets all pass.
#[derive(Clone, Copy, Debug)]
pub struct Open;

impl Gate for Open {
    fn before(&self, _call: u64) {}

    fn after(&self, _call: u64) {}
}
