//! How far a replay is.

use vap_audit::History;

/// Hears how far a replay is, after each line, and what was decided, at the end.
pub trait Progress {
    fn reached(&mut self, lines: u64, reviews: usize, revision: usize);

    /// The replay has ended, after its last line or before. What was decided is handed over.
    fn replayed(&mut self, history: History);
}

/// Reports to nobody.
#[derive(Clone, Copy, Debug)]
pub struct Silent;

impl Progress for Silent {
    fn reached(&mut self, _lines: u64, _reviews: usize, _revision: usize) {}

    fn replayed(&mut self, _history: History) {}
}
