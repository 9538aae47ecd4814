//! How lines of `tests/vectors/*_calls-*.jsonl` show where the policies of a set are misconfigured.
//!
//! What no line can say is in the tests: that values, patterns, events and verdicts go from thread to thread. They compile only if
//! these may.
#![tactic(auto)]

mod misconfigured;
#[cfg(test)]
mod threads;

pub use misconfigured::reported;
