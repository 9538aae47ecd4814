//! How values are cut, and that what is joined is not.

use crate::verdicts::found::note;
use std::alloc::{AllocError, Global};
use vap_policy_verdict::{Note, Verdict, cut, verdict_of};

/// What is left of a text within so many bytes.
pub fn within(alloc: Global, text: &str, most: usize) -> Result<String, AllocError> {
    String::from_str(alloc, cut(text, most))
}

/// A note of a text so many times, and then a letter.
fn long_note(alloc: Global, unit: &str, times: usize, letter: &str) -> Result<Note, AllocError> {
    let mut value = unit.repeat(alloc, times)?;
    value.push_str(letter)?;
    note(alloc, "p", "k", value.as_str())
}

fn length_of(verdict: &Verdict) -> usize {
    match verdict.annotations.get().get("p/k") {
        Some(text) => text.as_str().len(),
        None => 0,
    }
}

fn length_with(alloc: Global, notes: Vec<Note>) -> Result<usize, AllocError> {
    let none = Vec::new(alloc);
    let verdict = verdict_of(alloc, none.as_slice(), notes.as_slice(), 0, 0)?;
    Ok(length_of(&verdict))
}

/// How many bytes an annotation has with two values that differ in their last letter alone.
pub fn kept(alloc: Global, unit: &str, row: &str) -> Result<String, AllocError> {
    let times = row.parse::<usize>().unwrap_or(0);
    let mut notes = Vec::new(alloc);
    notes.push(long_note(alloc, unit, times, "b")?)?;
    notes.push(long_note(alloc, unit, times, "c")?)?;
    format!(in alloc; "{}", length_with(alloc, notes)?)
}
