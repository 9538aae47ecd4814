//! Whether the history that workers share is what they answered.

use std::alloc::{AllocError, Global};
use std::mem;
use vap_audit::{Entry, History};
use vap_policy_verdict::Verdict;

/// The calls of a group: the number of the first, the revision at which they are judged, and the verdicts on them.
#[derive(Drop)]
pub(crate) struct GroupCalls<'a> {
    pub(crate) first: u64,
    pub(crate) revision: usize,
    pub(crate) verdicts: &'a [Verdict],
}

/// Whether the entries from this place on are those of the calls of a group: each call once, at a log of its revision, with its verdict.
pub(crate) fn is_recorded(
    alloc: Global,
    history: &History,
    place: usize,
    calls: &GroupCalls<'_>,
) -> Result<bool, AllocError> {
    if history.len().saturating_sub(place) != calls.verdicts.len() {
        return Ok(false);
    }
    let mut noted = none_noted(alloc, calls.verdicts.len())?;
    for number in place..history.len() {
        let entry = history.at(number);
        if !is_answer(entry, calls) || !note(&mut noted, entry, calls.first) {
            return Ok(false);
        }
    }
    Ok(true)
}

fn none_noted(alloc: Global, count: usize) -> Result<Vec<bool>, AllocError> {
    let mut noted = Vec::new(alloc);
    for _number in 0..count {
        noted.push(false)?;
    }
    Ok(noted)
}

/// Whether an entry is at a log of the calls' revision, with the verdict of its call.
fn is_answer(entry: &Entry, calls: &GroupCalls<'_>) -> bool {
    let place = entry.call.saturating_sub(calls.first) as usize;
    match calls.verdicts.get(place) {
        Some(verdict) => {
            entry.log.get().len() == calls.revision && is_alike(verdict, &entry.verdict)
        }
        None => false,
    }
}

/// Whether two verdicts allow the same and have the same numbers.
fn is_alike(one: &Verdict, other: &Verdict) -> bool {
    one.revision == other.revision
        && one.allowed == other.allowed
        && one.code == other.code
        && one.charged == other.charged
}

/// Notes the call of an entry. Whether it is one of a group that begins with call `first`, and was not noted before.
fn note(noted: &mut Vec<bool>, entry: &Entry, first: u64) -> bool {
    if entry.call < first {
        return false;
    }
    match noted.get_mut((entry.call - first) as usize) {
        Some(is_noted) => !mem::replace(is_noted, true),
        None => false,
    }
}
