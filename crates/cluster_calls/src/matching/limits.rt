//! How long the texts and the lists of a review may be.

use crate::matching::read::review;
use calls_notation::request_in;
use std::alloc::{AllocError, Global};
use vap_match::ReviewError;

/// Whether a review is read whose request has these members too.
fn is_with(alloc: Global, members: &str) -> Result<bool, AllocError> {
    let text = format!(in alloc; "\"resource\":{{}},\"operation\":\"CREATE\",{members}")?;
    match request_in(alloc, review(alloc, text.as_str())?.as_str()) {
        Ok(_) => Ok(true),
        Err(ReviewError::Fault(_)) => Ok(false),
        Err(ReviewError::OutOfMemory) => Err(AllocError),
    }
}

fn is_read(alloc: Global, opening: &str, length: usize, closing: &str) -> Result<bool, AllocError> {
    let mut text = String::from_str(alloc, opening)?;
    for _ in 0..length {
        text.push_str("é")?;
    }
    text.push_str(closing)?;
    is_with(alloc, text.as_str())
}

/// How many characters may be between an opening and a closing: the most of those that are tried.
pub fn longest(alloc: Global, opening: &str, closing: &str) -> Result<String, AllocError> {
    let mut most = 0;
    for length in [7, 8, 253, 254, 1024, 1025] {
        if is_read(alloc, opening, length, closing)? {
            most = length;
        }
    }
    format!(in alloc; "{most}")
}

fn are_read(
    alloc: Global,
    opening: &str,
    count: usize,
    under: &str,
    closing: &str,
) -> Result<bool, AllocError> {
    let mut text = String::from_str(alloc, opening)?;
    for place in 1..count {
        write!(text, "\"{place}\"{under},")?;
    }
    write!(text, "\"0\"{under}{closing}")?;
    is_with(alloc, text.as_str())
}

/// How many texts may be between an opening and a closing, each with this under it.
pub fn most(
    alloc: Global,
    opening: &str,
    under: &str,
    closing: &str,
) -> Result<String, AllocError> {
    let mut most = 0;
    for count in [1, 1023, 1024, 1025] {
        if are_read(alloc, opening, count, under, closing)? {
            most = count;
        }
    }
    format!(in alloc; "{most}")
}
