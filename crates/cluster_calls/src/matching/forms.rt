//! Which documents are selectors and rules, and the least faults of the others.

use crate::matching::read::match_refusal;
use calls_notation::{Asked, json, unknown};
use std::alloc::{AllocError, Global};
use vap_match::{Rules, Selector};

/// The answer to a call of forms.
pub fn answer(alloc: Global, asked: &Asked) -> Result<String, AllocError> {
    match asked.call {
        "selector" => selector(alloc, asked.input),
        "rules" => rules(alloc, asked.input),
        _ => unknown(alloc),
    }
}

fn selector_word(alloc: Global, row: &str) -> Result<&'static str, AllocError> {
    match Selector::from_json(alloc, &json(alloc, row)?) {
        Ok(_) => Ok("read"),
        Err(error) => match_refusal(error),
    }
}

/// Whether a document is read as a selector, or its fault.
fn selector(alloc: Global, row: &str) -> Result<String, AllocError> {
    String::from_str(alloc, selector_word(alloc, row)?)
}

fn rules_word(alloc: Global, row: &str) -> Result<&'static str, AllocError> {
    match Rules::from_json(alloc, &json(alloc, row)?) {
        Ok(_) => Ok("read"),
        Err(error) => match_refusal(error),
    }
}

/// Whether a document is read as rules, or its fault.
fn rules(alloc: Global, row: &str) -> Result<String, AllocError> {
    String::from_str(alloc, rules_word(alloc, row)?)
}
