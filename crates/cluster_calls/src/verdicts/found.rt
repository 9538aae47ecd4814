//! What was found, as a row says it: an object of `findings` and `notes`, each a list of objects.
//!
//! A finding has the members `policy`, `binding`, `actions`, `reason`, `message` and `index`, a note `policy`, `key` and `value`.

use base_containers::Text;
use serde_json::Value as Json;
use std::alloc::{AllocError, Global};
use vap_match::{items_in, text_in, text_of};
use vap_policy_verdict::{Finding, Note};
use vap_read::{Reason, ValidationActions};

fn has_word(words: &[Json], wanted: &str) -> bool {
    for word in words {
        if text_of(word) == wanted {
            return true;
        }
    }
    false
}

fn actions_in(json: &Json) -> ValidationActions {
    let words = items_in(json, "actions");
    ValidationActions {
        deny: has_word(words, "Deny"),
        warn: has_word(words, "Warn"),
        audit: has_word(words, "Audit"),
    }
}

fn reason_in(json: &Json) -> Reason {
    let word = text_in(json, "reason");
    if word == "Unauthorized" {
        Reason::Unauthorized
    } else if word == "Forbidden" {
        Reason::Forbidden
    } else if word == "RequestEntityTooLarge" {
        Reason::RequestEntityTooLarge
    } else {
        Reason::Invalid
    }
}

fn index_in(json: &Json) -> Option<u64> {
    match json.get("index") {
        Some(found) => found.as_u64(),
        None => None,
    }
}

fn finding_of(alloc: Global, json: &Json) -> Result<Finding, AllocError> {
    Ok(Finding {
        policy: Text::from_str(alloc, text_in(json, "policy"))?,
        binding: Text::from_str(alloc, text_in(json, "binding"))?,
        actions: actions_in(json),
        reason: reason_in(json),
        message: Text::from_str(alloc, text_in(json, "message"))?,
        expression_index: index_in(json),
    })
}

/// The findings of a row.
pub fn findings_of(alloc: Global, json: &Json) -> Result<Vec<Finding>, AllocError> {
    let mut findings = Vec::new(alloc);
    for item in items_in(json, "findings") {
        findings.push(finding_of(alloc, item)?)?;
    }
    Ok(findings)
}

/// A note with these texts.
pub fn note(alloc: Global, policy: &str, key: &str, value: &str) -> Result<Note, AllocError> {
    Ok(Note {
        policy: Text::from_str(alloc, policy)?,
        key: Text::from_str(alloc, key)?,
        value: Text::from_str(alloc, value)?,
    })
}

fn note_of(alloc: Global, json: &Json) -> Result<Note, AllocError> {
    note(
        alloc,
        text_in(json, "policy"),
        text_in(json, "key"),
        text_in(json, "value"),
    )
}

/// The notes of a row.
pub fn notes_of(alloc: Global, json: &Json) -> Result<Vec<Note>, AllocError> {
    let mut notes = Vec::new(alloc);
    for item in items_in(json, "notes") {
        notes.push(note_of(alloc, item)?)?;
    }
    Ok(notes)
}
