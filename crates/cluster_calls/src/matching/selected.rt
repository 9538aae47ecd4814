//! Which labels selectors select.

use crate::matching::read::{match_refusal, sign};
use base_containers::Part;
use calls_notation::{Asked, json, unknown};
use std::alloc::{AllocError, Global};
use vap_match::{Labels, Selector, labels_of, selects};

/// The answer to a call of selectors that select labels.
pub fn answer(alloc: Global, asked: &Asked) -> Result<String, AllocError> {
    match asked.call {
        "signs" => selected(alloc, asked.input),
        _ => unknown(alloc),
    }
}

/// The sign of a selector at labels, or the selector's fault.
fn select_sign(
    alloc: Global,
    selector: &str,
    labels: &Labels<'_, '_>,
) -> Result<&'static str, AllocError> {
    match Selector::from_json(alloc, &json(alloc, selector)?) {
        Ok(selector) => Ok(sign(selects(&selector, labels))),
        Err(error) => match_refusal(error),
    }
}

fn select_signs(alloc: Global, labels: &Labels<'_, '_>) -> Result<String, AllocError> {
    let mut out = String::new(alloc);
    for selector in &SELECTORS {
        out.push_str(select_sign(alloc, selector, labels)?)?;
    }
    Ok(out)
}

/// Which selectors select the labels of an object.
fn selected(alloc: Global, row: &str) -> Result<String, AllocError> {
    select_signs(alloc, &labels_of(&Part::of_tree(&json(alloc, row)?)))
}

/// Selectors; each object below has a sign for each of them.
const SELECTORS: [&str; 12] = [
    r#"{}"#,
    r#"{"matchLabels":{}}"#,
    r#"{"matchLabels":{"a":"b"}}"#,
    r#"{"matchLabels":{"a":"b","c":""}}"#,
    r#"{"matchExpressions":[{"key":"a","operator":"In","values":["b","c"]}]}"#,
    r#"{"matchExpressions":[{"key":"a","operator":"NotIn","values":["b"]}]}"#,
    r#"{"matchExpressions":[{"key":"a","operator":"Exists"}]}"#,
    r#"{"matchExpressions":[{"key":"a","operator":"DoesNotExist","values":[]}]}"#,
    r#"{"matchLabels":{"a":"b"},"matchExpressions":[{"key":"c","operator":"Exists"},{"key":"d",
        "operator":"NotIn","values":["e"]}]}"#,
    r#"{"matchExpressions":[{"key":"c","operator":"In","values":[""]}]}"#,
    r#"{"matchExpressions":[{"key":"","operator":"DoesNotExist"}]}"#,
    r#"{"matchLabels":{"A":"b"}}"#,
];
