//! Which requests rules match: those that they cover, whose namespace and whose object they select.

use crate::matching::read::{match_refusal, review, review_refusal, sign};
use base_containers::Part;
use calls_notation::{Asked, json, request_in, unknown};
use json::Scratch;
use serde_json::Value as Json;
use std::alloc::{AllocError, Global};
use vap_match::{Labels, OpenRequest, Request, Rules, labels_of, matches, text_of};

/// The answer to a call of rules that match requests.
pub fn answer(alloc: Global, asked: &Asked) -> Result<String, AllocError> {
    match asked.call {
        "signs" => matched_each(alloc, asked.with, asked.input),
        _ => unknown(alloc),
    }
}

/// The sign of rules at a request, or the rules' fault.
fn match_sign(
    alloc: Global,
    rules: &str,
    request: &OpenRequest<'_, '_, '_>,
    held: &Labels<'_, '_>,
) -> Result<&'static str, AllocError> {
    match Rules::from_json(alloc, &json(alloc, rules)?) {
        Ok(rules) => Ok(sign(matches(&rules, request, held))),
        Err(error) => match_refusal(error),
    }
}

fn match_signs(
    alloc: Global,
    request: &OpenRequest<'_, '_, '_>,
    held: &Labels<'_, '_>,
) -> Result<String, AllocError> {
    let mut out = String::new(alloc);
    for rules in &CHOOSING {
        out.push_str(match_sign(alloc, rules, request, held)?)?;
    }
    Ok(out)
}

fn match_opened(
    alloc: Global,
    request: &Request,
    held: &Labels<'_, '_>,
) -> Result<String, AllocError> {
    let mut scratch = Scratch::new(alloc);
    let tape = request.admission().review.tape(alloc, &mut scratch)?;
    match_signs(
        alloc,
        &OpenRequest::new(request, Part::new(tape.root())),
        held,
    )
}

fn matched_in(alloc: Global, namespace: &Json, row: &str) -> Result<String, AllocError> {
    match request_in(alloc, review(alloc, row)?.as_str()) {
        Ok(request) => match_opened(alloc, &request, &labels_of(&Part::of_tree(namespace))),
        Err(error) => review_refusal(alloc, error),
    }
}

/// Which rules match a request of these members, in a namespace with the labels of this object.
fn matched(alloc: Global, namespace: &str, row: &str) -> Result<String, AllocError> {
    matched_in(alloc, &json(alloc, namespace)?, row)
}

/// The same in a namespace for each of these objects.
fn matched_each(alloc: Global, namespaces: &[Json], row: &str) -> Result<String, AllocError> {
    let mut out = String::new(alloc);
    for namespace in namespaces {
        write!(
            out,
            "{};",
            matched(alloc, text_of(namespace), row)?.as_str()
        )?;
    }
    Ok(out)
}

/// Rules with selectors; each request below has a sign for each of them.
const CHOOSING: [&str; 7] = [
    r#"{"namespaceSelector":{"matchLabels":{"a":"b"}}}"#,
    r#"{"namespaceSelector":{}}"#,
    r#"{"namespaceSelector":{"matchExpressions":[{"key":"a","operator":"DoesNotExist"}]}}"#,
    r#"{"objectSelector":{}}"#,
    r#"{"objectSelector":{"matchLabels":{"a":"b"}}}"#,
    r#"{"objectSelector":{"matchExpressions":[{"key":"a","operator":"NotIn","values":["b"]}]}}"#,
    r#"{"resourceRules":[{"operations":["CREATE"],"apiGroups":["*"],"apiVersions":["*"],
        "resources":["*/*"]}],"namespaceSelector":{"matchLabels":{"a":"b"}},
        "objectSelector":{"matchLabels":{"a":"b"}}}"#,
];
