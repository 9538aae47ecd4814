//! Which requests rules cover.

use crate::matching::read::{match_refusal, review, review_refusal, sign};
use calls_notation::{Asked, json, request_in, unknown};
use std::alloc::{AllocError, Global};
use vap_match::{Request, Rules, covers};

/// The answer to a call of rules that cover requests.
pub fn answer(alloc: Global, asked: &Asked) -> Result<String, AllocError> {
    match asked.call {
        "signs" => covered(alloc, asked.input),
        _ => unknown(alloc),
    }
}

/// The sign of rules at a request, or the rules' fault.
fn cover_sign(alloc: Global, rules: &str, request: &Request) -> Result<&'static str, AllocError> {
    match Rules::from_json(alloc, &json(alloc, rules)?) {
        Ok(rules) => Ok(sign(covers(&rules, request))),
        Err(error) => match_refusal(error),
    }
}

fn cover_signs(alloc: Global, request: &Request) -> Result<String, AllocError> {
    let mut out = String::new(alloc);
    for rules in &RULES {
        out.push_str(cover_sign(alloc, rules, request)?)?;
    }
    Ok(out)
}

/// Which rules cover a request of these members.
fn covered(alloc: Global, row: &str) -> Result<String, AllocError> {
    match request_in(alloc, review(alloc, row)?.as_str()) {
        Ok(request) => cover_signs(alloc, &request),
        Err(error) => review_refusal(alloc, error),
    }
}

/// Rules; each request below has a sign for each of them.
const RULES: [&str; 20] = [
    r#"{"resourceRules":[{"operations":["*"],"apiGroups":["*"],"apiVersions":["*"],
        "resources":["*/*"]}]}"#,
    r#"{"resourceRules":[{"operations":["*"],"apiGroups":["*"],"apiVersions":["*"],"resources":["*"]}]}"#,
    r#"{"resourceRules":[{"operations":["CREATE"],"apiGroups":[""],"apiVersions":["v1"],
        "resources":["pods"]}]}"#,
    r#"{"resourceRules":[{"operations":["*"],"apiGroups":[""],"apiVersions":["*"],
        "resources":["pods/*"]}]}"#,
    r#"{"resourceRules":[{"operations":["UPDATE"],"apiGroups":["*"],"apiVersions":["*"],
        "resources":["*/scale"]}]}"#,
    r#"{"resourceRules":[{"operations":["*"],"apiGroups":[""],"apiVersions":["v1"],
        "resources":["pods/log","services"]}]}"#,
    r#"{"resourceRules":[{"operations":["CREATE","UPDATE"],"apiGroups":["apps"],"apiVersions":["v1",
        "v1beta1"],"resources":["deployments","deployments/scale"]}]}"#,
    r#"{"resourceRules":[{"operations":["*"],"apiGroups":["*"],"apiVersions":["*"],"resources":["*/*"],
        "scope":"Cluster"}]}"#,
    r#"{"resourceRules":[{"operations":["*"],"apiGroups":["*"],"apiVersions":["*"],"resources":["*/*"],
        "scope":"Namespaced"}]}"#,
    r#"{"resourceRules":[{"operations":["UPDATE","DELETE"],"apiGroups":["*"],"apiVersions":["v1"],
        "resources":["*/*"],"scope":"*"}]}"#,
    r#"{"resourceRules":[{"operations":["*"],"apiGroups":["*"],"apiVersions":["*"],"resources":["*/*"],
        "resourceNames":["a","b"]}]}"#,
    r#"{"resourceRules":[{"operations":["CONNECT"],"apiGroups":[""],"apiVersions":["v1"],
        "resources":["pods/exec"],"resourceNames":[]}]}"#,
    r#"{"resourceRules":[{"operations":["*"],"apiGroups":["*"],"apiVersions":["*"],
        "resources":["*/*"]}],"excludeResourceRules":[{"operations":["*"],"apiGroups":[""],
        "apiVersions":["*"],"resources":["pods/*"]}]}"#,
    r#"{"resourceRules":[{"operations":["*"],"apiGroups":[""],"apiVersions":["*"],"resources":["*"]}],
        "excludeResourceRules":[{"operations":["DELETE"],"apiGroups":[""],"apiVersions":["v1"],
        "resources":["pods"],"scope":"Namespaced","resourceNames":["a"]}]}"#,
    r#"{"excludeResourceRules":[{"operations":["*"],"apiGroups":["apps"],"apiVersions":["*"],
        "resources":["*"]}]}"#,
    r#"{}"#,
    r#"{"resourceRules":[{"operations":["CREATE"],"apiGroups":[""],"apiVersions":["v1"],
        "resources":["pods"]},{"operations":["DELETE"],"apiGroups":["apps"],"apiVersions":["v1"],
        "resources":["deployments"]}]}"#,
    r#"{"resourceRules":[{"operations":["*"],"apiGroups":[""],"apiVersions":["v1"],
        "resources":["namespaces"],"scope":"Namespaced"}]}"#,
    r#"{"resourceRules":[{"operations":["*"],"apiGroups":["ex.io"],"apiVersions":["v1","v2"],
        "resources":["*"],"scope":"Namespaced","resourceNames":["x"]}]}"#,
    r#"{"resourceRules":[{"operations":["*"],"apiGroups":["*"],"apiVersions":["*"],
        "resources":["*/*"]}],"excludeResourceRules":[{"operations":["*"],"apiGroups":["none"],
        "apiVersions":["*"],"resources":["*/*"]},{"operations":["*"],"apiGroups":["*"],
        "apiVersions":["*"],"resources":["*/*"]}]}"#,
];
