//! Which members a policy must have, and of which form each is.

ghost use Rattle.std.specs.Prelude.{◌≡◌, codes};
ghost use Rattle.serde_json.specs.Find.{get};
ghost use Rattle.serde_json.specs.View.{view, items_view};
ghost use Rattle.vap_match.specs.Forms.{there_and, absent_or, all_items, is_list_of};
ghost use Rattle.vap_read.specs.PolicyForm.{failure_word, reason_word, is_failure_policy, is_reason, has_both};
ghost use Rattle.vap_read.specs.PolicyForm.{is_validation, has_rule, has_aim, has_premises, has_decisions, is_formed};

use crate::policy::{FailurePolicy, Reason};
use serde_json::Value as Json;
use vap_match::{has_items, has_text, items_in, may_have_text};

/// The failure policy of a word.
pub fn failure_word(word: &str) -> Option<FailurePolicy>
    ensures { result ≡ failure_word word.now }
{
    if word == "Fail" {
        Some(FailurePolicy::Fail)
    } else if word == "Ignore" {
        Some(FailurePolicy::Ignore)
    } else {
        None
    }
}

/// The reason of a word.
pub fn reason_word(word: &str) -> Option<Reason>
    ensures { result ≡ reason_word word.now }
{
    if word == "Unauthorized" {
        Some(Reason::Unauthorized)
    } else if word == "Forbidden" {
        Some(Reason::Forbidden)
    } else if word == "Invalid" {
        Some(Reason::Invalid)
    } else if word == "RequestEntityTooLarge" {
        Some(Reason::RequestEntityTooLarge)
    } else {
        None
    }
}

fn may_have_failure_policy(json: &Json) -> bool
    ensures { result ≡ absent_or is_failure_policy (get (codes "failurePolicy") (view json.now)) }
{
    match json.get("failurePolicy") {
        Some(found) => match found.as_str() {
            Some(word) => failure_word(word).is_some(),
            None => false,
        },
        None => true,
    }
}

fn may_have_reason(json: &Json) -> bool
    ensures { result ≡ absent_or is_reason (get (codes "reason") (view json.now)) }
{
    match json.get("reason") {
        Some(found) => match found.as_str() {
            Some(word) => reason_word(word).is_some(),
            None => false,
        },
        None => true,
    }
}

fn has_both(json: &Json, first: &str, second: &str) -> bool
    ensures { result ≡ has_both first.now second.now (view json.now) }
{
    has_text(json, first) && has_text(json, second)
}

fn each_has_both(items: &[Json], first: &str, second: &str) -> bool
    ensures { result ≡ all_items (has_both first.now second.now) (items_view items.now) }
{
    for item in items {
        if !has_both(item, first, second) {
            return false;
        }
    }
    true
}

/// Whether a member is absent, or a list of items with both texts.
fn may_list_both(json: &Json, name: &str, first: &str, second: &str) -> bool
    ensures { result ≡ absent_or (is_list_of (has_both first.now second.now)) (get name.now (view json.now)) }
{
    match json.get(name) {
        Some(Json::Array(items)) => each_has_both(items.as_slice(), first, second),
        Some(_) => false,
        None => true,
    }
}

fn may_have_param_kind(json: &Json) -> bool
    ensures { result ≡ absent_or (has_both (codes "apiVersion") (codes "kind")) (get (codes "paramKind") (view json.now)) }
{
    match json.get("paramKind") {
        Some(found) => has_both(found, "apiVersion", "kind"),
        None => true,
    }
}

fn is_validation(json: &Json) -> bool
    ensures { result ≡ is_validation (view json.now) }
{
    has_text(json, "expression")
        && may_have_text(json, "message")
        && may_have_text(json, "messageExpression")
        && may_have_reason(json)
}

fn are_validations(items: &[Json]) -> bool
    ensures { result ≡ all_items is_validation (items_view items.now) }
{
    for item in items {
        if !is_validation(item) {
            return false;
        }
    }
    true
}

fn may_have_validations(json: &Json) -> bool
    ensures { result ≡ absent_or (is_list_of is_validation) (get (codes "validations") (view json.now)) }
{
    match json.get("validations") {
        Some(Json::Array(items)) => are_validations(items.as_slice()),
        Some(_) => false,
        None => true,
    }
}

fn has_rule(json: &Json) -> bool
    ensures { result ≡ there_and has_rule (get (codes "matchConstraints") (view json.now)) }
{
    match json.get("matchConstraints") {
        Some(found) => has_items(items_in(found, "resourceRules")),
        None => false,
    }
}

fn has_aim(json: &Json) -> bool
    ensures { result ≡ has_aim (view json.now) }
{
    has_items(items_in(json, "validations")) || has_items(items_in(json, "auditAnnotations"))
}

fn has_premises(json: &Json) -> bool
    ensures { result ≡ has_premises (view json.now) }
{
    may_have_param_kind(json)
        && may_list_both(json, "matchConditions", "name", "expression")
        && may_list_both(json, "variables", "name", "expression")
}

fn has_decisions(json: &Json) -> bool
    ensures { result ≡ has_decisions (view json.now) }
{
    may_have_validations(json)
        && may_list_both(json, "auditAnnotations", "key", "valueExpression")
        && may_have_failure_policy(json)
}

/// Whether each needed member is there, and each that is there is of its form.
pub fn is_formed(json: &Json) -> bool
    ensures { result ≡ is_formed (view json.now) }
{
    has_rule(json) && has_premises(json) && has_decisions(json) && has_aim(json)
}
