//! Which members a binding must have, and of which form each is.

ghost use Rattle.std.specs.Prelude.{◌≡◌, ◌&&◌, codes, is_some};
ghost use Rattle.serde_json.specs.Find.{get};
ghost use Rattle.serde_json.specs.View.{view, items_view};
ghost use Rattle.vap_match.specs.Forms.{there_and, absent_or, all_items, has_items, is_object, is_some_of};
ghost use Rattle.vap_read.specs.BindingForm.{not_found_word, not_found_action, is_action, names, is_param_ref};
ghost use Rattle.vap_read.specs.BindingForm.{is_formed, denies_and_warns, one_of, does_refer, has_selector};

use crate::binding::NotFoundAction;
use serde_json::Value as Json;
use vap_match::{has_items, has_text, is_selector, items_in, may_have_text, text_in, text_of};

fn not_found_word(word: &str) -> Option<NotFoundAction>
    ensures { result ≡ not_found_word word.now }
{
    if word == "Allow" {
        Some(NotFoundAction::Allow)
    } else if word == "Deny" {
        Some(NotFoundAction::Deny)
    } else {
        None
    }
}

/// The action that a reference to params names for the case that none is found, if it names one.
pub fn not_found_action(json: &Json) -> Option<NotFoundAction>
    ensures { result ≡ not_found_action (view json.now) }
{
    not_found_word(text_in(json, "parameterNotFoundAction"))
}

fn is_action(json: &Json) -> bool
    ensures { result ≡ is_action (view json.now) }
{
    let word = text_of(json);
    word == "Deny" || word == "Warn" || word == "Audit"
}

fn are_actions(items: &[Json]) -> bool
    ensures { result ≡ all_items is_action (items_view items.now) }
{
    for item in items {
        if !is_action(item) {
            return false;
        }
    }
    true
}

fn are_some_actions(items: &[Json]) -> bool
    ensures { result ≡ (has_items (items_view items.now) && all_items is_action (items_view items.now)) }
{
    has_items(items) && are_actions(items)
}

fn has_actions(json: &Json) -> bool
    ensures { result ≡ there_and (is_some_of is_action) (get (codes "validationActions") (view json.now)) }
{
    match json.get("validationActions") {
        Some(Json::Array(items)) => are_some_actions(items.as_slice()),
        _ => false,
    }
}

fn may_have_object(json: &Json, name: &str) -> bool
    ensures { result ≡ absent_or is_object (get name.now (view json.now)) }
{
    match json.get(name) {
        Some(found) => found.is_object(),
        None => true,
    }
}

fn is_param_ref(json: &Json) -> bool
    ensures { result ≡ is_param_ref (view json.now) }
{
    json.is_object()
        && may_have_text(json, "name")
        && may_have_text(json, "namespace")
        && may_have_object(json, "selector")
}

fn may_have_param_ref(json: &Json) -> bool
    ensures { result ≡ absent_or is_param_ref (get (codes "paramRef") (view json.now)) }
{
    match json.get("paramRef") {
        Some(found) => is_param_ref(found),
        None => true,
    }
}

/// Whether each needed member is there, and each that is there is of its form.
pub fn is_formed(json: &Json) -> bool
    ensures { result ≡ is_formed (view json.now) }
{
    has_text(json, "policyName")
        && may_have_param_ref(json)
        && may_have_object(json, "matchResources")
        && has_actions(json)
}

/// Whether a word is among these items.
pub fn names(items: &[Json], word: &str) -> bool
    ensures { result ≡ names word.now (items_view items.now) }
{
    for item in items {
        if text_of(item) == word {
            return true;
        }
    }
    false
}

/// Whether a binding both denies and warns.
pub fn denies_and_warns(json: &Json) -> bool
    ensures { result ≡ denies_and_warns (view json.now) }
{
    let actions = items_in(json, "validationActions");
    names(actions, "Deny") && names(actions, "Warn")
}

fn has_member(json: &Json, name: &str) -> bool
    ensures { result ≡ is_some (get name.now (view json.now)) }
{
    json.get(name).is_some()
}

/// Whether exactly one of the two holds.
fn is_one_of(first: bool, second: bool) -> bool
    ensures { result ≡ one_of first second }
{
    if first { !second } else { second }
}

fn does_refer(json: &Json) -> bool
    ensures { result ≡ does_refer (view json.now) }
{
    is_one_of(has_member(json, "name"), has_member(json, "selector"))
        && not_found_action(json).is_some()
}

/// Whether a reference to params names or selects them and says what to do without any, if it is there.
pub fn may_refer(json: &Json) -> bool
    ensures { result ≡ absent_or does_refer (get (codes "paramRef") (view json.now)) }
{
    match json.get("paramRef") {
        Some(found) => does_refer(found),
        None => true,
    }
}

fn has_selector(json: &Json) -> bool
    ensures { result ≡ has_selector (view json.now) }
{
    match json.get("selector") {
        Some(found) => is_selector(found),
        None => true,
    }
}

/// Whether the selector of a reference to params is one, if both are there.
pub fn may_have_selector(json: &Json) -> bool
    ensures { result ≡ absent_or has_selector (get (codes "paramRef") (view json.now)) }
{
    match json.get("paramRef") {
        Some(found) => has_selector(found),
        None => true,
    }
}
