//! Which form a member has, if it is there.

ghost use Rattle.std.specs.Prelude.{◌≡◌, ◌&&◌};
ghost use Rattle.serde_json.specs.Find.{get};
ghost use Rattle.serde_json.specs.View.{view, items_view, members_view};
ghost use Rattle.vap_match.specs.Forms.{there_and, absent_or, is_text, all_items, all_members, is_list_of, is_map_of};
ghost use Rattle.vap_match.specs.Forms.{has_items, is_empty_list, is_some_of};

use serde_json::{Map, Value as Json};

/// Whether a member is a text.
pub fn has_text(json: &Json, name: &str) -> bool
    ensures { result ≡ there_and is_text (get name.now (view json.now)) }
{
    match json.get(name) {
        Some(found) => found.is_string(),
        None => false,
    }
}

/// Whether all items are texts.
pub fn are_texts(items: &[Json]) -> bool
    ensures { result ≡ all_items is_text (items_view items.now) }
{
    for item in items {
        if !item.is_string() {
            return false;
        }
    }
    true
}

/// Whether there are items.
pub fn has_items(items: &[Json]) -> bool
    ensures { result ≡ has_items (items_view items.now) }
{
    match items {
        [_, ..] => true,
        [] => false,
    }
}

fn are_some_texts(items: &[Json]) -> bool
    ensures { result ≡ (has_items (items_view items.now) && all_items is_text (items_view items.now)) }
{
    has_items(items) && are_texts(items)
}

fn have_texts(members: &Map<String, Json>) -> bool
    ensures { result ≡ all_members is_text (members_view members.now.entries) }
{
    for (_, member) in members.iter() {
        if !member.is_string() {
            return false;
        }
    }
    true
}

/// Whether a member is a list of texts, and has at least one.
pub fn has_texts(json: &Json, name: &str) -> bool
    ensures { result ≡ there_and (is_some_of is_text) (get name.now (view json.now)) }
{
    match json.get(name) {
        Some(Json::Array(items)) => are_some_texts(items.as_slice()),
        _ => false,
    }
}

/// Whether a member is absent, or a text.
pub fn may_have_text(json: &Json, name: &str) -> bool
    ensures { result ≡ absent_or is_text (get name.now (view json.now)) }
{
    match json.get(name) {
        Some(found) => found.is_string(),
        None => true,
    }
}

/// Whether a member is absent, or a list of texts.
pub fn may_have_texts(json: &Json, name: &str) -> bool
    ensures { result ≡ absent_or (is_list_of is_text) (get name.now (view json.now)) }
{
    match json.get(name) {
        Some(Json::Array(items)) => are_texts(items.as_slice()),
        Some(_) => false,
        None => true,
    }
}

/// Whether a member is absent, or a list of no items.
pub fn has_no_items(json: &Json, name: &str) -> bool
    ensures { result ≡ absent_or is_empty_list (get name.now (view json.now)) }
{
    match json.get(name) {
        Some(Json::Array(items)) => !has_items(items.as_slice()),
        Some(_) => false,
        None => true,
    }
}

/// Whether a member is absent, or an object of texts.
pub fn may_have_named_texts(json: &Json, name: &str) -> bool
    ensures { result ≡ absent_or (is_map_of is_text) (get name.now (view json.now)) }
{
    match json.get(name) {
        Some(Json::Object(members)) => have_texts(members),
        Some(_) => false,
        None => true,
    }
}
