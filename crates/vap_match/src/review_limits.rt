//! Which requests are within the limits of texts and lists.

ghost use Rattle.std.specs.Prelude.{◌≡◌, ◌&&◌, IfOk, codes};
ghost use Rattle.serde_json.specs.Find.{get};
ghost use Rattle.base_containers.specs.Gathered.{members_of, items_of as gathered};
ghost use Rattle.vap_match.specs.Forms.{absent_or, all_items};
ghost use Rattle.vap_match.specs.TextLimits.{is_short};
ghost use Rattle.vap_match.specs.Parts.{text_of, items_of};
ghost use Rattle.vap_match.specs.ReviewLimits.{is_short_versioned, are_short, all_short, are_short_entries, is_short_map};
ghost use Rattle.vap_match.specs.ReviewLimits.{is_short_user_info, is_short_request};

use crate::request_members::RequestMembers;
use crate::text_limits::is_short;
use crate::texts::{is_short_text, items_in, items_of, short_at, text_of};
use base_containers::Part;
use std::alloc::{AllocError, Global};

fn is_short_versioned(part: &Part<'_, '_>, last: &str) -> bool
    ensures { result ≡ is_short_versioned last.now part.now }
{
    short_at(part, "group", 253) && short_at(part, "version", 253) && short_at(part, last, 253)
}

fn may_be_short_versioned(found: &Option<Part<'_, '_>>, last: &str) -> bool
    ensures { result ≡ absent_or (is_short_versioned last.now) found.now }
{
    match found {
        Some(part) => is_short_versioned(part, last),
        None => true,
    }
}

fn each_is_short(items: &[Part<'_, '_>]) -> bool
    ensures { result ≡ all_items (λ d. is_short 1024 (text_of d)) (gathered items.now) }
{
    for item in items {
        if !is_short(text_of(item), 1024) {
            return false;
        }
    }
    true
}

fn are_short(items: &[Part<'_, '_>]) -> bool
    ensures { result ≡ are_short (gathered items.now) }
{
    items.len() <= 1024 && each_is_short(items)
}

fn is_short_entry(alloc: Global, name: &str, member: &Part<'_, '_>) -> Result<bool, AllocError>
    ensures { IfOk result (λ is. is ≡ (is_short 1024 name.now && are_short (items_of member.now))) }
{
    let items = items_of(alloc, member)?;
    Ok(is_short(name, 1024) && are_short(items.as_slice()))
}

fn all_short(alloc: Global, members: &[(&str, Part<'_, '_>)]) -> Result<bool, AllocError>
    ensures { IfOk result (λ all. all ≡ all_short (members_of members.now)) }
{
    for member in members {
        if !is_short_entry(alloc, member.0, &member.1)? {
            return Ok(false);
        }
    }
    Ok(true)
}

fn are_short_entries(alloc: Global, members: &[(&str, Part<'_, '_>)]) -> Result<bool, AllocError>
    ensures { IfOk result (λ are. are ≡ are_short_entries (members_of members.now)) }
{
    let all = all_short(alloc, members)?;
    Ok(members.len() <= 1024 && all)
}

fn is_short_map(alloc: Global, part: &Part<'_, '_>) -> Result<bool, AllocError>
    ensures { IfOk result (λ is. is ≡ is_short_map part.now) }
{
    match part.members(alloc)? {
        Some(members) => are_short_entries(alloc, members.as_slice()),
        None => Ok(true),
    }
}

fn may_have_short_map(alloc: Global, part: &Part<'_, '_>, name: &str) -> Result<bool, AllocError>
    ensures { IfOk result (λ may. may ≡ absent_or is_short_map (get name.now part.now)) }
{
    match part.get(name) {
        Some(found) => is_short_map(alloc, &found),
        None => Ok(true),
    }
}

fn is_short_user_info(alloc: Global, part: &Part<'_, '_>) -> Result<bool, AllocError>
    ensures { IfOk result (λ is. is ≡ is_short_user_info part.now) }
{
    let groups = items_in(alloc, part, "groups")?;
    let extra = may_have_short_map(alloc, part, "extra")?;
    Ok(
        short_at(part, "username", 1024)
            && short_at(part, "uid", 1024)
            && are_short(groups.as_slice())
            && extra,
    )
}

fn may_be_short_user_info(alloc: Global, found: &Option<Part<'_, '_>>) -> Result<bool, AllocError>
    ensures { IfOk result (λ may. may ≡ absent_or is_short_user_info found.now) }
{
    match found {
        Some(part) => is_short_user_info(alloc, part),
        None => Ok(true),
    }
}

/// Whether a request with these members is within the limits.
pub fn is_short_request(alloc: Global, members: &RequestMembers<'_, '_>) -> Result<bool, AllocError>
    ensures { IfOk result (λ is. is ≡ is_short_request members.now.request) }
{
    let user_info = may_be_short_user_info(alloc, &members.user_info)?;
    Ok(
        is_short_text(&members.uid, 253)
            && may_be_short_versioned(&members.kind, "kind")
            && may_be_short_versioned(&members.resource, "resource")
            && is_short_text(&members.operation, 7)
            && is_short_text(&members.name, 253)
            && is_short_text(&members.namespace, 253)
            && is_short_text(&members.sub_resource, 253)
            && user_info,
    )
}
