//! Which documents are requests of reviews.

ghost use Rattle.std.specs.Prelude.{◌≡◌, IfOk, codes};
ghost use Rattle.serde_json.specs.Find.{get};
ghost use Rattle.base_containers.specs.Gathered.{members_of};
ghost use Rattle.vap_match.specs.Forms.{there_and, absent_or, all_members, is_text, is_list_of, is_map_of};
ghost use Rattle.vap_match.specs.Reviews.{is_bool, is_nullable_object, is_versioned, is_user_info, has_place, has_needed};
ghost use Rattle.vap_match.specs.Reviews.{is_request};

use crate::request_members::RequestMembers;
use crate::texts::{is_text_list, is_there_as_text, may_be_text, may_have_text, may_have_texts};
use base_containers::Part;
use std::alloc::{AllocError, Global};

fn may_be_bool(found: &Option<Part<'_, '_>>) -> bool
    ensures { result ≡ absent_or is_bool found.now }
{
    match found {
        Some(part) => part.as_bool().is_some(),
        None => true,
    }
}

fn is_nullable_object(part: &Part<'_, '_>) -> bool
    ensures { result ≡ is_nullable_object part.now }
{
    part.is_null() || part.is_object()
}

fn may_be_nullable_object(found: &Option<Part<'_, '_>>) -> bool
    ensures { result ≡ absent_or is_nullable_object found.now }
{
    match found {
        Some(part) => is_nullable_object(part),
        None => true,
    }
}

fn is_versioned(part: &Part<'_, '_>, last: &str) -> bool
    ensures { result ≡ is_versioned last.now part.now }
{
    part.is_object()
        && may_have_text(part, "group")
        && may_have_text(part, "version")
        && may_have_text(part, last)
}

/// Whether a member is an object of a group, a version and a last part of this name.
fn is_there_as_versioned(found: &Option<Part<'_, '_>>, last: &str) -> bool
    ensures { result ≡ there_and (is_versioned last.now) found.now }
{
    match found {
        Some(part) => is_versioned(part, last),
        None => false,
    }
}

fn are_text_lists(alloc: Global, members: &[(&str, Part<'_, '_>)]) -> Result<bool, AllocError>
    ensures { IfOk result (λ are. are ≡ all_members (is_list_of is_text) (members_of members.now)) }
{
    for member in members {
        if !is_text_list(alloc, &member.1)? {
            return Ok(false);
        }
    }
    Ok(true)
}

fn is_map_of_text_lists(alloc: Global, part: &Part<'_, '_>) -> Result<bool, AllocError>
    ensures { IfOk result (λ is. is ≡ is_map_of (is_list_of is_text) part.now) }
{
    match part.members(alloc)? {
        Some(members) => are_text_lists(alloc, members.as_slice()),
        None => Ok(false),
    }
}

fn may_have_text_lists(alloc: Global, part: &Part<'_, '_>, name: &str) -> Result<bool, AllocError>
    ensures { IfOk result (λ may. may ≡ absent_or (is_map_of (is_list_of is_text)) (get name.now part.now)) }
{
    match part.get(name) {
        Some(found) => is_map_of_text_lists(alloc, &found),
        None => Ok(true),
    }
}

fn is_user_info(alloc: Global, part: &Part<'_, '_>) -> Result<bool, AllocError>
    ensures { IfOk result (λ is. is ≡ is_user_info part.now) }
{
    let groups = may_have_texts(alloc, part, "groups")?;
    let extra = may_have_text_lists(alloc, part, "extra")?;
    Ok(
        part.is_object()
            && may_have_text(part, "username")
            && may_have_text(part, "uid")
            && groups
            && extra,
    )
}

fn may_be_user_info(alloc: Global, found: &Option<Part<'_, '_>>) -> Result<bool, AllocError>
    ensures { IfOk result (λ may. may ≡ absent_or is_user_info found.now) }
{
    match found {
        Some(part) => is_user_info(alloc, part),
        None => Ok(true),
    }
}

fn has_place(members: &RequestMembers<'_, '_>) -> bool
    ensures { result ≡ has_place members.now.request }
{
    may_be_text(&members.name)
        && may_be_text(&members.namespace)
        && may_be_text(&members.sub_resource)
}

fn has_needed(members: &RequestMembers<'_, '_>) -> bool
    ensures { result ≡ has_needed members.now.request }
{
    is_there_as_text(&members.uid)
        && is_there_as_versioned(&members.kind, "kind")
        && is_there_as_versioned(&members.resource, "resource")
        && is_there_as_text(&members.operation)
}

/// Whether what has these members is a request.
pub fn is_request(alloc: Global, members: &RequestMembers<'_, '_>) -> Result<bool, AllocError>
    ensures { IfOk result (λ is. is ≡ is_request members.now.request) }
{
    let user_info = may_be_user_info(alloc, &members.user_info)?;
    Ok(
        has_needed(members)
            && has_place(members)
            && may_be_bool(&members.dry_run)
            && user_info
            && may_be_nullable_object(&members.object)
            && may_be_nullable_object(&members.old_object),
    )
}
