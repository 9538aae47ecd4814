//! From a review to its request.

ghost use Rattle.std.specs.Prelude.{◌≡◌, IfOk, IfErr, IfSome, Some, None, codes, option_and_then};
ghost use Rattle.serde_json.specs.Data.{Data};
ghost use Rattle.serde_json.specs.Find.{get};
ghost use Rattle.serde_json.specs.Read.{read};
ghost use Rattle.base_containers.specs.Failures.{Answers, IfFault};
ghost use Rattle.base_containers.specs.Gathered.{members_of, items_of as gathered, AreInOrder};
ghost use Rattle.base_containers.specs.Texts.{HasData, data_in};
ghost use Rattle.vap_match.specs.Parts.{text_of, text_in, items_of, items_in, each_item};
ghost use Rattle.vap_match.specs.RequestReading.{text_at, kind_of, resource_of, lists_under, lists_in};
ghost use Rattle.vap_match.specs.RequestReading.{user_info_of, dry_run_of, names_of, target_of, admission_from, request_of, read_review};
ghost use Rattle.vap_match.specs.Faults.{least_fault, IsLeast};

use crate::form::is_request;
use crate::request::{Admission, Kind, Request, Resource, UserInfo};
use crate::request_members::RequestMembers;
use crate::review_fault::{ReviewError, ReviewFault};
use crate::review_limits::is_short_request;
use crate::texts::{found_text, items_in, items_of, texts_of};
use base_containers::{Document, Items, Keyed, Part, Shared, Text, TextMap};
use std::alloc::{AllocError, Global};

impl Request {
    /// The request of a review, given by its text and its open document, or the least of the review's faults.
    pub fn from_text(
        alloc: Global,
        text: &str,
        review: &Part<'_, '_>,
    ) -> Result<Request, ReviewError>
        requires { read text.now ≡ Some review.now }
        ensures exact { Answers (read_review review.now) result }
        ensures least { IfErr result (IfFault (IsLeast review.now)) }
    {
        let Some(request) = review.get("request") else {
            return Err(ReviewError::Fault(ReviewFault::BadReview));
        };
        let members = RequestMembers::new(request);
        match fault_of(alloc, &members)? {
            Some(fault) => Err(ReviewError::Fault(fault)),
            None => Ok(request_of(alloc, text, &members)?),
        }
    }
}

/// The least fault of a review whose request has these members.
fn fault_of(
    alloc: Global,
    members: &RequestMembers<'_, '_>,
) -> Result<Option<ReviewFault>, AllocError>
    ensures exact { IfOk result (λ fault. (review : Data) → get (codes "request") review ≡ Some members.now.request
        → fault ≡ least_fault review) }
    ensures least { IfOk result (λ fault. (review : Data) → get (codes "request") review ≡ Some members.now.request
        → IfSome fault (IsLeast review)) }
{
    if !is_request(alloc, members)? {
        Ok(Some(ReviewFault::BadReview))
    } else if !is_short_request(alloc, members)? {
        Ok(Some(ReviewFault::OverLimit))
    } else {
        Ok(None)
    }
}

/// The request with these members, of a review with this text.
fn request_of(
    alloc: Global,
    text: &str,
    members: &RequestMembers<'_, '_>,
) -> Result<Request, AllocError>
    requires read { HasData text.now }
    requires asked { get (codes "request") (data_in text.now) ≡ Some members.now.request }
    requires whole { least_fault (data_in text.now) ≡ None }
    ensures { IfOk result (λ request. request ≡ request_of (data_in text.now)) }
{
    let document = Document::new(alloc, text)?;
    let admission = admission_of(alloc, document, members)?;
    Ok(Request {
        admission: Shared::new(alloc, admission)?,
    })
}

fn admission_of(
    alloc: Global,
    document: Document,
    members: &RequestMembers<'_, '_>,
) -> Result<Admission, AllocError>
    ensures { IfOk result (λ admission. admission ≡ admission_from document members.now.request) }
{
    let names = names_of(alloc, members)?;
    let target = target_of(alloc, members)?;
    let dry_run = dry_run_of(members);
    Ok(Admission {
        uid: names.uid,
        kind: target.kind,
        resource: target.resource,
        sub_resource: names.sub_resource,
        name: names.name,
        namespace: names.namespace,
        operation: names.operation,
        user_info: target.user_info,
        dry_run,
        review: document,
    })
}

/// A copy of the text of a member that was looked up, empty if there is none.
fn copied(alloc: Global, found: &Option<Part<'_, '_>>) -> Result<Text, AllocError>
    ensures { IfOk result (λ text. text ≡ text_in found.now) }
{
    Text::from_str(alloc, found_text(found))
}

/// A copy of the text of a member of what was found under another name, empty if there is none.
fn text_at(alloc: Global, found: &Option<Part<'_, '_>>, inner: &str) -> Result<Text, AllocError>
    ensures { IfOk result (λ text. (outer : _) (d : _) → found.now ≡ get outer d → text ≡ text_at outer inner.now d) }
{
    match found {
        Some(part) => Ok(copied(alloc, &part.get(inner))?),
        None => Ok(Text::from_str(alloc, "")?),
    }
}

fn kind_of(alloc: Global, members: &RequestMembers<'_, '_>) -> Result<Kind, AllocError>
    ensures { IfOk result (λ kind. kind ≡ kind_of members.now.request) }
{
    Ok(Kind {
        group: text_at(alloc, &members.kind, "group")?,
        version: text_at(alloc, &members.kind, "version")?,
        kind: text_at(alloc, &members.kind, "kind")?,
    })
}

fn resource_of(alloc: Global, members: &RequestMembers<'_, '_>) -> Result<Resource, AllocError>
    ensures { IfOk result (λ resource. resource ≡ resource_of members.now.request) }
{
    Ok(Resource {
        group: text_at(alloc, &members.resource, "group")?,
        version: text_at(alloc, &members.resource, "version")?,
        resource: text_at(alloc, &members.resource, "resource")?,
    })
}

fn list_under(
    alloc: Global,
    name: &str,
    member: &Part<'_, '_>,
) -> Result<Keyed<Items<Text>>, AllocError>
    ensures { IfOk result (λ list. (list.key ≡ name.now) × (list.value ≡ each_item text_of (items_of member.now))) }
{
    Ok(Keyed {
        key: Text::from_str(alloc, name)?,
        value: texts_of(alloc, items_of(alloc, member)?.as_slice())?,
    })
}

fn lists_under(
    alloc: Global,
    members: &[(&str, Part<'_, '_>)],
) -> Result<TextMap<Items<Text>>, AllocError>
    requires { AreInOrder members.now }
    ensures { IfOk result (λ lists. lists ≡ lists_under (members_of members.now)) }
{
    let mut lists = Vec::with_capacity(alloc, members.len())?;
    for member in members {
        lists.push(list_under(alloc, member.0, &member.1)?)?;
    }
    Ok(TextMap::from_vec(lists))
}

/// The texts under each name of `extra`.
fn extra_of(alloc: Global, user: &Option<Part<'_, '_>>) -> Result<TextMap<Items<Text>>, AllocError>
    ensures { IfOk result (λ lists. lists ≡ lists_in (option_and_then (get (codes "extra")) user.now)) }
{
    match user {
        Some(found) => lists_at(alloc, found.get("extra")),
        None => Ok(TextMap::new(alloc)),
    }
}

fn lists_at(alloc: Global, part: Option<Part<'_, '_>>) -> Result<TextMap<Items<Text>>, AllocError>
    ensures { IfOk result (λ lists. lists ≡ lists_in part.entry) }
{
    match part {
        Some(found) => match found.members(alloc)? {
            Some(members) => lists_under(alloc, members.as_slice()),
            None => Ok(TextMap::new(alloc)),
        },
        None => Ok(TextMap::new(alloc)),
    }
}

/// The texts of `groups`.
fn groups_of(alloc: Global, user: &Option<Part<'_, '_>>) -> Result<Items<Text>, AllocError>
    ensures { IfOk result (λ texts. texts ≡ each_item text_of (items_in (option_and_then (get (codes "groups")) user.now))) }
{
    match user {
        Some(found) => texts_of(alloc, items_in(alloc, found, "groups")?.as_slice()),
        None => Ok(Items::new(alloc)),
    }
}

fn user_info_of(alloc: Global, members: &RequestMembers<'_, '_>) -> Result<UserInfo, AllocError>
    ensures { IfOk result (λ user. user ≡ user_info_of members.now.request) }
{
    let user = &members.user_info;
    Ok(UserInfo {
        username: text_at(alloc, user, "username")?,
        uid: text_at(alloc, user, "uid")?,
        groups: groups_of(alloc, user)?,
        extra: extra_of(alloc, user)?,
    })
}

fn dry_run_of(members: &RequestMembers<'_, '_>) -> bool
    ensures { result ≡ dry_run_of members.now.request }
{
    match &members.dry_run {
        Some(found) => found.as_bool().unwrap_or(false),
        None => false,
    }
}

/// The texts of a request itself.
#[derive(Drop)]
struct Names {
    uid: Text,
    sub_resource: Text,
    name: Text,
    namespace: Text,
    operation: Text,
}

fn names_of(alloc: Global, members: &RequestMembers<'_, '_>) -> Result<Names, AllocError>
    ensures { IfOk result (λ names. names ≡ names_of members.now.request) }
{
    Ok(Names {
        uid: copied(alloc, &members.uid)?,
        sub_resource: copied(alloc, &members.sub_resource)?,
        name: copied(alloc, &members.name)?,
        namespace: copied(alloc, &members.namespace)?,
        operation: copied(alloc, &members.operation)?,
    })
}

/// What a request is on, and whose it is.
#[derive(Drop)]
struct Target {
    kind: Kind,
    resource: Resource,
    user_info: UserInfo,
}

fn target_of(alloc: Global, members: &RequestMembers<'_, '_>) -> Result<Target, AllocError>
    ensures { IfOk result (λ target. target ≡ target_of members.now.request) }
{
    Ok(Target {
        kind: kind_of(alloc, members)?,
        resource: resource_of(alloc, members)?,
        user_info: user_info_of(alloc, members)?,
    })
}
