//! Whether a document is a value of a type, and why not.

ghost use Rattle.std.specs.Prelude.{◌≡◌, ◌≤◌, Bool, IsTrue, IfOk, length, true};
ghost use Rattle.base_containers.specs.Gathered.{items_of, members_of};
ghost use Rattle.base_containers.specs.Keys.{IsInKeyOrder, value_under};
ghost use Rattle.cel_value.specs.declared.cel_type.CelType as type;
ghost use Rattle.vap_schema.specs.Seen.{is_absent, reader_of, seen};
ghost use Rattle.vap_schema_conformance.specs.Conformance.{AreEntriesOf, AreItemsOf, AreMembersOf, IsMemberOf, IsValueOf};
ghost use Rattle.vap_schema_conformance.specs.Conformance.{fault_in, has_member, has_required};

use crate::scalars::{has_at_most, is_scalar_of};
use base_containers::{Keyed, Part, TextMap};
use cel_value::{CelType, Field};
use std::alloc::{AllocError, Global};
use vap_schema::{FitError, FitFault, fit};

/// How many fields a type may have, and how many members an object, that are looked through for one name.
const FEW: usize = 64;

/// The first fault of a document at a type in document order, with its path from the name given, or that it is a value of the type.
pub fn fault_of(
    alloc: Global,
    document: &Part<'_, '_>,
    cel_type: &CelType,
    root: &str,
) -> Result<Option<FitFault>, AllocError>
    ensures { IfOk result (λ found. found ≡ fault_in (seen root.now cel_type.now document.now)) }
{
    if is_value(alloc, cel_type, document) {
        return Ok(None);
    }
    match fit(alloc, document, cel_type, root) {
        Ok(_) => Ok(None),
        Err(FitError::Fault(fault)) => Ok(Some(fault)),
        Err(FitError::OutOfMemory) => Err(AllocError),
    }
}

/// Whether a document is known to be a value of a type. That it is one is not known either if memory runs out, or if an object of it
/// or its type is wide. Lists, maps and objects stay calls, so that a text or a number, of which there are most, does not pay for the
/// registers that they need.
#[cycle(is_value)]
fn is_value(alloc: Global, cel_type: &CelType, document: &Part<'_, '_>) -> bool
    ensures { IsTrue result → IsValueOf cel_type.now document.now }
{
    match cel_type {
        CelType::Nullable(item) => document.is_null() || is_value(alloc, item.get(), document),
        CelType::List { max, item, .. } => is_list(alloc, item.get(), *max, document),
        CelType::Map { max, key_max, item } => is_map(alloc, item.get(), *max, *key_max, document),
        CelType::Object { fields } => is_object(alloc, fields.get(), document),
        _ => is_scalar_of(cel_type, document),
    }
}

#[inline(never)]
#[cycle(is_value)]
fn is_list(alloc: Global, item_type: &CelType, max: u32, document: &Part<'_, '_>) -> bool
    ensures { IsTrue result → (plain : Bool) → IsValueOf (type.List max plain item_type.now) document.now }
{
    match document.items(alloc) {
        Ok(Some(items)) => are_items(alloc, item_type, max, items.as_slice()),
        _ => false,
    }
}

/// Whether there are at most so many items, and each is known to be a value of a type.
#[cycle(is_value)]
fn are_items(alloc: Global, item_type: &CelType, max: u32, items: &[Part<'_, '_>]) -> bool
    ensures within { IsTrue result → length items.now ≤ max }
    ensures each { IsTrue result → AreItemsOf item_type.now (items_of items.now) }
{
    if items.len() > max as usize {
        return false;
    }
    for item in items {
        if !is_value(alloc, item_type, item) {
            return false;
        }
    }
    true
}

#[inline(never)]
#[cycle(is_value)]
fn is_map(
    alloc: Global,
    item_type: &CelType,
    max: u32,
    key_max: u32,
    document: &Part<'_, '_>,
) -> bool
    ensures { IsTrue result → IsValueOf (type.Map max key_max item_type.now) document.now }
{
    match document.members(alloc) {
        Ok(Some(members)) => are_entries(alloc, item_type, max, key_max, members.as_slice()),
        _ => false,
    }
}

/// Whether there are at most so many members, each has a name of at most so many code points, and is known to be a value of a type.
#[cycle(is_value)]
fn are_entries(
    alloc: Global,
    item_type: &CelType,
    max: u32,
    key_max: u32,
    members: &[(&str, Part<'_, '_>)],
) -> bool
    ensures within { IsTrue result → length members.now ≤ max }
    ensures each { IsTrue result → AreEntriesOf key_max item_type.now (members_of members.now) }
{
    if members.len() > max as usize {
        return false;
    }
    for member in members {
        if !has_at_most(key_max, member.0) {
            return false;
        }
        if !is_value(alloc, item_type, &member.1) {
            return false;
        }
    }
    true
}

#[inline(never)]
#[cycle(is_value)]
fn is_object(alloc: Global, fields: &TextMap<Field<CelType>>, document: &Part<'_, '_>) -> bool
    ensures { IsTrue result → IsValueOf (type.Object fields.now) document.now }
{
    match document.members(alloc) {
        Ok(Some(members)) => has_fields(alloc, fields, members.as_slice()),
        _ => false,
    }
}

/// Whether members are known to be those of an object that has these fields; if there are many of either it is not known.
#[cycle(is_value)]
fn has_fields(
    alloc: Global,
    fields: &TextMap<Field<CelType>>,
    members: &[(&str, Part<'_, '_>)],
) -> bool
    ensures ordered { IsInKeyOrder fields.now }
    ensures required { IsTrue result → has_required fields.now (members_of members.now) ≡ true }
    ensures each { IsTrue result → AreMembersOf fields.now (members_of members.now) }
{
    let all = fields.as_slice();
    if all.len().max(members.len()) > FEW {
        return false;
    }
    if !has_required(all, members) {
        return false;
    }
    are_members(alloc, fields, members)
}

#[cycle(is_value)]
fn are_members(
    alloc: Global,
    fields: &TextMap<Field<CelType>>,
    members: &[(&str, Part<'_, '_>)],
) -> bool
    ensures { IsTrue result → AreMembersOf fields.now (members_of members.now) }
{
    for member in members {
        if !is_member(alloc, fields, member.0, &member.1) {
            return false;
        }
    }
    true
}

/// Whether a member is a value of the field that has its name, if there is one, or counts as absent.
#[cycle(is_value)]
fn is_member(
    alloc: Global,
    fields: &TextMap<Field<CelType>>,
    name: &str,
    member: &Part<'_, '_>,
) -> bool
    ensures { IsTrue result → IsMemberOf (value_under name.now fields.now) member.now }
{
    for field in fields.as_slice() {
        if field.key.as_str() == name {
            let field = &field.value;
            return is_absent(field, member) || is_value(alloc, &field.cel_type, member);
        }
    }
    true
}

/// Whether null counts as the absence of an optional field.
fn is_absent(field: &Field<CelType>, member: &Part<'_, '_>) -> bool
    ensures { result ≡ is_absent field.now.required (reader_of field.now.cel_type) member.now }
{
    member.is_null() && !field.required && !has_null(&field.cel_type)
}

fn has_null(cel_type: &CelType) -> bool
    ensures { result ≡ (reader_of cel_type.now).0 }
{
    matches!(cel_type, CelType::Null | CelType::Nullable(_))
}

/// Whether each required field has a member.
fn has_required(fields: &[Keyed<Field<CelType>>], members: &[(&str, Part<'_, '_>)]) -> bool
    ensures { result ≡ has_required fields.now (members_of members.now) }
{
    for field in fields {
        if field.value.required && !has_member(members, field.key.as_str()) {
            return false;
        }
    }
    true
}

/// Whether some member has a name.
fn has_member(members: &[(&str, Part<'_, '_>)], name: &str) -> bool
    ensures { result ≡ has_member name.now (members_of members.now) }
{
    for member in members {
        if member.0 == name {
            return true;
        }
    }
    false
}
