//! All items of a list, and all members of an object in the order of their names.

ghost use Rattle.std.specs.Prelude.{◌≡◌, ◌≤◌, length, option_map, IfOk, IfSome, Some};
ghost use Rattle.std.specs.List.{AllWithin};
ghost use Rattle.std.specs.Ordering.{nat_cmp};
ghost use Rattle.std.specs.Cmp.Lexicographic.{slice_cmp};
ghost use Rattle.std.specs.declared.cmp.Ordering.TheVariants.{Less, Greater};
ghost use Rattle.serde_json.specs.Find.{as_array, as_object};
ghost use Rattle.serde_json.specs.View.{items_view, members_view};
ghost use Rattle.base_containers.specs.Gathered.{items_of, members_of, is_above, AreInOrder};
ghost use Rattle.base_containers.specs.Parts.{IsPart, data_of};

use crate::part::{Part, Place};
use json::Element;
use serde_json::{Map, Value as Json};
use std::alloc::{AllocError, Global};
use std::cmp::Ordering;
use std::collections::BTreeMap;

/// A member of an object: its name, and what is under it.
type Member<'t, 'a> = (&'a str, Part<'t, 'a>);

/// For how many items or members there is room at once: most lists and objects have no more.
const USUAL: usize = 8;

/// How many members there may be among which one is put in its place, since those behind it are moved.
const FEW: usize = 64;

impl<'t, 'a> Part<'t, 'a> {
    /// The items of a list.
    pub fn items(&self, alloc: Global) -> Result<Option<Vec<Part<'t, 'a>>>, AllocError>
        ensures { IfOk result (λ found. option_map (λ v. items_of v.items) found ≡ as_array self.now) }
    {
        match &self.place {
            Place::Tape(element) => items_in_tape(alloc, element),
            Place::Tree(json) => match json {
                Json::Array(items) => Ok(Some(items_in_tree(alloc, items.as_slice())?)),
                _ => Ok(None),
            },
        }
    }

    /// The members of an object, by the bytes of their names; of two members under one name, the later.
    pub fn members(&self, alloc: Global) -> Result<Option<Vec<Member<'t, 'a>>>, AllocError>
        ensures exact { IfOk result (λ found. option_map (λ v. members_of v.items) found ≡ as_object self.now) }
        ensures ordered { IfOk result (λ found. IfSome found (λ v. AreInOrder v.items)) }
    {
        match &self.place {
            Place::Tape(element) => members_in_tape(alloc, element),
            Place::Tree(json) => match json {
                Json::Object(members) => Ok(Some(members_in_tree(alloc, members)?)),
                _ => Ok(None),
            },
        }
    }
}

fn items_in_tape<'t, 'a>(
    alloc: Global,
    element: &Element<'t, 'a>,
) -> Result<Option<Vec<Part<'t, 'a>>>, AllocError>
    requires { IsPart element.now }
    ensures { IfOk result (λ found. option_map (λ v. items_of v.items) found ≡ as_array (data_of element.now)) }
{
    let Some(mut items) = element.items() else {
        return Ok(None);
    };
    let mut found = Vec::with_capacity(alloc, USUAL)?;
    while let Some(item) = items.next() {
        found.push(Part::new(item))?;
    }
    Ok(Some(found))
}

fn items_in_tree<'t, 'a>(alloc: Global, items: &'a [Json]) -> Result<Vec<Part<'t, 'a>>, AllocError>
    ensures { IfOk result (λ v. items_of v.items ≡ items_view items.now) }
{
    let mut found = Vec::with_capacity(alloc, items.len())?;
    for item in items {
        found.push(Part::of_tree(item))?;
    }
    Ok(found)
}

/// The members of an object; by a map, if they are many, and their names do not rise in the text.
fn members_in_tape<'t, 'a>(
    alloc: Global,
    element: &Element<'t, 'a>,
) -> Result<Option<Vec<Member<'t, 'a>>>, AllocError>
    requires { IsPart element.now }
    ensures exact { IfOk result (λ found. option_map (λ v. members_of v.items) found ≡ as_object (data_of element.now)) }
    ensures ordered { IfOk result (λ found. IfSome found (λ v. AreInOrder v.items)) }
{
    match placed_members(alloc, element)? {
        Some(found) => Ok(Some(found)),
        None => members_by_name(alloc, element),
    }
}

/// The members of an object, each put in its place, if they are few or their names rise in the text, and none has the name of another.
fn placed_members<'t, 'a>(
    alloc: Global,
    element: &Element<'t, 'a>,
) -> Result<Option<Vec<Member<'t, 'a>>>, AllocError>
    requires { IsPart element.now }
    ensures exact { IfOk result (λ found. IfSome found (λ v. Some (members_of v.items) ≡ as_object (data_of element.now))) }
    ensures ordered { IfOk result (λ found. IfSome found (λ v. AreInOrder v.items)) }
{
    let Some(mut members) = element.members() else {
        return Ok(None);
    };
    let mut found = Vec::with_capacity(alloc, USUAL)?;
    while let Some((name, member)) = members.next() {
        let member = (name, Part::new(member));
        if is_above(found.as_slice(), name) {
            found.push(member)?;
        } else if let Some(place) = free_place(found.as_slice(), name) {
            found.insert(place, member)?;
        } else {
            return Ok(None);
        }
    }
    Ok(Some(found))
}

/// The place of a name among those of members, if they are few and none of them has it.
fn free_place(found: &[Member<'_, '_>], name: &str) -> Option<usize>
    requires { AreInOrder found.now }
    ensures within { IfSome result (λ place. place ≤ length found.now) }
    ensures above { IfSome result (λ place. AllWithin (λ m. slice_cmp nat_cmp m.0.now name.now ≡ Less) found.now 0 place) }
    ensures below { IfSome result (λ place.
        AllWithin (λ m. slice_cmp nat_cmp m.0.now name.now ≡ Greater) found.now place (length found.now)) }
{
    if found.len() > FEW {
        return None;
    }
    match found.binary_search_by(|member| order(member.0, name)) {
        Ok(_) => None,
        Err(place) => Some(place),
    }
}

/// Whether a name is above the last one.
fn is_above(found: &[Member<'_, '_>], name: &str) -> bool
    ensures { result ≡ is_above name.now found.now }
{
    match found {
        [.., last] => order(last.0, name).is_lt(),
        [] => true,
    }
}

/// The order of two names. The first bytes, in which most differ, are compared here, since a call takes longer.
#[inline]
fn order(name: &str, other: &str) -> Ordering
    ensures { result ≡ slice_cmp nat_cmp name.now other.now }
{
    match (name.as_bytes(), other.as_bytes()) {
        ([first, ..], [second, ..]) if first != second => first.cmp(second),
        _ => name.cmp(other),
    }
}

fn members_by_name<'t, 'a>(
    alloc: Global,
    element: &Element<'t, 'a>,
) -> Result<Option<Vec<Member<'t, 'a>>>, AllocError>
    requires { IsPart element.now }
    ensures exact { IfOk result (λ found. option_map (λ v. members_of v.items) found ≡ as_object (data_of element.now)) }
    ensures ordered { IfOk result (λ found. IfSome found (λ v. AreInOrder v.items)) }
{
    let Some(mut members) = element.members() else {
        return Ok(None);
    };
    let mut found = BTreeMap::new(alloc);
    while let Some((name, member)) = members.next() {
        drop(found.insert(name, Part::new(member))?);
    }
    Ok(Some(in_order(alloc, found)?))
}

/// The entries of a map, in the order of their keys.
fn in_order<'t, 'a>(
    alloc: Global,
    members: BTreeMap<&'a str, Part<'t, 'a>>,
) -> Result<Vec<Member<'t, 'a>>, AllocError>
    ensures exact { IfOk result (λ v. v.items ≡ members.entry.entries) }
    ensures ordered { IfOk result (λ v. AreInOrder v.items) }
{
    let mut found = Vec::with_capacity(alloc, members.len())?;
    for member in members {
        found.push(member)?;
    }
    Ok(found)
}

fn members_in_tree<'t, 'a>(
    alloc: Global,
    members: &'a Map<String, Json>,
) -> Result<Vec<Member<'t, 'a>>, AllocError>
    ensures exact { IfOk result (λ v. members_of v.items ≡ members_view members.now.entries) }
    ensures ordered { IfOk result (λ v. AreInOrder v.items) }
{
    let mut found = Vec::with_capacity(alloc, members.len())?;
    for (name, member) in members.iter() {
        found.push((name.as_str(), Part::of_tree(member)))?;
    }
    Ok(found)
}
