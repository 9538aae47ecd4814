//! The value that a document is at a type, or its first fault.

ghost use Rattle.std.specs.Prelude.{◌≡◌, ◌≤◌, ◌&&◌, ◌++◌, All, Bool, IsTrue, IfOk, IfSome, OnOk, Ok, nat_le, length, drop, option_to_list};
ghost use Rattle.std.specs.List.{list_all};
ghost use Rattle.base_containers.specs.Failures.{Answers, made};
ghost use Rattle.base_containers.specs.Gathered.{items_of, members_of, AreInOrder};
ghost use Rattle.base_containers.specs.Keys.{IsInKeyOrder};
ghost use Rattle.cel_value.specs.Fits.{fits, HasItsField};
ghost use Rattle.cel_value.specs.declared.value.Value as V;
ghost use Rattle.cel_value.specs.declared.cel_type.CelType as type;
ghost use Rattle.cel_value.specs.Greatest.{greatest_of};
ghost use Rattle.cel_value.specs.Value.{code_points, weight_of};
ghost use Rattle.vap_schema.specs.InStep.{first_under};
ghost use Rattle.vap_schema.specs.Paths.{path_text};
ghost use Rattle.vap_schema.specs.Seen.{Carries, if_all_there};
ghost use Rattle.vap_schema.specs.Seen.{seen, seen_list, seen_items, seen_map};
ghost use Rattle.vap_schema.specs.Seen.{seen_entries, seen_entry, seen_object, seen_members, seen_member, seen_field};
ghost use Rattle.vap_schema.specs.Seen.{all_there, within, reader_of, readers_of, is_absent};
ghost use Rattle.vap_schema.specs.Entries.{entry_fits};

use crate::fit_fault::{FitError, FitFaultKind};
use crate::in_step::{is_at, place_from};
use crate::path::Path;
use crate::refusals::{check_limit, misfit, refusal};
use crate::scalars::{bool_at, duration_at, int_at, null_at, text_at, timestamp_at};
use base_containers::{Items, Keyed, Part, Text, TextMap};
use cel_value::{CelType, Field, Value, code_points};
use std::alloc::{AllocError, Global};

/// The value that a document is at a type, or the first fault in document order, with its path from the name given.
pub fn fit(
    alloc: Global,
    document: &Part<'_, '_>,
    cel_type: &CelType,
    root: &str,
) -> Result<Value, FitError>
    ensures exact { Answers (seen root.now cel_type.now document.now) result }
    ensures fits { IfOk result (λ value. IsTrue (fits value cel_type.now)) }
    ensures bounded { IfOk result (λ value. weight_of value ≤ greatest_of cel_type.now) }
{
    fit_at(alloc, cel_type, document, &Path::Root(root))
}

/// What a part is at a type. Each kind of type has a function of its own, so that a text or a number, of which there are most, does
/// not pay for the room that lists and objects need.
#[cycle(fit_at)]
fn fit_at(
    alloc: Global,
    cel_type: &CelType,
    document: &Part<'_, '_>,
    path: &Path<'_>,
) -> Result<Value, FitError>
    ensures exact { Answers (seen (path_text path.now) cel_type.now document.now) result }
    ensures fits { IfOk result (λ value. IsTrue (fits value cel_type.now)) }
{
    match cel_type {
        CelType::Opaque => Ok(Value::Opaque),
        CelType::Null => null_at(alloc, document, path),
        CelType::Nullable(item) => {
            if document.is_null() {
                Ok(Value::Null)
            } else {
                fit_at(alloc, item.get(), document, path)
            }
        }
        CelType::Bool => bool_at(alloc, document, path),
        CelType::Int => int_at(alloc, document, path),
        CelType::Text { max } => text_at(alloc, *max, document, path),
        CelType::Timestamp => timestamp_at(alloc, document, path),
        CelType::Duration => duration_at(alloc, document, path),
        CelType::List { max, item, .. } => list_at(alloc, item.get(), *max, document, path),
        CelType::Map { max, key_max, item } => {
            map_at(alloc, item.get(), *max, *key_max, document, path)
        }
        CelType::Object { fields } => object_at(alloc, fields.get(), document, path),
        CelType::Never | CelType::Uint => Err(misfit(alloc, document, path)),
    }
}

#[cycle(fit_at)]
fn list_at(
    alloc: Global,
    item_type: &CelType,
    max: u32,
    document: &Part<'_, '_>,
    path: &Path<'_>,
) -> Result<Value, FitError>
    ensures exact { (plain : Bool) → Answers (seen (path_text path.now) (type.List max plain item_type.now) document.now) result }
    ensures fits { (plain : Bool) → IfOk result (λ value. IsTrue (fits value (type.List max plain item_type.now))) }
{
    match document.items(alloc)? {
        Some(items) => list_value(fit_list(alloc, item_type, max, items.as_slice(), path)),
        None => Err(misfit(alloc, document, path)),
    }
}

#[cycle(fit_at)]
fn fit_list(
    alloc: Global,
    item_type: &CelType,
    max: u32,
    items: &[Part<'_, '_>],
    path: &Path<'_>,
) -> Result<Items<Value>, FitError>
    ensures exact { Answers (seen_list (reader_of item_type.now).1 max (path_text path.now) (items_of items.now)) result }
    ensures fits { IfOk result (λ values. IsTrue (nat_le (length values) max && list_all (λ v. fits v item_type.now) values)) }
{
    let items = items_within(alloc, max, items, path)?;
    fit_items(alloc, item_type, items, path)
}

#[cycle(fit_at)]
fn fit_items(
    alloc: Global,
    item_type: &CelType,
    items: &[Part<'_, '_>],
    path: &Path<'_>,
) -> Result<Items<Value>, FitError>
    ensures exact { Answers (seen_items (reader_of item_type.now).1 (path_text path.now) 0 (items_of items.now)) result }
    ensures fits { IfOk result (λ values. IsTrue (list_all (λ v. fits v item_type.now) values)) }
{
    let mut values = Vec::with_capacity(alloc, items.len())?;
    for (place, item) in items.iter().enumerate() {
        values.push(fit_at(alloc, item_type, item, &Path::Item(path, place))?)?;
    }
    Ok(Items::from_vec(values))
}

#[cycle(fit_at)]
fn map_at(
    alloc: Global,
    item_type: &CelType,
    max: u32,
    key_max: u32,
    document: &Part<'_, '_>,
    path: &Path<'_>,
) -> Result<Value, FitError>
    ensures exact { Answers (seen (path_text path.now) (type.Map max key_max item_type.now) document.now) result }
    ensures fits { IfOk result (λ value. IsTrue (fits value (type.Map max key_max item_type.now))) }
{
    match document.members(alloc)? {
        Some(members) => {
            let members = members.as_slice();
            map_value(fit_map(alloc, item_type, max, key_max, members, path))
        }
        None => Err(misfit(alloc, document, path)),
    }
}

#[cycle(fit_at)]
fn fit_map(
    alloc: Global,
    item_type: &CelType,
    max: u32,
    key_max: u32,
    members: &[(&str, Part<'_, '_>)],
    path: &Path<'_>,
) -> Result<TextMap<Value>, FitError>
    requires { AreInOrder members.now }
    ensures exact { Answers
        (seen_map (reader_of item_type.now).1 max key_max (path_text path.now) (members_of members.now)) result }
    ensures fits { IfOk result (λ entries. IsTrue (nat_le (length entries) max && list_all (entry_fits key_max item_type.now) entries)) }
{
    check_limit(alloc, max, members.len(), path)?;
    fit_entries(alloc, item_type, key_max, members, path)
}

#[cycle(fit_at)]
fn fit_entries(
    alloc: Global,
    item_type: &CelType,
    key_max: u32,
    members: &[(&str, Part<'_, '_>)],
    path: &Path<'_>,
) -> Result<TextMap<Value>, FitError>
    requires { AreInOrder members.now }
    ensures exact { Answers
        (seen_entries (reader_of item_type.now).1 key_max (path_text path.now) (members_of members.now)) result }
    ensures fits { IfOk result (λ entries. IsTrue (list_all (entry_fits key_max item_type.now) entries)) }
{
    let mut entries = Vec::with_capacity(alloc, members.len())?;
    for member in members {
        entries.push(fit_entry(alloc, item_type, key_max, member.0, &member.1, path)?)?;
    }
    Ok(TextMap::from_vec(entries))
}

#[cycle(fit_at)]
fn fit_entry(
    alloc: Global,
    item_type: &CelType,
    key_max: u32,
    name: &str,
    member: &Part<'_, '_>,
    path: &Path<'_>,
) -> Result<Keyed<Value>, FitError>
    ensures exact { Answers (seen_entry (reader_of item_type.now).1 key_max (path_text path.now) name.now member.now) result }
    ensures fits { IfOk result (λ e. IsTrue (entry_fits key_max item_type.now e)) }
{
    let place = Path::Field(&*path, &*name);
    check_key(alloc, key_max, name, &place)?;
    under(alloc, name, fit_at(alloc, item_type, member, &place))
}

#[cycle(fit_at)]
fn object_at(
    alloc: Global,
    fields: &TextMap<Field<CelType>>,
    document: &Part<'_, '_>,
    path: &Path<'_>,
) -> Result<Value, FitError>
    ensures exact { Answers (seen (path_text path.now) (type.Object fields.now) document.now) result }
    ensures fits { IfOk result (λ value. IsTrue (fits value (type.Object fields.now))) }
{
    match document.members(alloc)? {
        Some(members) => object_value(fit_object(alloc, fields, members.as_slice(), path)),
        None => Err(misfit(alloc, document, path)),
    }
}

#[cycle(fit_at)]
fn fit_object(
    alloc: Global,
    fields: &TextMap<Field<CelType>>,
    members: &[(&str, Part<'_, '_>)],
    path: &Path<'_>,
) -> Result<TextMap<Value>, FitError>
    requires { AreInOrder members.now }
    ensures exact { Answers (seen_object (readers_of fields.now) (path_text path.now) (members_of members.now)) result }
    ensures fits { IfOk result (λ entries. IsTrue (fits (V.Object entries) (type.Object fields.now))) }
{
    complete(
        alloc,
        fields,
        fit_members(alloc, fields, members, path),
        path,
    )
}

#[cycle(fit_at)]
fn fit_members(
    alloc: Global,
    fields: &TextMap<Field<CelType>>,
    members: &[(&str, Part<'_, '_>)],
    path: &Path<'_>,
) -> Result<TextMap<Value>, FitError>
    requires { AreInOrder members.now }
    ensures exact { Answers (seen_members (readers_of fields.now) (path_text path.now) (members_of members.now)) result }
    ensures fits { IfOk result (All (HasItsField fields.now)) }
    ensures ordered { IfOk result IsInKeyOrder }
{
    let all = fields.as_slice();
    let mut place = 0;
    let mut entries = Vec::with_capacity(alloc, members.len())?;
    for member in members {
        place = place_from(all, place, member.0);
        let entry = fit_member(alloc, fields, place, member.0, &member.1, path)?;
        push_entry(&mut entries, entry)?;
    }
    Ok(TextMap::from_vec(entries))
}

/// Pushes an entry, if there is one.
fn push_entry(
    entries: &mut Vec<Keyed<Value>>,
    entry: Option<Keyed<Value>>,
) -> Result<(), AllocError>
    ensures { OnOk result (entries.new.items ≡ entries.old.items ++ option_to_list entry) }
{
    match entry {
        Some(entry) => Ok(entries.push(entry)?),
        None => Ok(()),
    }
}

/// The entry of one member, if the field at a place has its name and it does not count as absent.
#[cycle(fit_at)]
fn fit_member(
    alloc: Global,
    fields: &TextMap<Field<CelType>>,
    place: usize,
    name: &str,
    member: &Part<'_, '_>,
    path: &Path<'_>,
) -> Result<Option<Keyed<Value>>, FitError>
    ensures exact { Answers
        (seen_member (first_under name.now (readers_of (drop place fields.now))) (path_text path.now) name.now member.now)
        result }
    ensures fits { IfOk result (λ entry. IfSome entry (HasItsField fields.now)) }
{
    let fields = fields.as_slice();
    if !is_at(fields, place, name) {
        return Ok(None);
    }
    let field = &fields[place];
    let cel_type = &field.value.cel_type;
    fit_field(alloc, cel_type, field.value.required, name, member, path)
}

#[cycle(fit_at)]
fn fit_field(
    alloc: Global,
    cel_type: &CelType,
    required: bool,
    name: &str,
    member: &Part<'_, '_>,
    path: &Path<'_>,
) -> Result<Option<Keyed<Value>>, FitError>
    ensures exact { Answers (seen_field required (reader_of cel_type.now) (path_text path.now) name.now member.now) result }
    ensures fits { IfOk result (λ entry. IfSome entry (λ e. (e.key ≡ name.now) × IsTrue (fits e.value cel_type.now))) }
{
    if is_absent(cel_type, required, member) {
        return Ok(None);
    }
    let value = fit_at(alloc, cel_type, member, &Path::Field(&*path, &*name))?;
    let key = Text::from_str(alloc, name)?;
    Ok(Some(Keyed { key, value }))
}

fn list_value(items: Result<Items<Value>, FitError>) -> Result<Value, FitError>
    ensures { result ≡ made V.List items }
{
    Ok(Value::List(items?))
}

fn map_value(entries: Result<TextMap<Value>, FitError>) -> Result<Value, FitError>
    ensures { result ≡ made V.Map entries }
{
    Ok(Value::Map(entries?))
}

fn object_value(entries: Result<TextMap<Value>, FitError>) -> Result<Value, FitError>
    ensures { result ≡ made V.Object entries }
{
    Ok(Value::Object(entries?))
}

/// The entry of a value under its name.
fn under(
    alloc: Global,
    name: &str,
    value: Result<Value, FitError>,
) -> Result<Keyed<Value>, FitError>
    ensures exact { Carries value result (λ v. Ok (record { key = name.now; value = v })) }
    ensures named { IfOk result (λ e. e.key ≡ name.now) }
    ensures kept { IfOk result (λ e. value ≡ Ok e.value) }
{
    let value = value?;
    let key = Text::from_str(alloc, name)?;
    Ok(Keyed { key, value })
}

/// The items of an array, if they are not too many.
fn items_within<'a, 't, 'b>(
    alloc: Global,
    max: u32,
    items: &'a [Part<'t, 'b>],
    path: &Path<'_>,
) -> Result<&'a [Part<'t, 'b>], FitError>
    ensures same { IfOk result (λ kept. kept.now ≡ items.now) }
    ensures limit { Answers (within max (length items.now) (path_text path.now)) (made (λ _. tt) result) }
{
    check_limit(alloc, max, items.len(), path)?;
    Ok(items)
}

/// An object's entries, if every required field has one: what is wrong in a member is reported before a field's absence.
fn complete(
    alloc: Global,
    fields: &TextMap<Field<CelType>>,
    entries: Result<TextMap<Value>, FitError>,
    path: &Path<'_>,
) -> Result<TextMap<Value>, FitError>
    ensures exact { Carries entries result (if_all_there (readers_of fields.now) (path_text path.now)) }
    ensures fits { IfOk entries (All (HasItsField fields.now))
        → IfOk result (λ es. IsTrue (fits (V.Object es) (type.Object fields.now))) }
{
    let entries = entries?;
    check_all_there(alloc, fields.as_slice(), entries.as_slice(), path)?;
    Ok(entries)
}

/// Whether null counts as the absence of an optional field.
fn is_absent(cel_type: &CelType, required: bool, member: &Part<'_, '_>) -> bool
    ensures { result ≡ is_absent required (reader_of cel_type.now) member.now }
{
    member.is_null() && !required && !has_null(cel_type)
}

fn has_null(cel_type: &CelType) -> bool
    ensures { result ≡ (reader_of cel_type.now).0 }
{
    matches!(cel_type, CelType::Null | CelType::Nullable(_))
}

fn check_all_there(
    alloc: Global,
    fields: &[Keyed<Field<CelType>>],
    entries: &[Keyed<Value>],
    path: &Path<'_>,
) -> Result<(), FitError>
    requires fields_ordered { IsInKeyOrder fields.now }
    requires entries_ordered { IsInKeyOrder entries.now }
    ensures { Answers (all_there (readers_of fields.now) (path_text path.now) entries.now) result }
{
    let mut place = 0;
    for field in fields {
        let name = field.key.as_str();
        place = place_from(entries, place, name);
        if field.value.required && !is_at(entries, place, name) {
            return Err(refusal(alloc, FitFaultKind::Missing, &Path::Field(path, name)));
        }
    }
    Ok(())
}

fn check_key(alloc: Global, key_max: u32, name: &str, place: &Path<'_>) -> Result<(), FitError>
    ensures { Answers (within key_max (code_points name.now) (path_text place.now)) result }
{
    check_limit(alloc, key_max, code_points(name), place)
}
