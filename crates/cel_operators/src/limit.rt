//! What types say of the values of a kind. Null may be one of a type's values: it is an error then, and of no kind.

ghost use Rattle.std.specs.Prelude.{◌≡◌, IfOk, option_copied, option_map, option_and_then};
ghost use Rattle.cel_value.specs.declared.cel_type.CelType.{out-CelType};
ghost use Rattle.cel_operators.specs.Limits.{room_of};
ghost use Rattle.cel_operators.specs.Wants.{Whole, Natural, Moment, Lapse, Ordered, Characters, Items, Entries, Indexed, Sought};
ghost use Rattle.cel_operators.specs.Wants.{Wholes, Naturals, Texts};
ghost use Rattle.cel_operators.specs.TextOperators.{type_under, field_named};
ghost use Rattle.cel_operators.specs.Wants.{Members, Ranged, limit_of, wholes_limit, naturals_limit, texts_limit, is_truth, is_there};

use crate::operands::{Want, without_null};
use base_containers::{Shared, TextMap};
use cel_value::{CelType, Field};
use std::alloc::{AllocError, Global};

/// What a type says of its lists: the most items, whether they are plain, and the type of the items.
#[derive(Clone, Copy)]
pub struct ListLimit<'a> {
    pub max: u32,
    pub plain: bool,
    pub item: &'a CelType,
}

/// What a type says of a range: the most items, and the type of each.
#[derive(Drop)]
pub struct Span {
    pub max: u32,
    pub item: Shared<CelType>,
}

/// Whether a type may be used where an operand of a kind is expected.
pub fn takes(want: Want, cel_type: &CelType) -> bool
    ensures { result ≡ is_there (limit_of want cel_type.now) }
{
    match want {
        Want::Any => true,
        Want::Truth => is_truth(cel_type),
        Want::Whole => is_whole(cel_type),
        Want::Natural => is_natural(cel_type),
        Want::Moment => is_moment(cel_type),
        Want::Lapse => is_lapse(cel_type),
        Want::Ordered => is_ordered(cel_type),
        Want::Characters => text_limit(cel_type).is_some(),
        Want::Items => list_limit(cel_type).is_some(),
        Want::Entries => is_map(cel_type),
        Want::Indexed => item_of(cel_type).is_some(),
        Want::Sought => entry_of(cel_type).is_some(),
        Want::Wholes => ints_limit(cel_type).is_some(),
        Want::Naturals => uints_limit(cel_type).is_some(),
        Want::Texts => texts_limit(cel_type).is_some(),
        Want::Members => has_members(cel_type),
        Want::Ranged => most_items(cel_type).is_some(),
    }
}

/// Whether a type may be used where a truth value is expected.
pub fn is_truth(cel_type: &CelType) -> bool
    ensures { result ≡ is_truth cel_type.now }
{
    matches!(without_null(cel_type), CelType::Never | CelType::Bool)
}

/// Whether a type may be used where an integer is expected.
pub fn is_whole(cel_type: &CelType) -> bool
    ensures { result ≡ is_there (limit_of Whole cel_type.now) }
{
    matches!(without_null(cel_type), CelType::Never | CelType::Int)
}

/// Whether a type may be used where an unsigned integer is expected.
pub fn is_natural(cel_type: &CelType) -> bool
    ensures { result ≡ is_there (limit_of Natural cel_type.now) }
{
    matches!(without_null(cel_type), CelType::Never | CelType::Uint)
}

/// Whether a type may be used where a timestamp is expected.
fn is_moment(cel_type: &CelType) -> bool
    ensures { result ≡ is_there (limit_of Moment cel_type.now) }
{
    matches!(without_null(cel_type), CelType::Never | CelType::Timestamp)
}

/// Whether a type may be used where a duration is expected.
fn is_lapse(cel_type: &CelType) -> bool
    ensures { result ≡ is_there (limit_of Lapse cel_type.now) }
{
    matches!(without_null(cel_type), CelType::Never | CelType::Duration)
}

/// Whether a type may be used where a value that has an order is expected.
pub fn is_ordered(cel_type: &CelType) -> bool
    ensures { result ≡ is_there (limit_of Ordered cel_type.now) }
{
    matches!(
        without_null(cel_type),
        CelType::Never
            | CelType::Bool
            | CelType::Int
            | CelType::Uint
            | CelType::Text { .. }
            | CelType::Timestamp
            | CelType::Duration
    )
}

/// Whether a type may be used where a map is expected.
fn is_map(cel_type: &CelType) -> bool
    ensures { result ≡ is_there (limit_of Entries cel_type.now) }
{
    matches!(without_null(cel_type), CelType::Never | CelType::Map { .. })
}

/// The most code points of a text, if a type may be used for one.
pub fn text_limit(cel_type: &CelType) -> Option<u32>
    ensures { result ≡ limit_of Characters cel_type.now }
{
    match without_null(cel_type) {
        CelType::Never => Some(0),
        CelType::Text { max } => Some(*max),
        _ => None,
    }
}

/// What a type says of its lists. Never has empty ones, whose items are of type Never.
pub fn list_limit(cel_type: &CelType) -> Option<ListLimit<'_>>
    ensures { option_map room_of result ≡ limit_of Items cel_type.now }
{
    let cel_type = without_null(cel_type);
    match cel_type {
        CelType::Never => Some(ListLimit {
            max: 0,
            plain: true,
            item: cel_type,
        }),
        CelType::List { max, plain, item } => Some(ListLimit {
            max: *max,
            plain: *plain,
            item: item.get(),
        }),
        _ => None,
    }
}

/// The type of the items that an index takes from a list.
pub fn item_of(cel_type: &CelType) -> Option<&CelType>
    ensures { option_copied result ≡ option_map (λ room. room.item) (limit_of Indexed cel_type.now) }
{
    match without_null(cel_type) {
        CelType::List { item, .. } => Some(item.get()),
        _ => None,
    }
}

/// The type of what an index takes from a map.
pub fn entry_of(cel_type: &CelType) -> Option<&CelType>
    ensures { option_copied result ≡ option_map (λ store. store.item) (limit_of Sought cel_type.now) }
{
    match without_null(cel_type) {
        CelType::Map { item, .. } => Some(item.get()),
        _ => None,
    }
}

/// The most integers, if a type may be used for a list of them.
pub fn ints_limit(cel_type: &CelType) -> Option<u32>
    ensures { result ≡ limit_of Wholes cel_type.now }
{
    match without_null(cel_type) {
        CelType::Never => Some(0),
        CelType::List { max, item, .. } => ints_in(*max, item.get()),
        _ => None,
    }
}

fn ints_in(max: u32, item: &CelType) -> Option<u32>
    ensures { result ≡ wholes_limit max (out-CelType item.now) }
{
    match item {
        CelType::Never | CelType::Int => Some(max),
        _ => None,
    }
}

/// The most unsigned integers, likewise.
pub fn uints_limit(cel_type: &CelType) -> Option<u32>
    ensures { result ≡ limit_of Naturals cel_type.now }
{
    match without_null(cel_type) {
        CelType::Never => Some(0),
        CelType::List { max, item, .. } => uints_in(*max, item.get()),
        _ => None,
    }
}

fn uints_in(max: u32, item: &CelType) -> Option<u32>
    ensures { result ≡ naturals_limit max (out-CelType item.now) }
{
    match item {
        CelType::Never | CelType::Uint => Some(max),
        _ => None,
    }
}

/// The most texts and the most code points of each, if a type may be used for a list of texts.
pub fn texts_limit(cel_type: &CelType) -> Option<(u32, u32)>
    ensures { result ≡ option_map (λ shelf. (shelf.max, shelf.text_max)) (limit_of Texts cel_type.now) }
{
    match without_null(cel_type) {
        CelType::Never => Some((0, 0)),
        CelType::List { max, item, .. } => texts_in(*max, item.get()),
        _ => None,
    }
}

fn texts_in(max: u32, item: &CelType) -> Option<(u32, u32)>
    ensures { result ≡ option_map (λ shelf. (shelf.max, shelf.text_max)) (texts_limit max (out-CelType item.now)) }
{
    match item {
        CelType::Never => Some((max, 0)),
        CelType::Text { max: text_max } => Some((max, *text_max)),
        _ => None,
    }
}

/// Whether a type is that of objects or maps.
fn has_members(cel_type: &CelType) -> bool
    ensures { result ≡ is_there (limit_of Members cel_type.now) }
{
    matches!(
        without_null(cel_type),
        CelType::Object { .. } | CelType::Map { .. }
    )
}

/// The most items of a range, if a type is that of lists or maps.
pub fn most_items(cel_type: &CelType) -> Option<u32>
    ensures { result ≡ option_map (λ span. span.max) (limit_of Ranged cel_type.now) }
{
    match without_null(cel_type) {
        CelType::List { max, .. } | CelType::Map { max, .. } => Some(*max),
        _ => None,
    }
}

/// What a type says of its ranges: of the items of lists, or of the keys of maps, which are texts.
pub fn span_of(alloc: Global, cel_type: &CelType) -> Result<Option<Span>, AllocError>
    ensures { IfOk result (λ span. span ≡ limit_of Ranged cel_type.now) }
{
    match without_null(cel_type) {
        CelType::List { max, item, .. } => Ok(Some(Span {
            max: *max,
            item: item.share()?,
        })),
        CelType::Map { max, key_max, .. } => Ok(Some(Span {
            max: *max,
            item: Shared::new(alloc, CelType::Text { max: *key_max })?,
        })),
        _ => Ok(None),
    }
}

/// The type of what is under a name in objects or maps.
pub fn field_of<'t>(name: &str, cel_type: &'t CelType) -> Option<&'t CelType>
    ensures { option_copied result ≡ option_and_then (type_under name.now) (limit_of Members cel_type.now) }
{
    match without_null(cel_type) {
        CelType::Object { fields } => match field_named(name, fields.get()) {
            Some(field) => Some(&field.cel_type),
            None => None,
        },
        CelType::Map { item, .. } => Some(item.get()),
        _ => None,
    }
}

// The field of a name. One alone has it, since a map has each key once.
fn field_named<'t>(name: &str, fields: &'t TextMap<Field<CelType>>) -> Option<&'t Field<CelType>>
    ensures { option_copied result ≡ field_named name.now fields.now }
{
    let _in_order = fields.as_slice();
    fields.get(name)
}
