//! JSON documents.

ghost use Rattle.std.specs.Prelude.{◌≡◌, ◌↔◌, IsTrue};
ghost use Rattle.serde_json.specs.View.{view, number_view, items_view, members_view};

use crate::document::Document;
use base_containers::Same;
use serde_json::{Map, Number, Value as Json};
use std::num::f64_to_bits_with_nan;

impl Same for Document {
    fn same(&self, other: &Document) -> bool {
        same_json(self.json(), other.json())
    }
}

/// Two floats by their bits, since 0.0 and -0.0 are written in two ways.
fn same_float(left: f64, right: f64) -> bool
    ensures { IsTrue result ↔ (left ≡ right) }
{
    f64_to_bits_with_nan(left) == f64_to_bits_with_nan(right)
}

/// Two numbers as they are kept: 1 and 1.0 are two.
fn same_number(left: &Number, right: &Number) -> bool
    ensures { IsTrue result ↔ (number_view left.now ≡ number_view right.now) }
{
    if left.is_f64() != right.is_f64() {
        return false;
    }
    match (left.as_f64(), right.as_f64()) {
        (Some(one), Some(other)) if left.is_f64() => same_float(one, other),
        _ => left.as_u64() == right.as_u64() && left.as_i64() == right.as_i64(),
    }
}

/// Whether two documents hold the same.
#[cycle(documents)]
fn same_json(left: &Json, right: &Json) -> bool
    ensures { IsTrue result ↔ (view left.now ≡ view right.now) }
{
    match (left, right) {
        (Json::Null, Json::Null) => true,
        (Json::Bool(one), Json::Bool(other)) => *one == *other,
        (Json::Number(one), Json::Number(other)) => same_number(one, other),
        (Json::String(one), Json::String(other)) => one.as_str() == other.as_str(),
        (Json::Array(one), Json::Array(other)) => same_items(one.as_slice(), other.as_slice()),
        (Json::Object(one), Json::Object(other)) => same_members(one, other),
        _ => false,
    }
}

/// Whether two lists hold the same, item by item.
#[cycle(documents)]
fn same_items(left: &[Json], right: &[Json]) -> bool
    ensures { IsTrue result ↔ (items_view left.now ≡ items_view right.now) }
{
    let mut rest = right;
    for item in left {
        match rest {
            [other, more @ ..] if same_json(item, other) => rest = more,
            _ => return false,
        }
    }
    rest.is_empty()
}

/// Whether two objects have the same members. Members are in the order of their names, whatever their order was in the text.
#[cycle(documents)]
fn same_members(left: &Map<String, Json>, right: &Map<String, Json>) -> bool
    ensures { IsTrue result ↔ (members_view left.now.entries ≡ members_view right.now.entries) }
{
    let mut others = right.iter();
    for (name, member) in left {
        let Some((other, value)) = others.next() else {
            return false;
        };
        if name.as_str() != other.as_str() || !same_json(member, value) {
            return false;
        }
    }
    others.next().is_none()
}
