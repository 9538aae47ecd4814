//! The names of conditions, variables and annotations, each of which occurs once.

ghost use Rattle.std.specs.Prelude.{◌≡◌};
ghost use Rattle.std.specs.List.{list_any};
ghost use Rattle.std.specs.Str.{bytes_eq};
ghost use Rattle.serde_json.specs.View.{view, items_view};
ghost use Rattle.vap_read.specs.PolicyForm.{names_in, are_distinct, has_distinct_names};

use serde_json::Value as Json;
use vap_match::{items_in, text_in};

/// Whether an item has this name under a key.
fn is_named(items: &[Json], key: &str, name: &str) -> bool
    ensures { result ≡ list_any (bytes_eq name.now) (names_in key.now (items_view items.now)) }
{
    for item in items {
        if name == text_in(item, key) {
            return true;
        }
    }
    false
}

fn are_distinct(items: &[Json], key: &str) -> bool
    ensures { result ≡ are_distinct (names_in key.now (items_view items.now)) }
{
    for (place, item) in items.iter().enumerate() {
        if is_named(&items[place + 1..], key, text_in(item, key)) {
            return false;
        }
    }
    true
}

/// Whether no two conditions, no two variables and no two annotations have one name.
pub fn has_distinct_names(json: &Json) -> bool
    ensures { result ≡ has_distinct_names (view json.now) }
{
    are_distinct(items_in(json, "matchConditions"), "name")
        && are_distinct(items_in(json, "variables"), "name")
        && are_distinct(items_in(json, "auditAnnotations"), "key")
}
