//! Lists by names, in which a name may occur more than once.

ghost use Rattle.std.specs.Prelude.{◌≡◌, ◌≤◌, [], ◌∷◌, length, OnOk};
ghost use Rattle.std.specs.Cmp.Lexicographic.{slice_cmp};
ghost use Rattle.std.specs.List.Sorted.{IsSortedByKey};
ghost use Rattle.std.specs.Ordering.{is_lt, nat_cmp};
ghost use Rattle.base_containers.specs.Keys.{place_for};
ghost use Rattle.vap_read_objects.specs.ByName.{Adds};

use base_containers::{Keyed, Text};
use std::alloc::AllocError;

/// Where a name goes: before the first that is above it.
fn place_for<V>(entries: &[Keyed<V>], name: &str) -> usize
    ensures place { result ≡ place_for name.now entries.now }
    ensures within { result ≤ length entries.now }
{
    let mut place = 0;
    for entry in entries {
        if name < entry.key.as_str() {
            return place;
        }
        place += 1;
    }
    place
}

fn is_above<V>(entry: &Keyed<V>, name: &str) -> bool
    ensures { result ≡ is_lt (slice_cmp nat_cmp name.now entry.now.key) }
{
    name < entry.key.as_str()
}

/// Where a name goes among entries by name: after all of them, unless the last is above it.
fn place_of<V>(entries: &[Keyed<V>], name: &str) -> usize
    ensures place { IsSortedByKey (λ e. e.key) (slice_cmp nat_cmp) entries.now → result ≡ place_for name.now entries.now }
    ensures within { result ≤ length entries.now }
{
    match entries.last() {
        Some(last) if !is_above(last, name) => entries.len(),
        _ => place_for(entries, name),
    }
}

/// Puts a value under a name, after the others of that name. So a list by name becomes the list by name with one more entry.
pub fn put_named<V: Drop>(
    entries: &mut Vec<Keyed<V>>,
    name: Text,
    value: V,
) -> Result<(), AllocError>
    ensures { OnOk result (Adds (record { key = name; value = value } ∷ []) entries.old.items entries.new.items) }
{
    let place = place_of(entries.as_slice(), name.as_str());
    entries.insert(place, Keyed { key: name, value })?;
    Ok(())
}
