//! The places of names among entries by key, for names in ascending order.

ghost use Rattle.std.specs.Prelude.{◌≡◌, ◌+◌, ◌≤◌, ◌<◌, length, drop, IsTrue, is_some};
ghost use Rattle.vap_schema.specs.InStep.{count_before, first_under};

use base_containers::Keyed;

/// The first place, from a given one on, whose entry is not before a name.
pub fn place_from<V>(entries: &[Keyed<V>], from: usize, name: &str) -> usize
    requires { from ≤ length entries.now }
    ensures value { result ≡ from + count_before name.now (drop from entries.now) }
    ensures within { result ≤ length entries.now }
{
    let mut place = from;
    while place < entries.len() {
        if entries[place].key.as_str() >= name {
            return place;
        }
        place += 1;
    }
    place
}

/// Whether the entry at a place is under a name.
pub fn is_at<V>(entries: &[Keyed<V>], place: usize, name: &str) -> bool
    ensures value { result ≡ is_some (first_under name.now (drop place entries.now)) }
    ensures within { IsTrue result → place < length entries.now }
{
    place < entries.len() && entries[place].key.as_str() == name
}
