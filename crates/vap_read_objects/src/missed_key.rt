//! Events that do not touch a key.

ghost use Rattle.std.specs.Prelude.{◌≡◌};
ghost use Rattle.vap_read_objects.specs.Classes.{all_miss, is_key, misses};

use vap_read::{Event, Key};

fn is_missed(event: &Event, key: &Key) -> bool
    ensures { result ≡ misses (is_key key.now) event.now }
{
    match event {
        Event::Put(object) => !key.cmp(&object.get().key).is_eq(),
        Event::Removed(removed) => !key.cmp(removed.get()).is_eq(),
        Event::Passed => true,
        Event::Replaced(_) => false,
    }
}

/// Whether none of these events touches a key.
pub fn misses_key(events: &[Event], key: &Key) -> bool
    ensures { result ≡ all_miss (is_key key.now) events.now }
{
    for event in events {
        if !is_missed(event, key) {
            return false;
        }
    }
    true
}
