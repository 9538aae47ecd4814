//! Events that touch no policy, binding or definition.

ghost use Rattle.std.specs.Prelude.{◌≡◌};
ghost use Rattle.vap_read_objects.specs.Classes.{all_miss, is_rule, misses};

use crate::classes::is_rule;
use vap_read::Event;

fn misses_rules(event: &Event) -> bool
    ensures { result ≡ misses is_rule event.now }
{
    match event {
        Event::Put(object) => !is_rule(&object.get().key),
        Event::Removed(key) => !is_rule(key.get()),
        Event::Passed => true,
        Event::Replaced(_) => false,
    }
}

/// Whether none of these events touches a policy, a binding or a definition.
pub fn all_miss_rules(events: &[Event]) -> bool
    ensures { result ≡ all_miss is_rule events.now }
{
    for event in events {
        if !misses_rules(event) {
            return false;
        }
    }
    true
}
