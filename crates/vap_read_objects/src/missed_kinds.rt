//! Events that touch no object of a kind.

ghost use Rattle.std.specs.Prelude.{◌≡◌};
ghost use Rattle.vap_read_objects.specs.Definitions.{is_definition};
ghost use Rattle.vap_read.specs.Keys.{is_of};
ghost use Rattle.vap_read_objects.specs.Classes.{all_miss, is_binding, is_namespace, misses};

use crate::classes::is_of;
use vap_read::Event;

fn misses_kind(event: &Event, api_version: &str, kind: &str) -> bool
    ensures { result ≡ misses (is_of api_version.now kind.now) event.now }
{
    match event {
        Event::Put(object) => !is_of(api_version, kind, &object.get().key),
        Event::Removed(key) => !is_of(api_version, kind, key.get()),
        Event::Passed => true,
        Event::Replaced(_) => false,
    }
}

/// Whether none of these events touches an object of a version and kind.
pub fn all_miss_kind(events: &[Event], api_version: &str, kind: &str) -> bool
    ensures { result ≡ all_miss (is_of api_version.now kind.now) events.now }
{
    for event in events {
        if !misses_kind(event, api_version, kind) {
            return false;
        }
    }
    true
}

/// Whether none of these events touches a Namespace.
pub fn all_miss_namespaces(events: &[Event]) -> bool
    ensures { result ≡ all_miss is_namespace events.now }
{
    all_miss_kind(events, "v1", "Namespace")
}

/// Whether none of these events touches a definition.
pub fn all_miss_definitions(events: &[Event]) -> bool
    ensures { result ≡ all_miss is_definition events.now }
{
    all_miss_kind(
        events,
        "apiextensions.k8s.io/v1",
        "CustomResourceDefinition",
    )
}

/// Whether none of these events touches a binding.
pub fn all_miss_bindings(events: &[Event]) -> bool
    ensures { result ≡ all_miss is_binding events.now }
{
    all_miss_kind(
        events,
        "admissionregistration.k8s.io/v1",
        "ValidatingAdmissionPolicyBinding",
    )
}
