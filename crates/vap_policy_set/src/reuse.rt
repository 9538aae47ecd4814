//! What a set takes over from one before it, if events do not touch that.

ghost use Rattle.std.specs.Prelude.{◌≡◌, true, IfOk, IsTrue};
ghost use Rattle.vap_read_objects.specs.Definitions.{is_definition};
ghost use Rattle.vap_read_objects.specs.Classes.{all_miss, is_binding, is_namespace};
ghost use Rattle.vap_read_objects.specs.OfKind.{namespaces_in};
ghost use Rattle.vap_read_objects.specs.Reuse.{StaysUnless};

use base_containers::Shared;
use std::alloc::{AllocError, Global};
use vap_read::{Event, ObjectMap};
use vap_read_objects::{Objects, all_miss_bindings, all_miss_definitions, all_miss_namespaces};

/// Whether events touch no binding and no definition, and so nothing to which policies are bound.
pub fn leaves_bound(events: &[Event]) -> bool
    ensures { IsTrue result → (all_miss is_binding events.now ≡ true) × (all_miss is_definition events.now ≡ true) }
{
    all_miss_bindings(events) && all_miss_definitions(events)
}

/// The Namespaces after events.
pub fn namespaces_after(
    alloc: Global,
    old: &Shared<ObjectMap>,
    objects: &Objects,
    events: &[Event],
) -> Result<Shared<ObjectMap>, AllocError>
    requires { StaysUnless is_namespace events.now (old.now ≡ namespaces_in objects.now.objects) }
    ensures { IfOk result (λ found. found ≡ namespaces_in objects.now.objects) }
{
    if all_miss_namespaces(events) {
        old.share()
    } else {
        Shared::new(alloc, objects.namespaces(alloc)?)
    }
}
