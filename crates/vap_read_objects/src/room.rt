//! Whether there is room for what an event leaves.

ghost use Rattle.std.specs.Prelude.{◌≡◌};
ghost use Rattle.vap_read.specs.Keys.{with_object};
ghost use Rattle.vap_read_objects.specs.After.{objects_after};
ghost use Rattle.vap_read_objects.specs.Limits.{is_few, are_few, totals_of, AreFew};

use crate::tallies::{Counted, Totals, is_few, limit, others, weight};
use vap_read::{Event, Object, ObjectMap};

/// Whether objects are within all limits.
#[tactic(auto, unfolding(crate::specs::Limits::are_few))]
fn are_few(objects: &ObjectMap) -> bool
    ensures { result ≡ are_few objects.now }
{
    is_few(Counted::Objects, objects)
        && is_few(Counted::Policies, objects)
        && is_few(Counted::Bindings, objects)
        && is_few(Counted::Versions, objects)
}

/// Whether objects with one put among them count no more than they may.
#[tactic(auto, using(crate::proofs::Counts::few_limit))]
fn is_few_with(counted: Counted, object: &Object, totals: Totals, objects: &ObjectMap) -> bool
    requires few { AreFew objects.now }
    requires totals { totals ≡ totals_of objects.now }
    ensures { result ≡ is_few (with_object object.now objects.now) counted }
{
    let rest = others(counted, &object.key, totals, objects);
    let own = weight(counted, object);
    let most = limit(counted);
    own <= most - rest
}

/// Whether objects with one put among them are within all limits.
#[tactic(auto, unfolding(crate::specs::Limits::are_few))]
fn are_few_with(object: &Object, totals: Totals, objects: &ObjectMap) -> bool
    requires few { AreFew objects.now }
    requires totals { totals ≡ totals_of objects.now }
    ensures { result ≡ are_few (with_object object.now objects.now) }
{
    is_few_with(Counted::Objects, object, totals, objects)
        && is_few_with(Counted::Policies, object, totals, objects)
        && is_few_with(Counted::Bindings, object, totals, objects)
        && is_few_with(Counted::Versions, object, totals, objects)
}

/// Whether objects within the limits are still within them after an event.
#[tactic(auto, using(crate::proofs::Counts::few_without, crate::proofs::Counts::few_told))]
pub fn has_room(event: &Event, totals: Totals, objects: &ObjectMap) -> bool
    requires few { AreFew objects.now }
    requires totals { totals ≡ totals_of objects.now }
    ensures { result ≡ are_few (objects_after event.now objects.now) }
{
    match event {
        Event::Put(object) => are_few_with(object.get(), totals, objects),
        Event::Removed(_) => true,
        Event::Passed => true,
        Event::Replaced(all) => are_few(all.get()),
    }
}
