//! How much objects count towards each limit.

ghost use Rattle.std.specs.Prelude.{◌≡◌, ◌+◌};
ghost use Rattle.std.specs.List.Sorted.{IsStrictlySortedBy};
ghost use Rattle.std.specs.BTreeMap.{is_at};
ghost use Rattle.std.specs.Map.{keys_of, remove_entry};
ghost use Rattle.vap_read.specs.Keys.{key_cmp, with_object};
ghost use Rattle.vap_read_objects.specs.After.{objects_after};
ghost use Rattle.vap_read_objects.specs.Limits.{policy_count, binding_count, versions_in, weight, limit, total, held_weight, is_few};
ghost use Rattle.vap_read_objects.specs.Limits.{AreFew};
ghost use Rattle.vap_read_objects.specs.Limits.{counted_in, totals_of};

use crate::definition::{is_definition, version_count};
use vap_read::{Content, Event, Key, Object, ObjectMap};

/// What there may not be too much of.
#[derive(Clone, Copy)]
pub enum Counted {
    Objects,
    Policies,
    Bindings,
    /// The versions of definitions.
    Versions,
}

/// How much objects count towards each limit.
#[derive(Clone, Copy)]
pub struct Totals {
    pub objects: usize,
    pub policies: usize,
    pub bindings: usize,
    pub versions: usize,
}

fn policy_count(content: &Content) -> usize
    ensures { result ≡ policy_count content.now }
{
    match content {
        Content::Policy(_) => 1,
        Content::Binding(_) => 0,
        Content::Other => 0,
    }
}

fn binding_count(content: &Content) -> usize
    ensures { result ≡ binding_count content.now }
{
    match content {
        Content::Policy(_) => 0,
        Content::Binding(_) => 1,
        Content::Other => 0,
    }
}

fn versions_in(object: &Object) -> usize
    ensures { result ≡ versions_in object.now }
{
    if is_definition(&object.key) {
        version_count(object.document.json())
    } else {
        0
    }
}

/// How much an object counts.
pub fn weight(counted: Counted, object: &Object) -> usize
    ensures { result ≡ weight counted object.now }
{
    match counted {
        Counted::Objects => 1,
        Counted::Policies => policy_count(&object.content),
        Counted::Bindings => binding_count(&object.content),
        Counted::Versions => versions_in(object),
    }
}

/// How much all may count.
pub fn limit(counted: Counted) -> usize
    ensures { result ≡ limit counted }
{
    match counted {
        Counted::Objects => 4096,
        Counted::Policies => 256,
        Counted::Bindings => 256,
        Counted::Versions => 2048,
    }
}

/// Whether objects count no more than they may.
#[tactic(auto, using(std::proofs::lemmas::Bool::Decides::nat_tests))]
pub fn is_few(counted: Counted, objects: &ObjectMap) -> bool
    ensures { result ≡ is_few objects.now counted }
{
    let mut left = limit(counted);
    for (_, object) in objects.iter() {
        let own = weight(counted, object.get());
        if own > left {
            return false;
        }
        left -= own;
    }
    true
}

/// How much objects that are within the limits count.
#[tactic(auto, using(crate::proofs::Counts::small_total))]
fn total(counted: Counted, objects: &ObjectMap) -> usize
    requires { AreFew objects.now }
    ensures { result ≡ total (weight counted) objects.now }
{
    let mut sum = 0;
    for (_, object) in objects.iter() {
        sum += weight(counted, object.get());
    }
    sum
}

/// How much objects within the limits count towards each.
fn totals_of(objects: &ObjectMap) -> Totals
    requires { AreFew objects.now }
    ensures { result ≡ totals_of objects.now }
{
    Totals {
        objects: total(Counted::Objects, objects),
        policies: total(Counted::Policies, objects),
        bindings: total(Counted::Bindings, objects),
        versions: total(Counted::Versions, objects),
    }
}

fn counted_in(counted: Counted, totals: Totals) -> usize
    ensures { result ≡ counted_in counted totals }
{
    match counted {
        Counted::Objects => totals.objects,
        Counted::Policies => totals.policies,
        Counted::Bindings => totals.bindings,
        Counted::Versions => totals.versions,
    }
}

fn held_weight(counted: Counted, key: &Key, objects: &ObjectMap) -> usize
    ensures exact { result ≡ held_weight counted key.now objects.now }
    ensures ordered { IsStrictlySortedBy key_cmp (keys_of objects.now) }
{
    // Its clause says that they are in order.
    let _entries = objects.iter();
    match objects.get(key) {
        Some(object) => weight(counted, object.get()),
        None => 0,
    }
}

/// How much objects count, except for the one under a key.
#[tactic(auto, using(crate::proofs::Counts::held_within, crate::proofs::Counts::told_total))]
pub fn others(counted: Counted, key: &Key, totals: Totals, objects: &ObjectMap) -> usize
    requires { totals ≡ totals_of objects.now }
    ensures others { result + held_weight counted key.now objects.now ≡ total (weight counted) objects.now }
    ensures ordered { IsStrictlySortedBy key_cmp (keys_of objects.now) }
{
    counted_in(counted, totals) - held_weight(counted, key, objects)
}

/// How much objects count with one put among them.
fn one_put(counted: Counted, object: &Object, totals: Totals, objects: &ObjectMap) -> usize
    requires totals { totals ≡ totals_of objects.now }
    requires few { AreFew (with_object object.now objects.now) }
    ensures { result ≡ total (weight counted) (with_object object.now objects.now) }
{
    let rest = others(counted, &object.key, totals, objects);
    let own = weight(counted, object);
    rest + own
}

fn all_put(object: &Object, totals: Totals, objects: &ObjectMap) -> Totals
    requires totals { totals ≡ totals_of objects.now }
    requires few { AreFew (with_object object.now objects.now) }
    ensures { result ≡ totals_of (with_object object.now objects.now) }
{
    Totals {
        objects: one_put(Counted::Objects, object, totals, objects),
        policies: one_put(Counted::Policies, object, totals, objects),
        bindings: one_put(Counted::Bindings, object, totals, objects),
        versions: one_put(Counted::Versions, object, totals, objects),
    }
}

/// How much objects count without the one under a key.
fn one_without(counted: Counted, key: &Key, totals: Totals, objects: &ObjectMap) -> usize
    requires { totals ≡ totals_of objects.now }
    ensures { result ≡ total (weight counted) (remove_entry (is_at (key_cmp key.now)) objects.now) }
{
    others(counted, key, totals, objects)
}

fn all_without(key: &Key, totals: Totals, objects: &ObjectMap) -> Totals
    requires { totals ≡ totals_of objects.now }
    ensures { result ≡ totals_of (remove_entry (is_at (key_cmp key.now)) objects.now) }
{
    Totals {
        objects: one_without(Counted::Objects, key, totals, objects),
        policies: one_without(Counted::Policies, key, totals, objects),
        bindings: one_without(Counted::Bindings, key, totals, objects),
        versions: one_without(Counted::Versions, key, totals, objects),
    }
}

/// How much objects count after an event that leaves them within the limits.
pub fn totals_after(event: &Event, totals: Totals, objects: &ObjectMap) -> Totals
    requires totals { totals ≡ totals_of objects.now }
    requires few { AreFew (objects_after event.now objects.now) }
    ensures { result ≡ totals_of (objects_after event.now objects.now) }
{
    match event {
        Event::Put(object) => all_put(object.get(), totals, objects),
        Event::Removed(key) => all_without(key.get(), totals, objects),
        Event::Passed => totals,
        Event::Replaced(all) => totals_of(all.get()),
    }
}
