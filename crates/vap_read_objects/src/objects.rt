//! The objects of a cluster.

ghost use Rattle.std.specs.Prelude.{◌≡◌, ◌≤◌, ◌↔◌, ℕ, List, length, IsTrue, IfOk, OnOk, OnErr};
ghost use Rattle.std.specs.List.Sorted.{IsStrictlySortedBy};
ghost use Rattle.std.specs.Map.{keys_of};
ghost use Rattle.std.specs.Option.{option_copied};
ghost use Rattle.vap_match.specs.Select.{lent_labels};
ghost use Rattle.vap_read.specs.Keys.{is_of, key_cmp};
ghost use Rattle.vap_read_objects.specs.After.{nothing, after, objects_after};
ghost use Rattle.vap_read_objects.specs.Classes.{of_class};
ghost use Rattle.vap_read_objects.specs.Limits.{takes, IsWithin};
ghost use Rattle.vap_read_objects.specs.ByName.{AreByName};
ghost use Rattle.vap_read_objects.specs.Listed.{policies_among, policies_in, bindings_among, bindings_in, definitions_in, kinds_in};
ghost use Rattle.vap_read_objects.specs.OfKind.{object_at, objects_of_kind, namespaces_in, namespace_key, namespace_labels};

use crate::kind::Kind;
use crate::kinds::kinds_of;
use crate::lists::{bindings_in, definitions_in, policies_in};
use crate::of_kind::{
    entries_of_kind, namespace, namespace_labels, namespaces_in, objects_of_kind,
};
use crate::read_definition::read_all;
use crate::room::has_room;
use crate::tallies::{Totals, totals_after};
use base_containers::{Items, Keyed, Shared};
use std::alloc::{AllocError, Global};
use std::marker::Model;
use vap_match::Labels;
use vap_read::{Binding, Event, Key, Object, ObjectMap, Policy};

/// The objects that events leave, and how many events there were. They are always within the limits.
#[derive(Drop)]
pub struct Objects {
    objects: ObjectMap,
    events: u64,
    /// What a new count of the objects gives.
    totals: Totals,
}

impl Model for Objects {
    ghost use Rattle.std.specs.Prelude.{◌≡◌};
    ghost use Rattle.std.specs.Coded.{codes};
    ghost use Rattle.vap_read.specs.contracts.key.Key as object_key;
    ghost use Rattle.vap_read.specs.contracts.object.Object as kept;
    ghost use Rattle.vap_read_objects.specs.Cluster.{Cluster};
    ghost use Rattle.vap_read_objects.specs.Limits.{IsWithin, totals_of};

    ghost Value = { Cluster };

    ghost coded = { Prim.hlevel (codes, object_key.the_row.coded, kept.the_row.coded) };

    ghost view = { λ o. record { objects = o.objects; events = o.events } };

    ghost invariant = { λ o. IsWithin (record { objects = o.objects; events = o.events }) × (o.totals ≡ totals_of o.objects) };
}

impl Objects {
    /// No objects, before any event.
    pub fn new(alloc: Global) -> Objects
        ensures { result ≡ nothing }
    {
        Objects {
            objects: ObjectMap::new(alloc),
            events: 0,
            totals: Totals {
                objects: 0,
                policies: 0,
                bindings: 0,
                versions: 0,
            },
        }
    }

    /// How many events there were.
    pub fn events(&self) -> u64
        ensures exact { result ≡ self.now.events }
        // As objects always are.
        ensures within { IsWithin self.now }
    {
        self.events
    }

    /// How many objects there are.
    pub fn len(&self) -> usize
        ensures exact { result ≡ length self.now.objects }
        // As objects always are.
        ensures within { IsWithin self.now }
        ensures ordered { IsStrictlySortedBy key_cmp (keys_of self.now.objects) }
    {
        // Its clause says that they are in order.
        let _entries = self.objects.iter();
        self.objects.len()
    }

    /// Equal objects: one more owner of each of them.
    pub fn copy(&self, alloc: Global) -> Result<Objects, AllocError>
        ensures { IfOk result (λ objects. objects ≡ self.now) }
    {
        Ok(Objects {
            objects: self.objects.copy(alloc)?,
            events: self.events,
            totals: self.totals,
        })
    }

    /// Whether the limits hold after an event: 65,536 events, 4,096 objects, among them 256 policies and 256 bindings, and 2,048
    /// versions of definitions, including those that are refused. This takes no memory.
    pub fn takes(&self, event: &Event) -> bool
        ensures { IsTrue result ↔ IsWithin (after event.now self.now) }
    {
        self.is_taken(event)
    }

    fn is_taken(&self, event: &Event) -> bool
        ensures { result ≡ takes event.now self.now }
    {
        self.events < 65_536 && has_room(event, self.totals, &self.objects)
    }

    /// Takes an event in. A refusal leaves all as it was.
    pub fn apply(&mut self, alloc: Global, event: &Event) -> Result<(), AllocError>
        requires { IsWithin (after event.now self.old) }
        ensures ok { OnOk result (self.new ≡ after event.now self.old) }
        ensures err { OnErr result (self.new ≡ self.old) }
    {
        let totals = totals_after(event, self.totals, &self.objects);
        change(alloc, event, &mut self.objects)?;
        self.totals = totals;
        self.events += 1;
        Ok(())
    }

    /// The object under a key.
    pub fn get(&self, key: &Key) -> Option<&Shared<Object>>
        ensures { option_copied result ≡ object_at key.now self.now.objects }
    {
        self.objects.get(key)
    }

    /// The policies by their names.
    #[tactic(auto, using(crate::proofs::Listing::policies_few))]
    pub fn policies(&self, alloc: Global) -> Result<Items<Keyed<Policy>>, AllocError>
        ensures exact { IfOk result (λ policies. policies ≡ policies_in self.now.objects) }
        ensures by_name { IfOk result (AreByName (policies_among self.now.objects)) }
        ensures few { IfOk result (λ policies. length policies ≤ 256) }
    {
        policies_in(alloc, &self.objects)
    }

    /// The bindings by their names.
    #[tactic(auto, using(crate::proofs::Listing::bindings_few))]
    pub fn bindings(&self, alloc: Global) -> Result<Items<Keyed<Binding>>, AllocError>
        ensures exact { IfOk result (λ bindings. bindings ≡ bindings_in self.now.objects) }
        ensures by_name { IfOk result (AreByName (bindings_among self.now.objects)) }
        ensures few { IfOk result (λ bindings. length bindings ≤ 256) }
    {
        bindings_in(alloc, &self.objects)
    }

    /// The definitions of kinds by their names.
    pub fn definitions(&self, alloc: Global) -> Result<Items<Keyed<Shared<Object>>>, AllocError>
        ensures { IfOk result (λ definitions. definitions ≡ definitions_in self.now.objects) }
    {
        definitions_in(alloc, &self.objects)
    }

    /// The kinds that are known or refused, each group, version and name once.
    pub fn kinds(&self, alloc: Global) -> Result<Items<Kind>, AllocError>
        ensures { IfOk result (λ kinds. kinds ≡ kinds_in self.now.objects) }
    {
        let definitions = self.definitions(alloc)?;
        let read = read_all(alloc, definitions.as_slice())?;
        kinds_of(alloc, read.as_slice())
    }

    /// The objects of a version and kind, by namespace, then by name.
    #[tactic(auto, using(crate::proofs::Listing::of_kind_few))]
    pub fn of_kind(
        &self,
        alloc: Global,
        api_version: &str,
        kind: &str,
    ) -> Result<Items<Shared<Object>>, AllocError>
        ensures exact { IfOk result (λ found. found ≡ objects_of_kind api_version.now kind.now self.now.objects) }
        ensures few { IfOk result (λ found. length found ≤ 4096) }
    {
        objects_of_kind(alloc, api_version, kind, &self.objects)
    }

    /// The objects of a version and kind under their keys: one more owner of each.
    pub fn entries_of_kind(
        &self,
        alloc: Global,
        api_version: &str,
        kind: &str,
    ) -> Result<ObjectMap, AllocError>
        ensures { IfOk result (λ found. found ≡ of_class (is_of api_version.now kind.now) self.now.objects) }
    {
        entries_of_kind(alloc, api_version, kind, &self.objects)
    }

    /// The Namespaces by their keys. Each is found among these as it is among all.
    pub fn namespaces(&self, alloc: Global) -> Result<ObjectMap, AllocError>
        ensures exact { IfOk result (λ found. found ≡ namespaces_in self.now.objects) }
        ensures each { IfOk result (λ found. (name : List ℕ)
            → object_at (namespace_key name) found ≡ object_at (namespace_key name) self.now.objects) }
    {
        namespaces_in(alloc, &self.objects)
    }

    /// The Namespace of a name.
    pub fn namespace(
        &self,
        alloc: Global,
        name: &str,
    ) -> Result<Option<&Shared<Object>>, AllocError>
        ensures { IfOk result (λ found. option_copied found ≡ object_at (namespace_key name.now) self.now.objects) }
    {
        namespace(alloc, name, &self.objects)
    }

    /// The labels that are held for a Namespace.
    pub fn namespace_labels<'t>(
        &self,
        alloc: Global,
        name: &str,
    ) -> Result<Labels<'t, '_>, AllocError>
        ensures { IfOk result (λ labels. lent_labels labels ≡ namespace_labels name.now self.now.objects) }
    {
        namespace_labels(alloc, name, &self.objects)
    }
}

/// What an event does to the objects.
fn change(alloc: Global, event: &Event, objects: &mut ObjectMap) -> Result<(), AllocError>
    ensures ok { OnOk result (objects.new ≡ objects_after event.now objects.old) }
    ensures err { OnErr result (objects.new ≡ objects.old) }
{
    match event {
        Event::Put(object) => objects.put(object.share()?)?,
        Event::Removed(key) => objects.remove(key.get()),
        Event::Passed => {}
        Event::Replaced(all) => *objects = all.get().copy(alloc)?,
    }
    Ok(())
}
