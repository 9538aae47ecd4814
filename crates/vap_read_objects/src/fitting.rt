//! The objects of a kind, each fitted to its type.

ghost use Rattle.std.specs.Prelude.{◌≡◌, ◌≤◌, true, codes, length, IfOk, IfSome, OnOk, option_map};
ghost use Rattle.std.specs.List.{All};
ghost use Rattle.cel_value.specs.CelType.{fits};
ghost use Rattle.vap_schema.specs.Seen.{seen};
ghost use Rattle.vap_read_objects.specs.OfKind.{object_at};
ghost use Rattle.vap_read.specs.declared.event.Event.TheVariants.{Removed};
ghost use Rattle.vap_read_objects.specs.Fitted.{entries_of, is_of_params};
ghost use Rattle.vap_read_objects.specs.Keyed.{Settles};
ghost use Rattle.vap_read_objects.specs.Reuse.{StandUnless};
ghost use Rattle.vap_read_objects.specs.Seen.{IsSeenAt};
ghost use Rattle.vap_read_objects.specs.Tables.{AreInOrder, entries_in};

use crate::entry::Entry;
use crate::kind_params::{Outcome, Param};
use crate::naming::spelled;
use crate::objects::Objects;
use crate::table::Table;
use base_containers::{Part, Shared};
use cel_value::CelType;
use std::alloc::{AllocError, Global};
use vap_read::{Event, Key, Object, ObjectMap, ParamKind};
use vap_schema::{FitError, fit};

/// What params are made of: objects, their kind, and the type to which those of the kind are fitted.
#[derive(Clone, Copy)]
pub struct Fitting<'a> {
    pub alloc: Global,
    pub objects: &'a Objects,
    pub kind: &'a ParamKind,
    pub cel_type: &'a CelType,
}

fn seen_at(alloc: Global, cel_type: &CelType, object: &Object) -> Result<Outcome, AllocError>
    ensures exact { IfOk result (λ s. s ≡ seen (codes "params") cel_type.now object.now.document) }
    ensures fits { IfOk result (λ s. IfOk s (λ v. fits v cel_type.now ≡ true)) }
{
    match fit(
        alloc,
        &Part::of_tree(object.document.json()),
        cel_type,
        "params",
    ) {
        Ok(value) => Ok(Ok(value)),
        Err(FitError::Fault(fault)) => Ok(Err(fault)),
        Err(FitError::OutOfMemory) => Err(AllocError),
    }
}

fn param_of(
    alloc: Global,
    cel_type: &CelType,
    key: &Key,
    object: &Shared<Object>,
) -> Result<Shared<Param>, AllocError>
    ensures key { IfOk result (λ p. p.key ≡ key.now) }
    ensures object { IfOk result (λ p. p.object ≡ object.now) }
    ensures seen { IfOk result (λ p. IsSeenAt cel_type.now p) }
{
    let key = key.copy()?;
    let object = object.share()?;
    let outcome = seen_at(alloc, cel_type, object.get())?;
    Shared::new(
        alloc,
        Entry {
            key,
            object,
            outcome,
        },
    )
}

fn params_at(
    alloc: Global,
    cel_type: &CelType,
    objects: &ObjectMap,
) -> Result<Vec<Shared<Param>>, AllocError>
    ensures entries { IfOk result (λ params. entries_in params.items ≡ objects.now) }
    ensures seen { IfOk result (λ params. All (IsSeenAt cel_type.now) params.items) }
    ensures ordered { IfOk result (λ params. AreInOrder params.items) }
{
    let mut params = Vec::new(alloc);
    for (key, object) in objects.iter() {
        params.push(param_of(alloc, cel_type, key, object)?)?;
    }
    Ok(params)
}

impl Fitting<'_> {
    /// The params.
    pub fn all(&self) -> Result<Table<Outcome>, AllocError>
        ensures entries { IfOk result (λ params. entries_in params ≡ entries_of self.now.kind.now self.now.objects.now) }
        ensures seen { IfOk result (λ params. All (IsSeenAt self.now.cel_type.now) params) }
        ensures few { IfOk result (λ params. length params ≤ 4096) }
    {
        // Its clause says that they are few.
        let _count = self.objects.len();
        let api_version = spelled(self.kind.api_version.as_str());
        let name = self.kind.kind.as_str();
        let found = self.objects.entries_of_kind(self.alloc, api_version, name)?;
        let params = params_at(self.alloc, self.cel_type, &found)?;
        Ok(Table::from_entries(self.alloc, params.as_slice())?)
    }

    /// Whether a key is that of a param.
    fn has(&self, key: &Key) -> bool
        ensures { result ≡ is_of_params self.now.kind.now key.now }
    {
        key.api_version.as_str() == spelled(self.kind.api_version.as_str())
            && key.kind.as_str() == self.kind.kind.as_str()
    }

    /// The object under a key as a param, if there is one.
    fn param_at(&self, key: &Key) -> Result<Option<Shared<Param>>, AllocError>
        ensures key { IfOk result (λ param. IfSome param (λ p. p.key ≡ key.now)) }
        ensures object { IfOk result (λ param. option_map (λ p. p.object) param ≡ object_at key.now self.now.objects.now.objects) }
        ensures seen { IfOk result (λ param. IfSome param (IsSeenAt self.now.cel_type.now)) }
    {
        match self.objects.get(key) {
            Some(object) => {
                let param = param_of(self.alloc, self.cel_type, key, object)?;
                Ok(Some(param))
            }
            None => Ok(None),
        }
    }

    /// Puts the object that is under a key in place of the param that was there.
    fn put_found(&self, key: &Key, params: &mut Table<Outcome>) -> Result<(), AllocError>
        requires kind { is_of_params self.now.kind.now key.now ≡ true }
        requires seen { All (IsSeenAt self.now.cel_type.now) params.old }
        ensures settles { OnOk result (Settles (is_of_params self.now.kind.now) (entries_of self.now.kind.now self.now.objects.now)
            (Removed key.now) (entries_in params.old) (entries_in params.new)) }
        ensures seen { OnOk result (All (IsSeenAt self.now.cel_type.now) params.new) }
    {
        let param = self.param_at(key)?;
        params.set(self.alloc, key, param)?;
        Ok(())
    }

    /// The same, if the key is that of a param.
    fn put_key(&self, key: &Key, params: &mut Table<Outcome>) -> Result<(), AllocError>
        requires seen { All (IsSeenAt self.now.cel_type.now) params.old }
        ensures settles { OnOk result (Settles (is_of_params self.now.kind.now) (entries_of self.now.kind.now self.now.objects.now)
            (Removed key.now) (entries_in params.old) (entries_in params.new)) }
        ensures seen { OnOk result (All (IsSeenAt self.now.cel_type.now) params.new) }
    {
        if self.has(key) {
            self.put_found(key, params)
        } else {
            Ok(())
        }
    }

    /// The same for the key that an event touches; after a List all are fitted.
    fn put_event(&self, event: &Event, params: &mut Table<Outcome>) -> Result<(), AllocError>
        requires seen { All (IsSeenAt self.now.cel_type.now) params.old }
        ensures settles { OnOk result (Settles (is_of_params self.now.kind.now) (entries_of self.now.kind.now self.now.objects.now)
            event.now (entries_in params.old) (entries_in params.new)) }
        ensures seen { OnOk result (All (IsSeenAt self.now.cel_type.now) params.new) }
    {
        match event {
            Event::Put(object) => self.put_key(&object.get().key, params),
            Event::Removed(key) => self.put_key(key.get(), params),
            Event::Passed => Ok(()),
            Event::Replaced(_) => {
                *params = self.all()?;
                Ok(())
            }
        }
    }

    /// Turns the params before events into those after them, by fitting those that the events touch.
    pub fn put_events(
        &self,
        events: &[Event],
        params: &mut Table<Outcome>,
    ) -> Result<(), AllocError>
        requires stand { StandUnless (is_of_params self.now.kind.now) (entries_of self.now.kind.now self.now.objects.now) events.now
            (entries_in params.old) }
        requires seen { All (IsSeenAt self.now.cel_type.now) params.old }
        ensures entries { OnOk result (entries_in params.new ≡ entries_of self.now.kind.now self.now.objects.now) }
        ensures seen { OnOk result (All (IsSeenAt self.now.cel_type.now) params.new) }
        ensures few { OnOk result (length params.new ≤ 4096) }
    {
        // Its clauses say that the objects are few, and in order.
        let _count = self.objects.len();
        for event in events {
            self.put_event(event, params)?;
        }
        // Its clause says that the params are in order.
        let _blocks = params.blocks();
        Ok(())
    }
}
