//! What a set holds of definitions.

ghost use Rattle.std.specs.Prelude.{◌≡◌, [], IfOk};
ghost use Rattle.vap_read_objects.specs.Definitions.{is_definition};
ghost use Rattle.vap_read_objects.specs.Listed.{kinds_in};
ghost use Rattle.vap_read_objects.specs.Reuse.{StaysUnless};

use base_containers::{Items, Keyed, Same, Shared};
use std::alloc::{AllocError, Global};
use vap_read::{Event, Object, ObjectMap};
use vap_read_objects::{Kind, Objects, ReadDefinition, all_miss_definitions, kinds_of};

/// The kinds that definitions give, and the definitions.
pub struct Definitions {
    pub kinds: Items<Kind>,
    /// By their keys; no answer depends on them.
    pub entries: ObjectMap,
    /// By their names, each with its own kinds; no answer depends on them.
    pub read: Items<Keyed<Shared<ReadDefinition>>>,
}

impl Drop for Definitions {
    fn drop(self) {
        let Definitions {
            kinds: _kinds,
            entries: _entries,
            read: _read,
        } = self;
    }
}

/// The definition of this name among others, which are in the order of their names.
fn definition_named<'a>(
    read: &'a [Keyed<Shared<ReadDefinition>>],
    name: &str,
) -> Option<&'a Shared<ReadDefinition>> {
    match read.binary_search_by(|definition| definition.key.as_str().cmp(name)) {
        Ok(at) => Some(&read[at].value),
        Err(_) => None,
    }
}

/// A definition, which is read unless what was read before is the same.
fn read_definition(
    alloc: Global,
    object: &Shared<Object>,
    old: Option<&Shared<ReadDefinition>>,
) -> Result<Shared<ReadDefinition>, AllocError>
    ensures { IfOk result (λ read. read ≡ object.now) }
{
    match old {
        Some(read) if read.get().object().same(object.get()) => read.share(),
        _ => Shared::new(alloc, ReadDefinition::new(alloc, object)?),
    }
}

/// Definitions by their names. Those that changed are read.
fn read_definitions(
    alloc: Global,
    definitions: &[Keyed<Shared<Object>>],
    old: &[Keyed<Shared<ReadDefinition>>],
) -> Result<Items<Keyed<Shared<ReadDefinition>>>, AllocError>
    ensures { IfOk result (λ read. read ≡ definitions.now) }
{
    let mut read = Vec::new(alloc);
    for definition in definitions {
        let key = definition.key.copy()?;
        let before = definition_named(old, key.as_str());
        let value = read_definition(alloc, &definition.value, before)?;
        read.push(Keyed { key, value })?;
    }
    Ok(Items::from_vec(read))
}

/// The definitions among objects. Those that changed are read.
fn definitions_with(
    alloc: Global,
    objects: &Objects,
    old: &[Keyed<Shared<ReadDefinition>>],
) -> Result<Shared<Definitions>, AllocError>
    ensures { IfOk result (λ found. found.kinds ≡ kinds_in objects.now.objects) }
{
    let definitions = objects.definitions(alloc)?;
    let read = read_definitions(alloc, definitions.as_slice(), old)?;
    let kinds = kinds_of(alloc, read.as_slice())?;
    let entries = objects.entries_of_kind(
        alloc,
        "apiextensions.k8s.io/v1",
        "CustomResourceDefinition",
    )?;
    Shared::new(
        alloc,
        Definitions {
            kinds,
            entries,
            read,
        },
    )
}

/// Reads the definitions among objects.
pub fn definitions_of(alloc: Global, objects: &Objects) -> Result<Shared<Definitions>, AllocError>
    ensures { IfOk result (λ found. found.kinds ≡ kinds_in objects.now.objects) }
{
    definitions_with(alloc, objects, &[])
}

/// The definitions of no objects.
pub fn no_definitions(alloc: Global) -> Result<Shared<Definitions>, AllocError>
    ensures { IfOk result (λ found. found.kinds ≡ kinds_in []) }
{
    definitions_of(alloc, &Objects::new(alloc))
}

/// The definitions after events. Those that changed are read.
pub fn definitions_after(
    alloc: Global,
    old: &Shared<Definitions>,
    objects: &Objects,
    events: &[Event],
) -> Result<Shared<Definitions>, AllocError>
    requires { StaysUnless is_definition events.now (old.now.kinds ≡ kinds_in objects.now.objects) }
    ensures { IfOk result (λ found. found.kinds ≡ kinds_in objects.now.objects) }
{
    if all_miss_definitions(events) {
        old.share()
    } else {
        definitions_with(alloc, objects, old.get().read.as_slice())
    }
}
