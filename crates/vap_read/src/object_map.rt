//! Objects by their keys.

ghost use Rattle.std.specs.Prelude.{◌≡◌, [], ◌∷◌, ◌++◌, filter, length, IfOk, OnOk, OnErr};
ghost use Rattle.std.specs.List.Sorted.{IsStrictlySortedBy};
ghost use Rattle.std.specs.Option.{option_copied};
ghost use Rattle.std.specs.Map.{keys_of, lookup, remove_entry};
ghost use Rattle.std.specs.BTreeMap.{insert_entry, is_at};
ghost use Rattle.vap_read.specs.Keys.{first_key, is_of, key_cmp, with_object};

use crate::key::Key;
use crate::object::Object;
use base_containers::{Shared, Text};
use std::alloc::{AllocError, Global};
use std::collections::BTreeMap;
use std::collections::btree_map::{Iter, Range};
use std::marker::Model;

/// Objects, each under its key, which contracts see as the list of the keys with the objects, by key.
pub struct ObjectMap {
    entries: BTreeMap<Key, Shared<Object>>,
}

impl Drop for ObjectMap {
    fn drop(self) {
        let ObjectMap { entries: _entries } = self;
    }
}

impl Model for ObjectMap {
    ghost use Rattle.std.specs.Prelude.{List};
    ghost use Rattle.std.specs.Coded.{codes};
    ghost use Rattle.vap_read.specs.declared.key.Key.{Key as ObjectKey};
    ghost use Rattle.vap_read.specs.contracts.key.Key as object_key;
    ghost use Rattle.vap_read.specs.declared.object.Object.{Object as Kept};
    ghost use Rattle.vap_read.specs.contracts.object.Object as kept;

    ghost Value = { List (ObjectKey × Kept) };

    ghost coded = { Prim.hlevel (codes, object_key.the_row.coded, kept.the_row.coded) };

    ghost view = { λ m. m.entries.entries };
}

impl ObjectMap {
    pub fn new(alloc: Global) -> ObjectMap
        ensures { result ≡ [] }
    {
        ObjectMap {
            entries: BTreeMap::new(alloc),
        }
    }

    /// How many keys there are.
    pub fn len(&self) -> usize
        ensures { result ≡ length self.now }
    {
        self.entries.len()
    }

    /// The object under a key.
    pub fn get(&self, key: &Key) -> Option<&Shared<Object>>
        ensures { option_copied result ≡ lookup (is_at (key_cmp key.now)) self.now }
    {
        self.entries.get(key)
    }

    /// The keys with their objects, by key.
    pub fn iter(&self) -> Iter<'_, Key, Shared<Object>>
        ensures entries { result ≡ self.now }
        ensures ordered { IsStrictlySortedBy key_cmp (keys_of self.now) }
    {
        self.entries.iter()
    }

    /// The keys of a version and kind with their objects, by namespace, then by name. Other keys are not looked at.
    pub fn of_kind(
        &self,
        alloc: Global,
        api_version: &str,
        kind: &str,
    ) -> Result<Range<'_, Key, Shared<Object>>, AllocError>
        ensures entries { IfOk result (λ found. found ≡ filter (λ e. is_of api_version.now kind.now e.0) self.now) }
        ensures ordered { IfOk result (λ found. IsStrictlySortedBy key_cmp (keys_of found)) }
    {
        let first = first_key(alloc, api_version, Text::from_str(alloc, kind)?)?;
        let behind = first_key(alloc, api_version, next_text(alloc, kind)?)?;
        Ok(self.entries.range(first..behind))
    }

    /// An equal map with keys of its own: one more owner of each object.
    pub fn copy(&self, alloc: Global) -> Result<ObjectMap, AllocError>
        ensures { IfOk result (λ map. map ≡ self.now) }
    {
        Ok(ObjectMap {
            entries: copied(alloc, &self.entries)?,
        })
    }

    /// Puts an object under its key, in place of what is there.
    pub fn put(&mut self, object: Shared<Object>) -> Result<(), AllocError>
        ensures ok { OnOk result (self.new ≡ with_object object self.old) }
        ensures err { OnErr result (self.new ≡ self.old) }
    {
        let key = object.get().key.copy()?;
        self.put_under(key, object)
    }

    /// Puts an object under this key, in place of what is there.
    pub fn put_under(&mut self, key: Key, object: Shared<Object>) -> Result<(), AllocError>
        ensures ok { OnOk result (self.new ≡ insert_entry key_cmp self.old key object) }
        ensures err { OnErr result (self.new ≡ self.old) }
    {
        self.entries.insert(key, object)?;
        Ok(())
    }

    /// Takes away what is under a key, if anything is.
    pub fn remove(&mut self, key: &Key)
        ensures { self.new ≡ remove_entry (is_at (key_cmp key.now)) self.old }
    {
        self.entries.remove(key);
    }
}

/// The first key that may be of a version and kind.
fn first_key(alloc: Global, api_version: &str, kind: Text) -> Result<Key, AllocError>
    ensures { IfOk result (λ key. key ≡ first_key api_version.now kind) }
{
    Ok(Key {
        api_version: Text::from_str(alloc, api_version)?,
        kind,
        namespace: Text::from_str(alloc, "")?,
        name: Text::from_str(alloc, "")?,
    })
}

/// The text after another: none is between them.
fn next_text(alloc: Global, text: &str) -> Result<Text, AllocError>
    ensures { IfOk result (λ next. next ≡ text.now ++ 0 ∷ []) }
{
    let mut next = String::from_str(alloc, text)?;
    next.push('\0')?;
    Ok(Text::from_string(next))
}

fn copied(
    alloc: Global,
    entries: &BTreeMap<Key, Shared<Object>>,
) -> Result<BTreeMap<Key, Shared<Object>>, AllocError>
    ensures { IfOk result (λ made. made.entries ≡ entries.now.entries) }
{
    let mut made = BTreeMap::new(alloc);
    for (key, object) in entries.iter() {
        made.insert(key.copy()?, object.share()?)?;
    }
    Ok(made)
}
