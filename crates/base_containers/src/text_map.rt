ghost use Rattle.std.specs.Prelude.{◌≡◌, ◌≤◌, ◌↔◌, [], length, IsTrue, None, OnOk, OnErr, option_copied};
ghost use Rattle.base_containers.specs.Keys.{IsInKeyOrder, value_under, place_for, with_entry, without, IsPlaceOf, rises_from};

use crate::text::{Keyed, Text};
use std::alloc::{AllocError, Global};
use std::marker::Model;

/// Values under texts, which contracts see as the list of its entries, by the bytes of their keys, each key once.
#[derive(Drop)]
pub struct TextMap<V> {
    entries: Vec<Keyed<V>>,
}

impl<V> Model for TextMap<V> {
    ghost use Rattle.std.specs.Prelude.{List};
    ghost use Rattle.base_containers.specs.declared.text.Keyed.{Keyed};
    ghost use Rattle.base_containers.specs.Keys.{IsInKeyOrder, entries_code};

    ghost Value = { List (Keyed V) };

    ghost coded = { entries_code V.code };

    ghost view = { λ m. m.entries.items };

    ghost invariant = { λ m. IsInKeyOrder m.entries.items };
}

impl<V> TextMap<V> {
    pub fn new(alloc: Global) -> TextMap<V>
        ensures { result ≡ [] }
    {
        TextMap {
            entries: Vec::new(alloc),
        }
    }

    /// The map of entries that are in the order of their keys, each key once.
    pub fn from_vec(entries: Vec<Keyed<V>>) -> TextMap<V>
        requires { IsInKeyOrder entries.items }
        ensures { result ≡ entries.items }
    {
        TextMap { entries }
    }

    pub fn as_slice(&self) -> &[Keyed<V>]
        ensures entries { result.now ≡ self.now }
        ensures ordered { IsInKeyOrder self.now }
    {
        self.entries.as_slice()
    }

    pub fn len(&self) -> usize
        ensures { result ≡ length self.now }
    {
        self.entries.len()
    }

    /// The value under a key.
    pub fn get(&self, key: &str) -> Option<&V>
        ensures { option_copied result ≡ value_under key.now self.now }
    {
        for entry in self.entries.as_slice() {
            if entry.key.as_str() == key {
                return Some(&entry.value);
            }
        }
        None
    }

    /// The place of the entry under a key.
    fn place_of(&self, name: &str) -> Option<usize>
        ensures { IsPlaceOf name.now self.now result }
    {
        for (place, entry) in self.entries.as_slice().iter().enumerate() {
            if entry.key.as_str() == name {
                return Some(place);
            }
        }
        None
    }

    /// Where a key goes: before the first entry that has a greater one.
    fn place_for(&self, key: &str) -> usize
        ensures place { result ≡ place_for key.now self.now }
        ensures within { result ≤ length self.now }
    {
        let mut place = 0;
        for entry in self.entries.as_slice() {
            if key < entry.key.as_str() {
                return place;
            }
            place += 1;
        }
        place
    }
}

impl<V: Drop> TextMap<V> {
    /// Puts a value under a key that is not there, as [`TextMap::get`] answers.
    pub fn insert(&mut self, key: Text, value: V) -> Result<(), AllocError>
        requires absent { value_under key self.old ≡ None }
        ensures ok { OnOk result (self.new ≡ with_entry key value self.old) }
        ensures err { OnErr result (self.new ≡ self.old) }
    {
        let place = self.place_for(key.as_str());
        self.entries.insert(place, Keyed { key, value })?;
        Ok(())
    }

    /// Takes away what is under a key, if anything does.
    pub fn remove(&mut self, key: &str)
        ensures left { self.new ≡ without key.now self.old }
        ensures absent { value_under key.now self.new ≡ None }
    {
        if let Some(place) = self.place_of(key) {
            self.entries.remove(place);
        }
    }
}

/// Whether entries are in the order of their keys, each key once.
pub fn is_in_key_order<V>(entries: &[Keyed<V>]) -> bool
    ensures { IsTrue result ↔ IsInKeyOrder entries.now }
{
    match entries {
        [first, rest @ ..] => rises_from(&first.key, rest),
        [] => true,
    }
}

fn rises_from<V>(key: &Text, entries: &[Keyed<V>]) -> bool
    ensures { result ≡ rises_from key.now entries.now }
{
    let mut last = key;
    for entry in entries {
        if last.as_str() >= entry.key.as_str() {
            return false;
        }
        last = &entry.key;
    }
    true
}
