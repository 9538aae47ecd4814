//! Containers: what is put in stays in, by key.

use base_containers::{Boxed, Items, Keyed, Shared, Text, TextMap, is_in_key_order};
use calls_notation::{Asked, unknown};
use std::alloc::{AllocError, Global};

/// The answer to a call of containers.
pub fn answer(alloc: Global, asked: &Asked) -> Result<String, AllocError> {
    match asked.call {
        "text" => text(alloc, asked.input),
        "items" => items(alloc, asked.input),
        "shared" => shared(alloc, asked.input),
        "map" => map(alloc, asked.input),
        "found" => found(alloc, asked.input),
        "order" => order(alloc, asked.input),
        "empty" => shown(alloc, &TextMap::new(alloc)),
        _ => unknown(alloc),
    }
}

/// The characters of a text, copied and moved.
fn text(alloc: Global, row: &str) -> Result<String, AllocError> {
    let copy = Text::from_str(alloc, row)?.copy()?;
    let moved = Text::from_string(String::from_str(alloc, copy.as_str())?);
    String::from_str(alloc, moved.as_str())
}

fn boxed(alloc: Global, word: &str) -> Result<Boxed<Text>, AllocError> {
    Ok(Boxed::new(alloc, Text::from_str(alloc, word)?)?)
}

/// How many items a list of words has, each of them, and what is after the last.
fn items(alloc: Global, row: &str) -> Result<String, AllocError> {
    let mut items = Items::new(alloc);
    for word in row.split(' ') {
        items.push(boxed(alloc, word)?)?;
    }
    shown_items(alloc, &items)
}

fn shown_items(alloc: Global, items: &Items<Boxed<Text>>) -> Result<String, AllocError> {
    let mut out = format!(in alloc; "{}:", items.len())?;
    for place in 0..=items.len() {
        match items.get(place) {
            Some(boxed) => write!(out, "{};", boxed.get().as_str())?,
            None => out.push_str("none")?,
        }
    }
    Ok(out)
}

/// What each of two owners of a text has, and what the first and then the last of them takes out.
fn shared(alloc: Global, row: &str) -> Result<String, AllocError> {
    let first = Shared::new(alloc, Text::from_str(alloc, row)?)?;
    let mut out = String::new(alloc);
    put_owners(&mut out, first)?;
    Ok(out)
}

fn put_owners(out: &mut String, first: Shared<Text>) -> Result<(), AllocError> {
    let last = first.share()?;
    write!(out, "{};{};", first.get().as_str(), last.get().as_str())?;
    put_unshared(out, first)?;
    put_unshared(out, last)
}

fn put_unshared(out: &mut String, owner: Shared<Text>) -> Result<(), AllocError> {
    match owner.unshare() {
        Ok(text) => write!(out, "{};", text.as_str()),
        Err(_) => out.push_str("shared;"),
    }
}

/// How many entries a map has, and each of them: a word is a name, put in with the number of its place unless it is
/// there, and `-name` takes it out.
fn map(alloc: Global, row: &str) -> Result<String, AllocError> {
    let map = map_of(alloc, row)?;
    shown(alloc, &map)
}

fn map_of(alloc: Global, row: &str) -> Result<TextMap<usize>, AllocError> {
    let mut map = TextMap::new(alloc);
    for (place, word) in row.split(' ').enumerate() {
        match word.strip_prefix('-') {
            Some(name) => map.remove(name),
            None => put(alloc, &mut map, word, place)?,
        }
    }
    Ok(map)
}

fn put(
    alloc: Global,
    map: &mut TextMap<usize>,
    name: &str,
    value: usize,
) -> Result<(), AllocError> {
    let key = Text::from_str(alloc, name)?;
    if map.get(key.as_str()).is_none() {
        map.insert(key, value)?;
    }
    Ok(())
}

fn shown(alloc: Global, map: &TextMap<usize>) -> Result<String, AllocError> {
    let mut out = format!(in alloc; "{}:", map.len())?;
    for entry in map.as_slice() {
        let key = entry.key.as_str();
        let value = entry.value;
        write!(out, "{key}={value};")?;
    }
    Ok(out)
}

/// What a map of `a` and `b`, with 0 and 1, has under a name.
fn found(alloc: Global, row: &str) -> Result<String, AllocError> {
    let map = map_of(alloc, "a b")?;
    shown_under(alloc, &map, row)
}

fn shown_under(alloc: Global, map: &TextMap<usize>, name: &str) -> Result<String, AllocError> {
    match map.get(name) {
        Some(value) => format!(in alloc; "{value}"),
        None => String::from_str(alloc, "none"),
    }
}

/// The map of entries under these names, if they are in the order of their keys.
fn order(alloc: Global, row: &str) -> Result<String, AllocError> {
    let entries = entries_of(alloc, row)?;
    if is_in_key_order(entries.as_slice()) {
        shown(alloc, &TextMap::from_vec(entries))
    } else {
        String::from_str(alloc, "in no order")
    }
}

fn entries_of(alloc: Global, row: &str) -> Result<Vec<Keyed<usize>>, AllocError> {
    let mut entries = Vec::new(alloc);
    for word in row.split_whitespace() {
        let value = entries.len();
        let key = Text::from_str(alloc, word)?;
        entries.push(Keyed { key, value })?;
    }
    Ok(entries)
}
