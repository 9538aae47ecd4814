//! Blocks of entries.

ghost use Rattle.std.specs.Prelude.{◌≡◌, ◌≤◌, ◌++◌, drop, length, take, IfOk, OnOk, IsTrue, IsFalse, option_to_list};
ghost use Rattle.std.specs.Ordering.{is_gt};
ghost use Rattle.vap_read.specs.Keys.{key_cmp};
ghost use Rattle.vap_read_objects.specs.Blocks.{joined};
ghost use Rattle.vap_read_objects.specs.Tables.{AreInOrder, EndsAbove, IsBlockFor, StandBelow, not_at, place_for, replaced};

use crate::entry::Entry;
use base_containers::{Items, Shared};
use std::alloc::{AllocError, Global};
use vap_read::Key;

/// Some of the entries of a table.
pub type Block<T> = Shared<Items<Shared<Entry<T>>>>;

/// A block of more entries is cut into blocks of the usual size.
const MOST: usize = 128;

const USUAL: usize = 64;

/// Puts one more owner of each after others.
pub fn add_shared<T: Drop>(values: &[Shared<T>], all: &mut Vec<Shared<T>>) -> Result<(), AllocError>
    ensures { OnOk result (all.new.items ≡ all.old.items ++ values.now) }
{
    for value in values {
        all.push(value.share()?)?;
    }
    Ok(())
}

/// Puts a block of entries after others, unless there is no entry.
fn add_block<T: Drop>(
    alloc: Global,
    entries: &[Shared<Entry<T>>],
    blocks: &mut Vec<Block<T>>,
) -> Result<(), AllocError>
    ensures { OnOk result (joined blocks.new.items ≡ joined blocks.old.items ++ entries.now) }
{
    if entries.is_empty() {
        return Ok(());
    }
    let mut block = Vec::new(alloc);
    add_shared(entries, &mut block)?;
    blocks.push(Shared::new(alloc, Items::from_vec(block))?)?;
    Ok(())
}

/// Puts entries after blocks, in as many blocks as they need.
fn add_entries<T: Drop>(
    alloc: Global,
    entries: &[Shared<Entry<T>>],
    blocks: &mut Vec<Block<T>>,
) -> Result<(), AllocError>
    ensures { OnOk result (joined blocks.new.items ≡ joined blocks.old.items ++ entries.now) }
{
    let mut rest = entries;
    while rest.len() > MOST {
        let (first, others) = rest.split_at(USUAL);
        add_block(alloc, first, blocks)?;
        rest = others;
    }
    add_block(alloc, rest, blocks)
}

/// Blocks of entries.
pub fn blocks_of<T: Drop>(
    alloc: Global,
    entries: &[Shared<Entry<T>>],
) -> Result<Vec<Block<T>>, AllocError>
    ensures { IfOk result (λ blocks. joined blocks.items ≡ entries.now) }
{
    let mut blocks = Vec::new(alloc);
    add_entries(alloc, entries, &mut blocks)?;
    Ok(blocks)
}

/// Whether a key is above an entry.
fn is_above<T>(key: &Key, entry: &Entry<T>) -> bool
    ensures { result ≡ is_gt (key_cmp key.now entry.now.key) }
{
    key.cmp(&entry.key).is_gt()
}

/// How many entries are before a key.
fn place_for<T>(entries: &[Shared<Entry<T>>], key: &Key) -> usize
    ensures place { result ≡ place_for key.now entries.now }
    ensures within { result ≤ length entries.now }
{
    let mut place = 0;
    for entry in entries {
        if !is_above(key, entry.get()) {
            return place;
        }
        place += 1;
    }
    place
}

/// The entries without the first, if that is of this key.
fn not_at<'a, T>(entries: &'a [Shared<Entry<T>>], key: &Key) -> &'a [Shared<Entry<T>>]
    ensures { result.now ≡ not_at key.now entries.now }
{
    match entries {
        [first, others @ ..] if key.cmp(&first.get().key).is_eq() => others,
        _ => entries,
    }
}

/// Puts a value after others, if there is one.
fn add_one<T: Drop>(value: Option<Shared<T>>, all: &mut Vec<Shared<T>>) -> Result<(), AllocError>
    ensures { OnOk result (all.new.items ≡ all.old.items ++ option_to_list value) }
{
    match value {
        Some(value) => {
            all.push(value)?;
            Ok(())
        }
        None => Ok(()),
    }
}

/// Entries with another one, if there is one, in place of the one of a key.
fn replaced<T: Drop>(
    alloc: Global,
    entries: &[Shared<Entry<T>>],
    key: &Key,
    entry: Option<Shared<Entry<T>>>,
) -> Result<Vec<Shared<Entry<T>>>, AllocError>
    ensures { IfOk result (λ all. all.items ≡ replaced key.now (option_to_list entry) entries.now) }
{
    let (before, rest) = entries.split_at(place_for(entries, key));
    let mut all = Vec::new(alloc);
    add_shared(before, &mut all)?;
    add_one(entry, &mut all)?;
    add_shared(not_at(rest, key), &mut all)?;
    Ok(all)
}

/// Whether all entries of a block are below a key.
fn is_below<T>(entries: &[Shared<Entry<T>>], key: &Key) -> bool
    requires { AreInOrder entries.now }
    ensures below { IsTrue result → StandBelow key.now entries.now }
    ensures ends { IsFalse result → EndsAbove key.now entries.now }
{
    match entries.last() {
        Some(last) => is_above(key, last.get()),
        None => true,
    }
}

/// Which block a key goes to: the first that does not end below it, or the last.
fn block_for<T>(blocks: &[Block<T>], key: &Key) -> usize
    requires { AreInOrder (joined blocks.now) }
    ensures { IsBlockFor key.now blocks.now result }
{
    for at in 0..blocks.len() {
        if !is_below(blocks[at].get().as_slice(), key) {
            return at;
        }
    }
    blocks.len().saturating_sub(1)
}

/// The entries of the first of blocks.
fn first_of<T>(blocks: &[Block<T>]) -> &[Shared<Entry<T>>]
    ensures { result.now ≡ joined (take 1 blocks.now) }
{
    match blocks {
        [block, ..] => block.get().as_slice(),
        [] => &[],
    }
}

/// The blocks after the first.
fn behind_first<T>(blocks: &[Block<T>]) -> &[Block<T>]
    ensures { result.now ≡ drop 1 blocks.now }
{
    match blocks {
        [_, others @ ..] => others,
        [] => blocks,
    }
}

/// Blocks of entries with another one, if there is one, in place of the one of a key. All blocks except one are shared.
pub fn blocks_with<T: Drop>(
    alloc: Global,
    blocks: &[Block<T>],
    key: &Key,
    entry: Option<Shared<Entry<T>>>,
) -> Result<Vec<Block<T>>, AllocError>
    requires { AreInOrder (joined blocks.now) }
    ensures { IfOk result (λ made. joined made.items ≡ replaced key.now (option_to_list entry) (joined blocks.now)) }
{
    let (before, rest) = blocks.split_at(block_for(blocks, key));
    let mut made = Vec::new(alloc);
    add_shared(before, &mut made)?;
    let entries = replaced(alloc, first_of(rest), key, entry)?;
    add_entries(alloc, entries.as_slice(), &mut made)?;
    add_shared(behind_first(rest), &mut made)?;
    Ok(made)
}
