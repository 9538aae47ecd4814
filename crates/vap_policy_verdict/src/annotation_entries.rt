//! The values of annotations under their keys.

ghost use Rattle.std.specs.Prelude.{◌≡◌, ◌++◌, IfOk, OnOk};
ghost use Rattle.vap_policy_verdict.specs.DecisionAnnotations.{key_of, entry_of, entry_in, entries_of};

use crate::cuts::cut;
use crate::finding::Note;
use base_containers::{Keyed, Text};
use std::alloc::{AllocError, Global};

/// Room for most keys.
const KEY_ROOM: usize = 64;

/// The key of a note. (It is pushed piece by piece and not formatted, since a review may have many of them.)
fn key_of(alloc: Global, note: &Note) -> Result<Text, AllocError>
    ensures { IfOk result (λ key. key ≡ key_of note.now) }
{
    let mut key = String::with_capacity(alloc, KEY_ROOM)?;
    key.push_str(note.policy.as_str())?;
    key.push_str("/")?;
    key.push_str(note.key.as_str())?;
    Ok(Text::from_string(key))
}

fn entry_of(alloc: Global, note: &Note) -> Result<Keyed<Text>, AllocError>
    ensures { IfOk result (λ entry. entry ≡ entry_of note.now) }
{
    Ok(Keyed {
        key: key_of(alloc, note)?,
        value: Text::from_str(alloc, cut(note.value.as_str(), 10_240))?,
    })
}

#[tactic(auto, unfolding(crate::specs::DecisionAnnotations::entry_in))]
fn push_entry(alloc: Global, note: &Note, entries: &mut Vec<Keyed<Text>>) -> Result<(), AllocError>
    ensures { OnOk result (entries.new.items ≡ entries.old.items ++ entry_in note.now) }
{
    if note.value.as_str() == "" {
        return Ok(());
    }
    entries.push(entry_of(alloc, note)?)?;
    Ok(())
}

/// What notes give, in their order.
pub fn entries_of(alloc: Global, notes: &[Note]) -> Result<Vec<Keyed<Text>>, AllocError>
    ensures { IfOk result (λ entries. entries.items ≡ entries_of notes.now) }
{
    let mut entries = Vec::new(alloc);
    for note in notes {
        push_entry(alloc, note, &mut entries)?;
    }
    Ok(entries)
}
