//! What is in the lists of an image: how it is read, written and tested.

ghost use Rattle.std.specs.Prelude.{◌≡◌, ℕ, Bool, List, Option, Result, ◌++◌, OnOk};
ghost use Rattle.base_containers.specs.Failures.{Gives};
ghost use Rattle.cel_code.specs.declared.fault.ReadFault.{ReadFault};
ghost use Rattle.cel_code.specs.Spelling.{listed, is_list};
ghost use Rattle.cel_code.specs.Reading.{last_of, list_at};

use crate::fault::ReadError;
use crate::fields::u32_at;
use crate::spellable::is_short;
use crate::writing::put_number;
use base_containers::Items;
use std::alloc::{AllocError, Global};

pub trait Spelt: Drop {
    /// How it is read after another.
    ghost reader: { Option Self → List ℕ → Result (Self × List ℕ) ReadFault };

    /// How it is spelt.
    ghost spelling: { Self → List ℕ };

    /// Whether it has a spelling after another.
    ghost fits: { Option Self → Self → Bool };

    /// The one at the front, after those before.
    fn read<'a>(
        alloc: Global,
        before: &[Self],
        bytes: &'a [u8],
    ) -> Result<(Self, &'a [u8]), ReadError>
        ensures { Gives (λ x. (x.0, x.1.now)) result (reader (last_of before.now) bytes.now) };

    /// Writes its spelling after what is written.
    fn put(&self, out: &mut Vec<u8>) -> Result<(), AllocError>
        ensures { OnOk result (out.new.items ≡ out.old.items ++ spelling self.now) };

    /// Whether it has a spelling after those before.
    fn is_spelt(&self, before: &[Self]) -> bool
        ensures { result ≡ fits (last_of before.now) self.now };
}

/// The list at the front: a count, and so many items.
pub fn list_of<T: Spelt>(alloc: Global, bytes: &[u8]) -> Result<(Items<T>, &[u8]), ReadError>
    ensures { Gives (λ x. (x.0, x.1.now)) result (list_at T.reader bytes.now) }
{
    let (count, start) = u32_at(bytes)?;
    let mut items = Vec::new(alloc);
    let mut rest = start;
    for _ in 0..count {
        let (item, after) = T::read(alloc, items.as_slice(), rest)?;
        items.push(item)?;
        rest = after;
    }
    Ok((Items::from_vec(items), rest))
}

/// Writes the count of items, and these.
pub fn put_list<T: Spelt>(out: &mut Vec<u8>, items: &[T]) -> Result<(), AllocError>
    ensures { OnOk result (out.new.items ≡ out.old.items ++ listed T.spelling items.now) }
{
    put_number(out, items.len())?;
    for item in items {
        item.put(out)?;
    }
    Ok(())
}

/// Whether a list has a spelling.
pub fn is_list<T: Spelt>(items: &[T]) -> bool
    ensures { result ≡ is_list T.fits items.now }
{
    if !is_short(items.len()) {
        return false;
    }
    for (place, item) in items.iter().enumerate() {
        if !item.is_spelt(&items[..place]) {
            return false;
        }
    }
    true
}
