//! Maps of keys and values.

ghost use Rattle.std.specs.Prelude.{◌≡◌, ◌-◌, ◌^◌, [], min, reverse, IfOk, Some};
ghost use Rattle.cel_operators.specs.Maps.{map_of, entries_charge, map_or_duplicate, placed_among};
ghost use Rattle.cel_operators_applied.specs.Counted.{counted};
ghost use Rattle.cel_operators_applied.specs.Pairs.{in_front, turned};

use crate::kinds::made;
use crate::texts::tenths_in;
use base_containers::{Items, Keyed, TextMap};
use cel_operators::Made;
use cel_value::{CelError, Value};
use std::alloc::{AllocError, Global};

/// An entry or an error in front of entries, which are in order from the last to the first, or of an error.
pub fn in_front(
    entry: Result<Keyed<Value>, CelError>,
    entries: Result<Items<Keyed<Value>>, CelError>,
) -> Result<Result<Items<Keyed<Value>>, CelError>, AllocError>
    ensures { IfOk result (λ all. turned all ≡ in_front entry (turned entries)) }
{
    match (entry, entries) {
        (Ok(entry), Ok(mut entries)) => {
            entries.push(entry)?;
            Ok(Ok(entries))
        }
        (Ok(_), Err(error)) => Ok(Err(error)),
        (Err(error), _) => Ok(Err(error)),
    }
}

/// The map of entries, which are in order from the last to the first, with its charge: a key that comes twice is an error, which
/// charges as much.
pub fn map_of(
    alloc: Global,
    entries: Result<Items<Keyed<Value>>, CelError>,
) -> Result<Option<Made>, AllocError>
    ensures { IfOk result (λ made. made ≡ counted (Some (map_of (turned entries)))) }
{
    match entries {
        Ok(entries) => {
            let charge = entries_charge(entries.as_slice());
            Ok(made(placed(alloc, entries)?, charge))
        }
        Err(error) => Ok(made(Err(error), 1)),
    }
}

fn entries_charge(entries: &[Keyed<Value>]) -> u64
    ensures { result ≡ min (entries_charge entries.now) (2 ^ 64 - 1) }
{
    let mut charge: u64 = 0;
    for entry in entries {
        charge = charge.saturating_add(1 + tenths_in(entry.key.as_str()));
    }
    charge.saturating_add(1)
}

// The map of entries, which are in order from the last to the first, or that a key comes twice.
fn placed(
    alloc: Global,
    mut entries: Items<Keyed<Value>>,
) -> Result<Result<Value, CelError>, AllocError>
    ensures { IfOk result (λ map. map ≡ map_or_duplicate (placed_among [] (reverse entries))) }
{
    let mut map = TextMap::new(alloc);
    while let Some(entry) = entries.pop() {
        let Keyed { key, value } = entry;
        if map.get(key.as_str()).is_some() {
            return Ok(Err(CelError::DuplicateKey));
        }
        map.insert(key, value)?;
    }
    Ok(Ok(Value::Map(map)))
}
