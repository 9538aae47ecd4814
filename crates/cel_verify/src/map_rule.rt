//! The rule of the instruction that makes a map, and its greatest charge.

ghost use Rattle.std.specs.Prelude.{◌≡◌, ◌+◌, ◌-◌, ◌^◌, ◌<◌, min, [], ◌∷◌, ◌++◌, length, reverse, IfOk, MatchOption};
ghost use Rattle.cel_operators.specs.Lists.{join_all};
ghost use Rattle.cel_operators.specs.Maps.{entries_type, key_limit, keys_by_turns, values_by_turns};
ghost use Rattle.base_containers.specs.Failures.{Answers};
ghost use Rattle.cel_code.specs.Machine.{taken_off};
ghost use Rattle.cel_verify.specs.Sound.{mapped_rule, given as given_rule};
ghost use Rattle.cel_verify.specs.Paths.{mapped_charge};
ghost use Rattle.cel_verify.specs.Walked.{Follows};

use crate::fault::{Refusal, VerifyRule};
use crate::list_rule::taken_off;
use crate::rules::given;
use crate::type_stack::TypeStack;
use cel_operators::{Untyped, greater_limit, greatest_of_key, join_next, map_type, text_limit};
use cel_value::CelType;
use std::alloc::{AllocError, Global};

/// The rule of a map of so many keys and values at the types of the stack.
pub fn mapped(
    alloc: Global,
    count: usize,
    mut types: TypeStack,
) -> Result<Option<TypeStack>, Refusal>
    ensures { Follows result (mapped_rule (taken_off (count + count) [] types)) }
{
    if count > types.len() / 2 {
        return Err(Refusal::Fault(VerifyRule::Underflow));
    }
    let Some(entries) = taken_off(alloc, count + count, &mut types)? else {
        return Err(Refusal::Fault(VerifyRule::Underflow));
    };
    map_given(alloc, entries, types)
}

// A map of keys and values of these types by turns, the first on top.
fn map_given(
    alloc: Global,
    entries: TypeStack,
    types: TypeStack,
) -> Result<Option<TypeStack>, Refusal>
    ensures { Follows result (given_rule (entries_type entries) types) }
{
    match entries_type(alloc, entries.as_slice()) {
        Ok(answer) => given(Ok(answer), types),
        Err(Untyped::Fault(rule)) => given(Err(rule), types),
        Err(Untyped::OutOfMemory) => Err(Refusal::OutOfMemory),
    }
}

// The type of a map of keys and values of these types by turns, the first one last.
fn entries_type(alloc: Global, entries: &[CelType]) -> Result<CelType, Untyped>
    ensures { Answers (entries_type (reverse entries.now)) result }
{
    let joined = join_values(alloc, entries)?;
    map_type(alloc, entries.len() / 2, key_limit(entries), joined)
}

// The most code points of a key, if all keys are texts.
fn key_limit(entries: &[CelType]) -> Option<u32>
    ensures { result ≡ key_limit (keys_by_turns (reverse entries.now)) }
{
    let mut limit = Some(0);
    let mut rest = entries;
    while let Some((below, _, key)) = last_two(rest) {
        limit = greater_limit(limit, text_limit(key));
        rest = below;
    }
    limit
}

// The type that the values have in common, from the first one on.
fn join_values(alloc: Global, entries: &[CelType]) -> Result<Option<CelType>, AllocError>
    ensures { IfOk result (λ joined. joined ≡ join_all (values_by_turns (reverse entries.now))) }
{
    let mut joined = Some(CelType::Never);
    let mut rest = entries;
    while let Some((below, value, _)) = last_two(rest) {
        joined = join_next(alloc, joined, value)?;
        rest = below;
    }
    Ok(joined)
}

/// The greatest charge of a map of so many keys and values at the types of the stack, up to the greatest number.
pub fn map_charge(count: usize, types: &[CelType]) -> u64
    ensures { result ≡ min (mapped_charge (taken_off (count + count) [] (reverse types.now))) (2 ^ 64 - 1) }
{
    let mut charge: u64 = 1;
    let mut rest = types;
    let mut left = count;
    while left > 0 {
        let Some((below, key, _)) = last_two(rest) else {
            return 0;
        };
        charge = charge.saturating_add(greatest_of_key(key));
        rest = below;
        left -= 1;
    }
    charge
}

// The last two of several types, and those before them.
fn last_two(types: &[CelType]) -> Option<(&[CelType], &CelType, &CelType)>
    ensures { MatchOption result
        (length types.now < 2)
        (λ parts. types.now ≡ parts.0.now ++ parts.1.now ∷ parts.2.now ∷ []) }
{
    match types {
        [below @ .., s, t] => Some((below, s, t)),
        _ => None,
    }
}
