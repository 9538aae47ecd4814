//! Numbered answers in order.

ghost use Rattle.std.specs.Prelude.{◌≡◌, ◌<◌, length, map, replicate, slice_get, slice_set, vec_len, IfOk, MatchResult, Some};
ghost use Rattle.vap_plane_gathering.specs.Numbered.{AreCame, IsGap, IsLeastStranger, IsListOf, IsWhy, LeastOf, once_more};
ghost use Rattle.vap_plane_gathering.specs.declared.gathering.Came.TheVariants.{Never, Once};

use base_containers::Failed;
use std::alloc::{AllocError, Global};
use std::mem;
use thiserror::Error;
use vap_policy_verdict::Verdict;

/// Why numbered answers do not form a list: the least number that has a fault.
#[derive(Clone, Copy, Debug, PartialEq, Eq, Error)]
pub enum GatherFault {
    #[error("number {0} comes more than once")]
    Double(u64),
    #[error("number {0} is none that was asked for")]
    Stranger(u64),
    #[error("number {0} does not come")]
    Lost(u64),
}

/// Why numbered answers do not form a list.
pub type GatherError = Failed<GatherFault>;

/// What came under a number.
#[derive(Drop)]
pub(crate) enum Came {
    Never,
    Once(Verdict),
    Again,
}

/// The answers by their numbers, from 0 to below `count`, if each of these comes once and no other comes.
#[tactic(auto, using(crate::proofs::Numbered::list_of, crate::proofs::Numbered::gap_fault, crate::proofs::Numbered::stranger_fault))]
pub fn gather(
    alloc: Global,
    count: u64,
    answers: Vec<(u64, Verdict)>,
) -> Result<Vec<Verdict>, GatherError>
    ensures { MatchResult result (λ verdicts. IsListOf count answers.items verdicts.items) (IsWhy count answers.items) }
{
    let (slots, stranger) = placed(alloc, count, answers)?;
    match in_order(alloc, slots) {
        Ok(verdicts) => match stranger {
            None => Ok(verdicts),
            Some(number) => Err(GatherError::Fault(GatherFault::Stranger(number))),
        },
        Err(error) => Err(error),
    }
}

/// What came under each number below the count, and the least number from there on that came.
fn placed(
    alloc: Global,
    count: u64,
    answers: Vec<(u64, Verdict)>,
) -> Result<(Vec<Came>, Option<u64>), AllocError>
    ensures slots { IfOk result (λ found. AreCame count answers.items found.0.items) }
    ensures stranger { IfOk result (λ found. IsLeastStranger count answers.items found.1) }
{
    let mut slots = empty_slots(alloc, count)?;
    let mut stranger = None;
    for (number, verdict) in answers {
        if number < count {
            put(&mut slots, number as usize, verdict);
        } else {
            stranger = Some(least(stranger, number));
        }
    }
    Ok((slots, stranger))
}

/// Places in which nothing has come.
fn empty_slots(alloc: Global, count: u64) -> Result<Vec<Came>, AllocError>
    ensures { IfOk result (λ slots. slots.items ≡ replicate count Never) }
{
    let mut slots = Vec::new(alloc);
    for _number in 0..count {
        slots.reserve(1)?;
        slots.push_reserved(Came::Never);
    }
    Ok(slots)
}

/// Puts what came into its place.
fn put(slots: &mut Vec<Came>, number: usize, verdict: Verdict)
    requires { number < vec_len slots.old }
    ensures { (found : _) → slice_get slots.old.items number ≡ Some found
        → slots.new.items ≡ slice_set slots.old.items number (once_more verdict found) }
{
    let found = mem::replace(&mut slots[number], Came::Again);
    slots[number] = once_more(verdict, found);
}

/// What has come, if an answer comes once more.
fn once_more(verdict: Verdict, found: Came) -> Came
    ensures { result ≡ once_more verdict found }
{
    match found {
        Came::Never => Came::Once(verdict),
        Came::Once(_) | Came::Again => Came::Again,
    }
}

/// The lesser of two numbers, if there is a first.
fn least(first: Option<u64>, other: u64) -> u64
    ensures { LeastOf first other result }
{
    match first {
        Some(number) if number <= other => number,
        _ => other,
    }
}

/// What came once in each place, or the first place where nothing came, or more than one did.
fn in_order(alloc: Global, slots: Vec<Came>) -> Result<Vec<Verdict>, GatherError>
    ensures { MatchResult result (λ verdicts. slots.items ≡ map Once verdicts.items) (IsGap slots.items) }
{
    let mut verdicts = Vec::new(alloc);
    for slot in slots {
        match slot {
            Came::Once(verdict) => {
                verdicts.reserve(1)?;
                verdicts.push_reserved(verdict);
            }
            Came::Never => return Err(GatherError::Fault(GatherFault::Lost(verdicts.len() as u64))),
            Came::Again => return Err(GatherError::Fault(GatherFault::Double(
                verdicts.len() as u64,
            ))),
        }
    }
    Ok(verdicts)
}
