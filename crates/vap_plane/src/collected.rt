//! What came back of a batch, and what results from it.

ghost use Rattle.std.specs.Prelude.{◌≡◌, ◌++◌, [], IfOk, OnOk};
ghost use Rattle.vap_plane.specs.Answers.{AreRight};
ghost use Rattle.vap_plane_gathering.specs.Numbered.{IsListOf};

use crate::jobs::Batch;
use crate::messages::{Answers, Failure};
use std::alloc::{AllocError, Global};
use vap_plane_gathering::{GatherError, GatherFault, PlaneError, PlaneFault, gather};
use vap_policy_verdict::Verdict;

/// Numbered answers, and, of the requests that are not answered, the failure of the one with the least number.
#[derive(Drop)]
pub(crate) struct Collected {
    pub(crate) answers: Vec<(u64, Verdict)>,
    pub(crate) failure: Option<Failure>,
}

impl Collected {
    /// Nothing yet.
    pub(crate) fn new(alloc: Global) -> Collected
        ensures { result.answers.items ≡ [] }
    {
        Collected {
            answers: Vec::new(alloc),
            failure: None,
        }
    }

    /// Keeps the answers of one worker.
    #[tactic(auto, using(crate::proofs::Replies::more_right))]
    pub(crate) fn keep<B: Batch>(&mut self, answers: Answers<B>) -> Result<(), AllocError>
        requires { AreRight B.told B.requests self.old.answers.items }
        ensures { OnOk result (AreRight B.told B.requests self.new.answers.items) }
    {
        append(&mut self.answers, answers.into_verdicts())
    }

    /// Keeps the failure of the lesser number.
    pub(crate) fn note(&mut self, failure: Failure)
        ensures { self.new.answers.items ≡ self.old.answers.items }
    {
        self.failure = Some(lesser(self.failure, failure));
    }
}

/// Puts answers after others.
fn append(kept: &mut Vec<(u64, Verdict)>, more: Vec<(u64, Verdict)>) -> Result<(), AllocError>
    ensures { OnOk result (kept.new.items ≡ kept.old.items ++ more.items) }
{
    for answer in more {
        kept.reserve(1)?;
        kept.push_reserved(answer);
    }
    Ok(())
}

/// The failure of the lesser number.
fn lesser(first: Option<Failure>, other: Failure) -> Failure {
    match first {
        Some(failure) if failure.number <= other.number => failure,
        _ => other,
    }
}

/// The verdicts in order, or the error of the least call that has one.
pub(crate) fn joined(
    alloc: Global,
    first: u64,
    count: u64,
    collected: Collected,
) -> Result<Vec<Verdict>, PlaneError>
    ensures { IfOk result (λ verdicts. IsListOf count collected.answers.items verdicts.items) }
{
    let Collected { answers, failure } = collected;
    match gather(alloc, count, answers) {
        Ok(verdicts) => match failure {
            None => Ok(verdicts),
            Some(failure) => Err(failure.error),
        },
        Err(error) => Err(error_of(first, error, failure)),
    }
}

/// The error of the least call, if numbers do not form a list and some request is perhaps not answered: such a request is missing
/// in the list, and its own error says why.
fn error_of(first: u64, error: GatherError, failure: Option<Failure>) -> PlaneError {
    let GatherError::Fault(fault) = error else {
        return PlaneError::OutOfMemory;
    };
    let (number, fault) = match fault {
        GatherFault::Double(number) => (number, PlaneFault::Double(first.saturating_add(number))),
        GatherFault::Stranger(number) => (
            number,
            PlaneFault::Stranger(first.saturating_add(number)),
        ),
        GatherFault::Lost(number) => (number, PlaneFault::Lost(first.saturating_add(number))),
    };
    match failure {
        Some(failure) if failure.number <= number => failure.error,
        _ => PlaneError::Fault(fault),
    }
}
