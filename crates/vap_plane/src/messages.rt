//! What workers answer, on its way back.

ghost use Rattle.std.specs.Prelude.{◌≡◌, ◌++◌, ◌∷◌, [], OnErr, OnOk};
ghost use Rattle.vap_plane.specs.Answers.{AreRight, IsAnswer};

use crate::jobs::Batch;
use std::alloc::{AllocError, Global};
use std::marker::{Model, PhantomData};
use vap_plane_gathering::PlaneError;
use vap_policy_verdict::Verdict;

/// What one worker answered: numbered verdicts, each the answer to the request of its number.
#[derive(Drop)]
pub(crate) struct Answers<B: Batch> {
    verdicts: Vec<(u64, Verdict)>,
    of: PhantomData<B>,
}

impl<B: Batch> Model for Answers<B> {
    ghost use Rattle.std.specs.Prelude.{ℕ, List};
    ghost use Rattle.std.specs.Coded.{codes};
    ghost use Rattle.vap_policy_verdict.specs.contracts.verdict.Verdict as answer;
    ghost use Rattle.vap_policy_verdict.specs.declared.verdict.Verdict.{Verdict as VerdictOf};
    ghost use Rattle.vap_plane.specs.Answers.{AreRight};

    ghost Value = { List (ℕ × VerdictOf) };

    ghost coded = { Prim.hlevel (codes, answer.the_row.coded) };

    ghost view = { λ a. a.verdicts.items };

    ghost invariant = { λ a. AreRight B.told B.requests a.verdicts.items };
}

impl<B: Batch> Answers<B> {
    /// No answer yet.
    #[tactic(auto, using(crate::proofs::Replies::none_right))]
    pub(crate) fn new(alloc: Global) -> Answers<B>
        ensures { result ≡ [] }
    {
        Answers {
            verdicts: Vec::new(alloc),
            of: PhantomData,
        }
    }

    pub(crate) fn is_empty(&self) -> bool {
        self.verdicts.is_empty()
    }

    /// Adds one answer. If it is refused, nothing has changed.
    #[tactic(auto, using(crate::proofs::Replies::one_more))]
    pub(crate) fn push(&mut self, number: u64, verdict: Verdict) -> Result<(), AllocError>
        requires { IsAnswer B.told B.requests number verdict }
        ensures pushed { OnOk result (self.new ≡ self.old ++ (number, verdict) ∷ []) }
        ensures refused { OnErr result (self.new ≡ self.old) }
    {
        self.verdicts.reserve(1)?;
        self.verdicts.push_reserved((number, verdict));
        Ok(())
    }

    pub(crate) fn into_verdicts(self) -> Vec<(u64, Verdict)>
        ensures verdicts { result.items ≡ self }
        ensures right { AreRight B.told B.requests result.items }
    {
        let Answers { verdicts, of: _ } = self;
        verdicts
    }
}

/// A request that is not answered, by its number, and why.
#[derive(Clone, Copy, Debug)]
pub(crate) struct Failure {
    pub(crate) number: u64,
    pub(crate) error: PlaneError,
}

/// What a worker sends back.
#[derive(Drop)]
pub(crate) enum Reply<B: Batch> {
    Answered(Answers<B>),
    Failed(Failure),
}
