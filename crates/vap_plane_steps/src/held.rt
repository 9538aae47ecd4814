//! What workers hold.

ghost use Rattle.std.specs.Prelude.{◌≡◌, ◌⊎◌, ◌≢◌, None, Some, IfOk, is_some};
ghost use Rattle.vap_audit.specs.Entries.{IsRight};
ghost use Rattle.vap_plane_steps.specs.Held.{entered, entry_of, judged};

use std::alloc::{AllocError, Global};
use std::marker::Model;
use vap_audit::{Entry, judge};
use vap_match::Request;
use vap_policy::{JudgeError, RunFault, Workspace};
use vap_policy_verdict::Verdict;
use vap_watch::Snapshot;

/// A request with its call, entered at a snapshot, with or without a verdict, which is the one at this snapshot's log.
#[derive(Drop)]
pub(crate) struct Held {
    request: Request,
    call: u64,
    snapshot: Snapshot,
    verdict: Option<Verdict>,
}

impl Model for Held {
    ghost use Rattle.std.specs.Coded.{codes};
    ghost use Rattle.vap_read.specs.contracts.event.Event as event;
    ghost use Rattle.vap_match.specs.contracts.request.Request as asked;
    ghost use Rattle.vap_policy_verdict.specs.contracts.verdict.Verdict as answer;
    ghost use Rattle.vap_plane_steps.specs.Held.{Holding, IsRightOf};

    ghost Value = { Holding };

    ghost coded = { Prim.hlevel (codes, event.the_row.coded, asked.the_row.coded, answer.the_row.coded) };

    ghost view = { λ h. record { request = h.request; call = h.call; log = h.snapshot; verdict = h.verdict } };

    ghost invariant = { λ h. IsRightOf h.snapshot h.request h.verdict };
}

impl Held {
    pub(crate) fn new(request: Request, call: u64, snapshot: Snapshot) -> Held
        ensures { result ≡ entered request call snapshot }
    {
        Held {
            request,
            call,
            snapshot,
            verdict: None,
        }
    }

    pub(crate) fn is_decided(&self) -> bool
        ensures { result ≡ is_some self.now.verdict }
    {
        self.verdict.is_some()
    }

    /// Judges the request, if it has no verdict yet. If a pattern is not built again, nothing changes.
    pub(crate) fn judge(self, alloc: Global, workspace: &mut Workspace) -> Result<Held, AllocError>
        ensures { IfOk result (λ held. (held ≡ judged self.verdict self) ⊎ (held ≡ self)) }
    {
        let Held {
            request,
            call,
            snapshot,
            verdict,
        } = self;
        let verdict = match verdict {
            Some(verdict) => Some(verdict),
            None => match judge(alloc, &snapshot, &request, workspace) {
                Ok(verdict) => Some(verdict),
                Err(JudgeError::Fault(RunFault::Pattern)) => None,
                Err(JudgeError::OutOfMemory) => return Err(AllocError),
            },
        };
        Ok(Held {
            request,
            call,
            snapshot,
            verdict,
        })
    }

    /// What is recorded of the verdict by this worker.
    pub(crate) fn entry(self, worker: u64) -> Result<Entry, AllocError>
        requires { self.verdict ≢ None }
        ensures entry { IfOk result (λ entry. (self.verdict ≡ Some entry.verdict) × (entry ≡ entry_of self entry.verdict worker)) }
        ensures right { IfOk result IsRight }
    {
        let Held {
            request,
            call,
            snapshot,
            verdict,
        } = self;
        let Some(verdict) = verdict else {
            unreachable!()
        };
        Ok(Entry {
            call,
            log: snapshot.share_log()?,
            request,
            verdict,
            worker,
        })
    }
}
