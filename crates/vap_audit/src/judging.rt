//! Verdicts at snapshots.

ghost use Rattle.std.specs.Prelude.{◌≡◌, ◌≤◌, length, IfOk, IsErrOf};
ghost use Rattle.base_containers.specs.declared.failed.Failed.TheVariants.{Fault};
ghost use Rattle.cel_machine.specs.declared.fault.RunFault.TheVariants.{Pattern};
ghost use Rattle.vap_watch.specs.Logs.{set_of};
ghost use Rattle.vap_audit.specs.Verdicts.{MayMatch, budget, verdict_at};

use cel_machine::Matchers;
use std::alloc::Global;
use vap_match::{OpenRequest, Request};
use vap_policy::{JudgeError, Workspace};
use vap_policy_verdict::Verdict;
use vap_watch::Snapshot;

/// The verdict on a request at a snapshot's log. Its revision is the number of the log's events, and it charges at most the budget of a
/// request. It is given up for a pattern only if the log's set looks for one at the request.
#[tactic(auto, using(crate::proofs::Revisions::verdict_revision), unfolding(crate::specs::Verdicts::verdict_of))]
pub fn judge(
    alloc: Global,
    snapshot: &Snapshot,
    request: &Request,
    workspace: &mut Workspace,
) -> Result<Verdict, JudgeError>
    ensures verdict { IfOk result (λ verdict. verdict ≡ verdict_at snapshot.now request.now) }
    ensures revision { IfOk result (λ verdict. verdict.revision ≡ length snapshot.now) }
    ensures spent { IfOk result (λ verdict. verdict.charged ≤ budget) }
    ensures pattern { IsErrOf result (Fault Pattern) → MayMatch (set_of snapshot.now) request.now }
{
    vap_policy::judge(alloc, snapshot.set(), request, workspace)
}

/// The same of a request whose review is open.
#[tactic(auto, using(crate::proofs::Revisions::verdict_revision), unfolding(crate::specs::Verdicts::verdict_of))]
pub fn judge_open(
    alloc: Global,
    snapshot: &Snapshot,
    request: &OpenRequest<'_, '_, '_>,
    matchers: &mut Matchers,
) -> Result<Verdict, JudgeError>
    ensures verdict { IfOk result (λ verdict. verdict ≡ verdict_at snapshot.now request.now.request.now) }
    ensures revision { IfOk result (λ verdict. verdict.revision ≡ length snapshot.now) }
    ensures spent { IfOk result (λ verdict. verdict.charged ≤ budget) }
    ensures pattern { IsErrOf result (Fault Pattern) → MayMatch (set_of snapshot.now) request.now.request.now }
{
    vap_policy::judge_open(alloc, snapshot.set(), request, matchers)
}
