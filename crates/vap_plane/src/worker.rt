//! Workers.

ghost use Rattle.std.specs.Prelude.{◌≡◌, ◌++◌, ◌∷◌, ◌+◌, [], length, IfErr, MatchResult, OnErr, OnOk};
ghost use Rattle.base_containers.specs.declared.failed.Failed.TheVariants.{Fault};
ghost use Rattle.vap_audit.specs.Entries.{most_entries};
ghost use Rattle.vap_watch.specs.Logs.{set_of};
ghost use Rattle.vap_watch.specs.Seen.{Learns, Looks, SeesMore};
ghost use Rattle.vap_audit.specs.Verdicts.{MayMatch, verdict_at};
ghost use Rattle.vap_plane.specs.Recorded.{IsUnanswered, IsUndecided, IsUnjudged, IsUnrecorded, IsUnseen, entry_of};

use crate::closing::{Plan, SharedHistory};
use crate::kept::Kept;
use base_containers::Shared;
use std::alloc::Global;
use std::sync::Wait;
use std::sync::ledger::{Ledger, Share};
use vap_audit::{AuditFault, Entry, judge};
use vap_match::Request;
use vap_plane_gathering::{PlaneError, PlaneFault};
use vap_policy::{JudgeError, RunFault, Workspace};
use vap_policy_verdict::Verdict;
use vap_watch::{Log, Reader, ReaderError, Told};

/// The right to be the worker of this number: of each number there is one.
#[derive(Drop)]
pub struct Pass<L: Ledger> {
    number: u64,
    share: Share<L>,
    ghost one_part: { share.parts ≡ 1 },
    ghost unused: { share.amount ≡ 0 },
}

impl<L: Ledger> Pass<L> {
    pub(crate) fn new(number: u64, share: Share<L>) -> Pass<L>
        requires part { share.parts ≡ 1 }
        requires amount { share.amount ≡ 0 }
        ensures { result.number ≡ number }
    {
        Pass { number, share }
    }
}

/// A verdict, with the call and the request that it was given on, and the log that it was given at.
#[derive(Drop)]
pub struct Judged {
    call: u64,
    log: Shared<Log>,
    request: Request,
    verdict: Verdict,
    ghost right: { verdict ≡ verdict_at log request },
}

impl Judged {
    fn new(call: u64, log: Shared<Log>, request: Request, verdict: Verdict) -> Judged
        requires { verdict ≡ verdict_at log request }
        ensures { (result.call ≡ call) × (result.log ≡ log) × (result.request ≡ request) × (result.verdict ≡ verdict) }
    {
        Judged {
            call,
            log,
            request,
            verdict,
        }
    }

    pub fn verdict(&self) -> &Verdict
        ensures { result.now ≡ self.now.verdict }
    {
        &self.verdict
    }

    fn into_request(self) -> Request
        ensures { result ≡ self.request }
    {
        let Judged { request, .. } = self;
        request
    }
}

/// Judges by what is published and records in one history. It keeps the patterns that it met, so that it builds each once, and the
/// room in which it opens reviews.
#[derive(Drop)]
pub struct Worker<L: Ledger> {
    number: u64,
    count: u64,
    share: Share<L>,
    reader: Reader,
    workspace: Workspace,
    ghost one_part: { share.parts ≡ 1 },
    ghost counted: { share.amount ≡ count },
}

impl<L: Ledger> Worker<L> {
    /// The worker with the pass's number. This takes no memory.
    pub fn new(alloc: Global, pass: Pass<L>, reader: Reader) -> Worker<L>
        ensures number { result.number ≡ pass.number }
        ensures count { result.count ≡ 0 }
        ensures reader { result.reader ≡ reader }
    {
        let Pass { number, share } = pass;
        Worker {
            number,
            count: 0,
            share,
            reader,
            workspace: Workspace::new(alloc),
        }
    }

    pub(crate) fn into_share(self) -> Share<L>
        ensures { (result.parts ≡ 1) × (result.amount ≡ self.count) }
    {
        let Worker { share, .. } = self;
        share
    }

    /// How often [`Worker::record`] succeeded.
    pub fn count(&self) -> u64
        ensures { result ≡ self.now.count }
    {
        self.count
    }

    /// Takes in what a writer told: from now on the worker judges at logs that begin with this one.
    pub fn learn(&mut self, told: Told)
        requires { told.board ≡ self.old.reader.board }
        ensures told { Learns self.old.reader self.new.reader told.list }
        ensures same { (self.new.count ≡ self.old.count) × (self.new.number ≡ self.old.number) }
    {
        self.reader.learn(told);
    }

    /// Takes in what is published.
    fn look(&mut self, call: u64) -> Result<(), PlaneError>
        ensures seen { OnOk result (Looks self.old.reader self.new.reader) }
        ensures refused { OnErr result (self.new.reader ≡ self.old.reader) }
        ensures fault { IfErr result (λ error. IsUnseen call error) }
        ensures same { (self.new.count ≡ self.old.count) × (self.new.number ≡ self.old.number) }
    {
        match self.reader.look() {
            Ok(_) => Ok(()),
            Err(error) => Err(unseen(call, error)),
        }
    }

    /// Judges a request at the published log, which the worker has then seen. This log begins with all that it had seen, and with all
    /// that it was told of. If it is refused, the request comes back. `Judge` comes only if the log's set looks for a pattern.
    #[tactic(auto, using(crate::proofs::Replies::sees_same))]
    pub fn judge(
        &mut self,
        alloc: Global,
        call: u64,
        request: Request,
    ) -> Result<Judged, (PlaneError, Request)>
        ensures judged { MatchResult result
            (λ judged. (judged.call ≡ call) × (judged.log ≡ self.new.reader.seen) × (judged.request ≡ request)
            × (judged.verdict ≡ verdict_at self.new.reader.seen request))
            (λ refused. refused.1 ≡ request) }
        ensures seen { OnOk result (Looks self.old.reader self.new.reader) }
        ensures unseen { OnErr result (SeesMore self.old.reader self.new.reader) }
        ensures fault { IfErr result (λ refused. IsUnjudged call refused.0) }
        ensures pattern { IfErr result (λ refused. refused.0 ≡ Fault (PlaneFault.Judge call)
            → MayMatch (set_of self.new.reader.seen) request) }
        ensures same { (self.new.count ≡ self.old.count) × (self.new.number ≡ self.old.number) }
    {
        if let Err(error) = self.look(call) {
            return Err((error, request));
        }
        self.judge_there(alloc, call, request)
    }

    /// Judges a request at the log that was seen last.
    fn judge_there(
        &mut self,
        alloc: Global,
        call: u64,
        request: Request,
    ) -> Result<Judged, (PlaneError, Request)>
        ensures judged { MatchResult result
            (λ judged. (judged.call ≡ call) × (judged.log ≡ self.old.reader.seen) × (judged.request ≡ request)
            × (judged.verdict ≡ verdict_at self.old.reader.seen request))
            (λ refused. refused.1 ≡ request) }
        ensures fault { IfErr result (λ refused. IsUndecided call refused.0) }
        ensures pattern { IfErr result (λ refused. refused.0 ≡ Fault (PlaneFault.Judge call)
            → MayMatch (set_of self.old.reader.seen) request) }
        ensures same { (self.new.count ≡ self.old.count) × (self.new.number ≡ self.old.number) }
        ensures reader { self.new.reader ≡ self.old.reader }
    {
        let Worker {
            reader,
            workspace,
            ..
        } = self;
        let snapshot = reader.seen();
        let Ok(log) = snapshot.share_log() else {
            return Err((PlaneError::OutOfMemory, request));
        };
        match judge(alloc, snapshot, &request, workspace) {
            Ok(verdict) => Ok(Judged::new(call, log, request, verdict)),
            Err(JudgeError::Fault(RunFault::Pattern)) => Err((
                PlaneError::Fault(PlaneFault::Judge(call)),
                request,
            )),
            Err(JudgeError::OutOfMemory) => Err((PlaneError::OutOfMemory, request)),
        }
    }

    /// Puts what was judged last in the history that is lent, under the worker's number, and answers its verdict. If it is
    /// refused, it comes back and nothing has changed.
    pub fn record(
        &mut self,
        kept: &mut Kept<L>,
        judged: Judged,
    ) -> Result<Verdict, (PlaneError, Judged)>
        ensures history { MatchResult result
            (λ verdict. (verdict ≡ judged.verdict) × (kept.new.history ≡ kept.old.history
            ++ entry_of judged.call judged.log judged.request judged.verdict self.old.number ∷ []))
            (λ refused. (refused.1 ≡ judged) × (kept.new.history ≡ kept.old.history)) }
        ensures count { MatchResult result (λ _. self.new.count ≡ self.old.count + 1) (λ _. self.new.count ≡ self.old.count) }
        ensures fault { IfErr result (λ refused. IsUnrecorded judged.call refused.0) }
        ensures full { IfErr result (λ refused. refused.0 ≡ Fault (PlaneFault.Audit judged.call) → length kept.old.history ≡ most_entries) }
        ensures same { (self.new.reader ≡ self.old.reader) × (self.new.number ≡ self.old.number) }
    {
        let Ok(verdict) = judged.verdict.copy() else {
            return Err((PlaneError::OutOfMemory, judged));
        };
        match self.append(kept, judged) {
            Ok(()) => Ok(verdict),
            Err(refused) => Err(refused),
        }
    }

    /// Puts what was judged last in the history that is lent. If it is refused, it comes back and nothing has changed.
    fn append(&mut self, kept: &mut Kept<L>, judged: Judged) -> Result<(), (PlaneError, Judged)>
        ensures history { MatchResult result
            (λ _. kept.new.history ≡ kept.old.history
            ++ entry_of judged.call judged.log judged.request judged.verdict self.old.number ∷ [])
            (λ refused. (refused.1 ≡ judged) × (kept.new.history ≡ kept.old.history)) }
        ensures count { MatchResult result (λ _. self.new.count ≡ self.old.count + 1) (λ _. self.new.count ≡ self.old.count) }
        ensures fault { IfErr result (λ refused. IsUnrecorded judged.call refused.0) }
        ensures full { IfErr result (λ refused. refused.0 ≡ Fault (PlaneFault.Audit judged.call) → length kept.old.history ≡ most_entries) }
        ensures same { (self.new.reader ≡ self.old.reader) × (self.new.number ≡ self.old.number) }
    {
        let call = judged.call;
        let entry = entry(judged, self.number);
        let Worker { count, share, .. } = self;
        match kept.append(share, entry) {
            Ok(_) => {
                *count += 1;
                Ok(())
            }
            Err((fault, entry)) => Err((unrecorded(call, fault), judged_again(entry))),
        }
    }
}

impl<L: Plan> Worker<L> {
    /// Judges, then records under the lock. If it is refused, the request comes back. `Judge` comes only if the log's set looks for a
    /// pattern.
    #[tactic(auto, using(crate::proofs::Replies::sees_on))]
    pub fn admit<R: Wait>(
        &mut self,
        rt: &R,
        alloc: Global,
        shared: &SharedHistory<L>,
        call: u64,
        request: Request,
    ) -> Result<Verdict, (PlaneError, Request)>
        ensures verdict { MatchResult result (λ verdict. verdict ≡ verdict_at self.new.reader.seen request)
            (λ refused. refused.1 ≡ request) }
        ensures seen { OnOk result (Looks self.old.reader self.new.reader) }
        ensures unseen { OnErr result (SeesMore self.old.reader self.new.reader) }
        ensures count { MatchResult result (λ _. self.new.count ≡ self.old.count + 1) (λ _. self.new.count ≡ self.old.count) }
        ensures fault { IfErr result (λ refused. IsUnanswered call refused.0) }
        ensures pattern { IfErr result (λ refused. refused.0 ≡ Fault (PlaneFault.Judge call)
            → MayMatch (set_of self.new.reader.seen) request) }
        ensures same { self.new.number ≡ self.old.number }
    {
        let judged = self.judge(alloc, call, request)?;
        let Ok(verdict) = judged.verdict.copy() else {
            return Err((PlaneError::OutOfMemory, judged.into_request()));
        };
        let mut kept = shared.kept.lock(rt);
        let appended = self.append(&mut *kept, judged);
        // The lock is held while the entry is put last, and no longer.
        drop(kept);
        match appended {
            Ok(()) => Ok(verdict),
            Err((error, judged)) => Err((error, judged.into_request())),
        }
    }
}

/// Why nothing is seen.
fn unseen(call: u64, error: ReaderError) -> PlaneError
    ensures { IsUnseen call result }
{
    match error {
        ReaderError::Fault(_) => PlaneError::Fault(PlaneFault::Gone(call)),
        ReaderError::OutOfMemory => PlaneError::OutOfMemory,
    }
}

/// The entry of what was judged.
fn entry(judged: Judged, worker: u64) -> Entry
    ensures entry { result ≡ entry_of judged.call judged.log judged.request judged.verdict worker }
    ensures right { result.verdict ≡ verdict_at result.log result.request }
{
    let Judged {
        call,
        log,
        request,
        verdict,
    } = judged;
    Entry {
        call,
        log,
        request,
        verdict,
        worker,
    }
}

/// Why a call is not recorded.
fn unrecorded(call: u64, fault: AuditFault) -> PlaneError
    ensures why { IsUnrecorded call result }
    ensures full { result ≡ Fault (PlaneFault.Audit call) → fault ≡ AuditFault.AuditFull }
{
    match fault {
        AuditFault::AuditFull => PlaneError::Fault(PlaneFault::Audit(call)),
        AuditFault::OutOfMemory => PlaneError::OutOfMemory,
    }
}

/// What an entry was made of.
fn judged_again(entry: Entry) -> Judged
    requires { entry.verdict ≡ verdict_at entry.log entry.request }
    ensures { (result.call ≡ entry.call) × (result.log ≡ entry.log) × (result.request ≡ entry.request) × (result.verdict ≡ entry.verdict) }
{
    let Entry {
        call,
        log,
        request,
        verdict,
        worker: _,
    } = entry;
    Judged::new(call, log, request, verdict)
}
