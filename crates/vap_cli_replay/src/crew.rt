//! The workers of a replay.

ghost use Rattle.std.specs.Prelude.{◌≡◌, ◌≢◌, ◌+◌, ◌<◌, ◌≤◌, ◌^◌, ℕ, [], false, true, length, vec_len};
ghost use Rattle.std.specs.Prelude.{IfErr, IfOk, IfSome, IsErrOf};
ghost use Rattle.std.specs.List.{All};
ghost use Rattle.vap_watch.specs.Shown.{shows};
ghost use Rattle.base_containers.specs.declared.failed.Failed.TheVariants.{Fault};
ghost use Rattle.cel_machine.specs.declared.fault.RunFault.TheVariants.{Pattern};
ghost use Rattle.vap_plane.specs.Answers.{verdicts_at};
ghost use Rattle.vap_cli_replay.specs.Groups.{TellsRequests};
ghost use Rattle.vap_cli_replay.specs.Streams.{is_of_the_lines};
ghost use Rattle.vap_cli_lines.specs.declared.fault.LineFault.{LineFault as FaultOf};

use crate::fault::ReplayError;
use crate::recorded::{GroupCalls, is_recorded};
use std::alloc::{AllocError, Global};
use std::sync::Wait;
use std::sync::ledger::{Blank, Ledger};
use std::thread::Threads;
use vap_audit::judge;
use vap_cli_lines::LineFault;
use vap_match::Request;
use vap_plane::{Open, Pass, Plan, SharedHistory, Worker, run_workers, told_to};
use vap_plane_gathering::{PlaneError, PlaneFault};
use vap_policy::{JudgeError, RunFault, Workspace};
use vap_policy_verdict::Verdict;
use vap_watch::{ReaderError, ReaderSource, Snapshot, Told, revision_of};

/// The workers of a replay, which are made once, the history that they share, and a log that names the board that they read.
#[derive(Drop)]
pub(crate) struct Crew<'a, L: Plan, H> {
    pub(crate) rt: &'a H,
    alloc: Global,
    shared: SharedHistory<L>,
    home: Told,
    workers: Vec<Worker<L>>,
    ghost some: { (1 ≤ vec_len workers) × (vec_len workers ≤ 16) },
    ghost of_home: { All (λ w. w.reader.board ≡ home.board) workers.items },
}

impl<'a, L: Plan, H> Crew<'a, L, H> {
    /// As many workers as the ledger has parts, of the board that `home` names. A reader that has no place is reported at line 0.
    pub(crate) fn new(
        rt: &'a H,
        alloc: Global,
        source: &ReaderSource,
        home: Told,
        blank: Blank,
        workers: u64,
    ) -> Result<Crew<'a, L, H>, ReplayError>
        requires home { home.board ≡ source.now }
        requires name { blank.name ≡ L.name }
        requires parts { (blank.parts ≡ L.parts) × (blank.parts ≡ workers) }
        requires workers { (workers ≡ L.workers) × (1 ≤ workers) × (workers ≤ 16) }
        ensures home { IfOk result (λ crew. crew.home ≡ home) }
        ensures lines { (number : ℕ) → (why : FaultOf) → IsErrOf result (ReplayError.Line number why) → is_of_the_lines why ≡ false }
        ensures unwritten { IfErr result (λ error. error ≢ ReplayError.Write) }
        ensures no_pattern { (number : ℕ) → IsErrOf result (ReplayError.Line number LineFault.Pattern) → ⊥ }
        ensures no_image { (number : ℕ) → IsErrOf result (ReplayError.Line number LineFault.Unverified) → ⊥ }
        ensures no_read { IsErrOf result ReplayError.Read → ⊥ }
    {
        let (shared, passes) = SharedHistory::<L>::new(alloc, blank, workers)?;
        let workers = manned(alloc, source, passes)?;
        Ok(Crew {
            rt,
            alloc,
            shared,
            home,
            workers,
        })
    }
}

impl<L: Plan, H> Crew<'_, L, H> {
    /// How many threads there are, the one that reads among them.
    pub(crate) fn threads(&self) -> usize
        ensures { 1 ≤ result }
    {
        self.workers.len()
    }
}

impl<L: Plan + Send + Sync, H: Threads + Wait + Sync> Crew<'_, L, H> {
    /// The verdicts on requests at the published snapshot, which the workers are told of, in order, when all are judged there and
    /// recorded: their calls are numbered from `first`. A fault is reported at the line of the first of them. If there is no request,
    /// no worker works.
    #[tactic(auto, using(crate::proofs::Groups::none_asked, crate::proofs::Tellings::tells_stray, crate::proofs::Tellings::tells_workers))]
    pub(crate) fn judge(
        &mut self,
        line: u64,
        first: u64,
        told: &Told,
        snapshot: &Snapshot,
        requests: &[Request],
    ) -> Result<Vec<Verdict>, ReplayError>
        requires calls { first + length requests.now < 2 ^ 64 }
        requires told { told.now ≡ shows self.old.home.board snapshot.now }
        ensures home { self.new.home ≡ self.old.home }
        ensures verdicts { IfOk result (λ verdicts. verdicts.items ≡ verdicts_at snapshot.now requests.now) }
        ensures told { (number : ℕ) → (why : FaultOf) → IsErrOf result (ReplayError.Line number why)
            → TellsRequests line snapshot.now requests.now number why }
        ensures unwritten { IfErr result (λ error. error ≢ ReplayError.Write) }
        ensures no_read { IsErrOf result ReplayError.Read → ⊥ }
    {
        if requests.is_empty() {
            return Ok(Vec::new(self.alloc));
        }
        let sent = copies(self.alloc, requests)?;
        match self.run(first, told, snapshot, sent) {
            Ok(Some(verdicts)) => Ok(verdicts),
            Ok(None) => Err(ReplayError::Line {
                line,
                fault: LineFault::Stray,
            }),
            Err(PlaneError::OutOfMemory) => Err(ReplayError::OutOfMemory),
            Err(PlaneError::Fault(PlaneFault::Judge(call))) => {
                let place = call.saturating_sub(first) as usize;
                Err(unjudged(self.alloc, line, call, snapshot, requests, place))
            }
            Err(PlaneError::Fault(fault)) => Err(ReplayError::Line {
                line,
                fault: LineFault::OfWorkers(fault),
            }),
        }
    }

    /// The verdicts on requests at a snapshot, which the workers are told of; none if a worker met another snapshot, or the history
    /// that the workers share is not what they answered.
    fn run(
        &mut self,
        first: u64,
        told: &Told,
        snapshot: &Snapshot,
        requests: Vec<Request>,
    ) -> Result<Option<Vec<Verdict>>, PlaneError>
        requires calls { first + vec_len requests < 2 ^ 64 }
        requires told { told.now ≡ shows self.old.home.board snapshot.now }
        ensures verdicts { IfOk result (λ found. IfSome found (λ verdicts. verdicts.items ≡ verdicts_at snapshot.now requests.items)) }
        ensures home { self.new.home ≡ self.old.home }
    {
        let Crew {
            rt,
            alloc,
            shared,
            workers,
            ..
        } = self;
        let (rt, alloc, shared) = (*rt, *alloc, &*shared);
        let told = told_to(alloc, told, workers.len())?;
        let place = entries_in(rt, shared);
        let verdicts = run_workers(rt, alloc, workers, told, first, shared, requests, &Open)?;
        let revision = revision_of(snapshot);
        if !are_at(verdicts.as_slice(), revision) {
            return Ok(None);
        }
        let calls = GroupCalls {
            first,
            revision,
            verdicts: verdicts.as_slice(),
        };
        let kept = shared.kept.lock(rt);
        if is_recorded(alloc, kept.history(), place, &calls)? {
            Ok(Some(verdicts))
        } else {
            Ok(None)
        }
    }
}

/// How many entries the history has that workers share: one for each review that was not judged where it was read.
fn entries_in<L: Plan, H: Wait>(rt: &H, shared: &SharedHistory<L>) -> usize {
    let kept = shared.kept.lock(rt);
    kept.history().len()
}

/// Whether all verdicts name this revision.
fn are_at(verdicts: &[Verdict], revision: usize) -> bool
    ensures { result ≡ true → All (λ verdict. verdict.revision ≡ revision) verdicts.now }
{
    for verdict in verdicts {
        if verdict.revision != revision as u64 {
            return false;
        }
    }
    true
}

/// A worker for each pass, with a reader of its own.
fn manned<L: Ledger>(
    alloc: Global,
    source: &ReaderSource,
    passes: Vec<Pass<L>>,
) -> Result<Vec<Worker<L>>, ReplayError>
    ensures count { IfOk result (λ workers. vec_len workers ≡ vec_len passes) }
    ensures board { IfOk result (λ workers. All (λ w. w.reader.board ≡ source.now) workers.items) }
    ensures lines { (number : ℕ) → (why : FaultOf) → IsErrOf result (ReplayError.Line number why) → is_of_the_lines why ≡ false }
    ensures unwritten { IfErr result (λ error. error ≢ ReplayError.Write) }
    ensures no_pattern { (number : ℕ) → IsErrOf result (ReplayError.Line number LineFault.Pattern) → ⊥ }
    ensures no_image { (number : ℕ) → IsErrOf result (ReplayError.Line number LineFault.Unverified) → ⊥ }
    ensures no_read { IsErrOf result ReplayError.Read → ⊥ }
{
    let mut workers = Vec::new(alloc);
    for pass in passes {
        let worker = match source.reader() {
            Ok(reader) => Worker::new(alloc, pass, reader),
            Err(error) => return Err(unmanned(error)),
        };
        workers.push(worker)?;
    }
    Ok(workers)
}

/// Why there is no worker, which is reported before the first line.
fn unmanned(error: ReaderError) -> ReplayError
    ensures lines { (number : ℕ) → (why : FaultOf) → result ≡ ReplayError.Line number why → is_of_the_lines why ≡ false }
    ensures unwritten { result ≢ ReplayError.Write }
    ensures no_pattern { (number : ℕ) → result ≡ ReplayError.Line number LineFault.Pattern → ⊥ }
    ensures no_image { (number : ℕ) → result ≡ ReplayError.Line number LineFault.Unverified → ⊥ }
    ensures no_read { result ≢ ReplayError.Read }
{
    match error {
        ReaderError::Fault(_) => ReplayError::Line {
            line: 0,
            fault: LineFault::NoPlace,
        },
        ReaderError::OutOfMemory => ReplayError::OutOfMemory,
    }
}

/// The same requests, each with one more owner.
fn copies(alloc: Global, requests: &[Request]) -> Result<Vec<Request>, AllocError>
    ensures { IfOk result (λ copies. copies.items ≡ requests.now) }
{
    let mut copies = Vec::new(alloc);
    for request in requests {
        copies.push(request.copy()?)?;
    }
    Ok(copies)
}

/// Why the request at this place is not judged: it is judged once more, and if it is given up for a pattern again, that is why. This
/// is reported at the line of the first request.
#[tactic(auto, using(crate::proofs::Tellings::tells_workers))]
fn unjudged(
    alloc: Global,
    line: u64,
    call: u64,
    snapshot: &Snapshot,
    requests: &[Request],
    place: usize,
) -> ReplayError
    requires { requests.now ≢ [] }
    ensures told { (number : ℕ) → (why : FaultOf) → result ≡ ReplayError.Line number why
        → TellsRequests line snapshot.now requests.now number why }
    ensures unwritten { result ≢ ReplayError.Write }
    ensures no_read { result ≢ ReplayError.Read }
{
    let Some(request) = requests.get(place) else {
        return unanswered(line, call);
    };
    let mut workspace = Workspace::new(alloc);
    if let Err(error) = judge(alloc, snapshot, request, &mut workspace) {
        return given_up(line, error);
    }
    unanswered(line, call)
}

/// A request that is given up, which is reported at a line.
pub(crate) fn given_up(line: u64, error: JudgeError) -> ReplayError
    ensures pattern { (number : ℕ) → (why : FaultOf) → result ≡ ReplayError.Line number why → (number ≡ line) × (why ≡ LineFault.Pattern) }
    ensures told { (number : ℕ) → (why : FaultOf) → result ≡ ReplayError.Line number why → error ≡ Fault Pattern }
    ensures unwritten { result ≢ ReplayError.Write }
    ensures no_read { result ≢ ReplayError.Read }
{
    match error {
        JudgeError::Fault(RunFault::Pattern) => ReplayError::Line {
            line,
            fault: LineFault::Pattern,
        },
        JudgeError::OutOfMemory => ReplayError::OutOfMemory,
    }
}

/// A request that a worker did not judge.
fn unanswered(line: u64, call: u64) -> ReplayError
    ensures { result ≡ ReplayError.Line line (LineFault.OfWorkers (PlaneFault.Judge call)) }
{
    ReplayError::Line {
        line,
        fault: LineFault::OfWorkers(PlaneFault::Judge(call)),
    }
}
