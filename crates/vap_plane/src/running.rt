//! Requests that workers judge side by side.

ghost use Rattle.std.specs.Prelude.{◌≡◌, ◌+◌, ◌<◌, ◌≤◌, ◌^◌, ℕ, length, replicate, slice_index_or, vec_len, IfOk};
ghost use Rattle.vap_plane.specs.Answers.{AreAnswers, AreAtTold, AreRight, KnowsOneOf};

use crate::closing::{Plan, SharedHistory};
use crate::collected::{Collected, joined};
use crate::gate::Gate;
use crate::jobs::{Batch, Job, Round};
use crate::messages::{Answers, Failure, Reply};
use crate::post::Post;
use crate::worker::Worker;
use crossbeam_channel::{Receiver, Sender};
use std::alloc::{AllocError, Global};
use std::marker::Brand;
use std::sync::Wait;
use std::thread;
use std::thread::Threads;
use vap_match::Request;
use vap_plane_gathering::PlaneError;
use vap_policy_verdict::Verdict;
use vap_watch::Told;

/// Judges and records each request by one of the workers; a worker takes the next request when it is done with one. Before, each
/// worker learns the log that is told to it, so that it judges at logs that begin with this one. The verdicts come in the order of
/// the requests, whose calls are numbered from `first`. If calls are not answered, the error of the least of them is reported; what is
/// recorded stays. For one worker no thread is started.
#[tactic(auto, using(crate::proofs::There::at_told))]
pub fn run_workers<L: Plan + Send + Sync, R: Threads + Wait + Sync, G: Gate + Sync>(
    rt: &R,
    alloc: Global,
    workers: &mut Vec<Worker<L>>,
    told: Vec<Told>,
    first: u64,
    shared: &SharedHistory<L>,
    requests: Vec<Request>,
    gate: &G,
) -> Result<Vec<Verdict>, PlaneError>
    requires some { (1 ≤ vec_len workers.old) × (vec_len workers.old ≤ 16) }
    requires told { vec_len told ≡ vec_len workers.old }
    requires boards { (k : ℕ) (w : _) (t : _) → k < vec_len workers.old
        → (slice_index_or told.items k t).board ≡ (slice_index_or workers.old.items k w).reader.board }
    requires calls { first + vec_len requests < 2 ^ 64 }
    ensures answers { IfOk result (λ verdicts. AreAnswers told.items requests.items verdicts.items) }
    ensures there { IfOk result (λ verdicts. AreAtTold told.items requests.items verdicts.items) }
    ensures workers { vec_len workers.new ≡ vec_len workers.old }
    ensures same { (k : ℕ) (w : _) → k < vec_len workers.old
        → (slice_index_or workers.new.items k w).reader.board ≡ (slice_index_or workers.old.items k w).reader.board }
{
    let round = Round {
        first,
        requests,
        told,
    };
    run::<L, Brand, R, G>(rt, alloc, workers, shared, round, gate)
}

/// What each of so many workers is told, if they are told the same.
pub fn told_to(alloc: Global, told: &Told, workers: usize) -> Result<Vec<Told>, AllocError>
    ensures { IfOk result (λ all. all.items ≡ replicate workers told.now) }
{
    let mut all = Vec::new(alloc);
    for _worker in 0..workers {
        all.push(told.again())?;
    }
    Ok(all)
}

/// The verdicts on the requests of a batch.
fn run<L: Plan + Send + Sync, B: Batch + Send + Sync, R: Threads + Wait + Sync, G: Gate + Sync>(
    rt: &R,
    alloc: Global,
    workers: &mut Vec<Worker<L>>,
    shared: &SharedHistory<L>,
    round: Round,
    gate: &G,
) -> Result<Vec<Verdict>, PlaneError>
    requires batch { (round.requests.items ≡ B.requests) × (round.told.items ≡ B.told) }
    requires some { 1 ≤ vec_len workers.old }
    requires told { vec_len round.told ≡ vec_len workers.old }
    requires boards { (k : ℕ) (w : _) (t : _) → k < vec_len workers.old
        → (slice_index_or round.told.items k t).board ≡ (slice_index_or workers.old.items k w).reader.board }
    requires calls { round.first + vec_len round.requests < 2 ^ 64 }
    ensures answers { IfOk result (λ verdicts. AreAnswers B.told B.requests verdicts.items) }
    ensures workers { vec_len workers.new ≡ vec_len workers.old }
    ensures same { (k : ℕ) (w : _) → k < vec_len workers.old
        → (slice_index_or workers.new.items k w).reader.board ≡ (slice_index_or workers.old.items k w).reader.board }
{
    let Round {
        first,
        requests,
        told,
    } = round;
    let count = requests.len() as u64;
    let (to_workers, jobs) = crossbeam_channel::unbounded::<Job<B>, Global>(alloc)?;
    let (replies, from_workers) = crossbeam_channel::unbounded::<Reply<B>, Global>(alloc)?;
    send_all(rt, to_workers, first, requests)?;
    let post = Post::new(jobs, replies);
    let service = Service {
        rt,
        alloc,
        told: told.as_slice(),
        post: &post,
        shared,
        gate,
    };
    serve_each(rt, workers.as_mut_slice(), service);
    if post.is_short() {
        return Err(PlaneError::OutOfMemory);
    }
    drop(post);
    let collected = collect(rt, alloc, from_workers)?;
    let verdicts = joined(alloc, first, count, collected)?;
    Ok(verdicts)
}

/// Serves the workers, each in a thread.
fn serve_each<
    L: Plan + Send + Sync,
    B: Batch + Send + Sync,
    R: Threads + Wait + Sync,
    G: Gate + Sync,
>(rt: &R, workers: &mut [Worker<L>], service: Service<'_, '_, '_, '_, '_, L, B, R, G>)
    requires some { 1 ≤ length workers.old }
    requires told { length service.told.now ≡ length workers.old }
    requires boards { (k : ℕ) (w : _) (t : _) → k < length workers.old
        → (slice_index_or service.told.now k t).board ≡ (slice_index_or workers.old k w).reader.board }
    ensures workers { length workers.new ≡ length workers.old }
    ensures same { (k : ℕ) (w : _) → k < length workers.old
        → (slice_index_or workers.new k w).reader.board ≡ (slice_index_or workers.old k w).reader.board }
{
    let threads = workers.len();
    let work = |number: usize, worker: &mut Worker<L>|
        requires told { number < length service.told.now }
        requires board { (t : _) → (slice_index_or service.told.now number t).board ≡ worker.now.reader.board }
        ensures { worker.exit.now.reader.board ≡ worker.entry.now.reader.board }
    { service.serve(number, worker) };
    thread::for_each_mut(rt, workers, threads, &work);
}

/// What a worker is served with.
#[derive(Drop)]
struct Service<'r, 't, 'p, 's, 'g, L: Plan, B: Batch, R, G> {
    rt: &'r R,
    alloc: Global,
    told: &'t [Told],
    post: &'p Post<B>,
    shared: &'s SharedHistory<L>,
    gate: &'g G,
    ghost of_batch: { told.now ≡ B.told },
}

impl<L: Plan, B: Batch, R: Wait, G: Gate> Service<'_, '_, '_, '_, '_, L, B, R, G> {
    /// Lets the worker of this place learn what is told to it, and judge and record the requests that come. If memory runs out, this
    /// is noted.
    #[tactic(auto, using(crate::proofs::Replies::knows_one))]
    fn serve(&self, number: usize, worker: &mut Worker<L>)
        requires told { number < length self.now.told.now }
        requires board { (t : _) → (slice_index_or self.now.told.now number t).board ≡ worker.old.reader.board }
        ensures { worker.new.reader.board ≡ worker.old.reader.board }
    {
        worker.learn(self.told[number].again());
        if self.serve_all(worker).is_err() {
            self.post.note_short();
        }
    }

    /// Judges and records the requests that come, until there are no more, and leaves the answers together.
    fn serve_all(&self, worker: &mut Worker<L>) -> Result<(), AllocError>
        requires { KnowsOneOf B.told worker.old.reader }
        ensures { worker.new.reader.board ≡ worker.old.reader.board }
    {
        let mut answers = Answers::new(self.alloc);
        for _turn in 0..u64::MAX {
            let Some(job) = self.post.take(self.rt) else {
                break;
            };
            let call = job.call;
            self.gate.before(call);
            let answered = self.answer(worker, job, &mut answers);
            self.gate.after(call);
            answered?;
        }
        self.post.leave(self.rt, answers)
    }

    /// Judges and records one request, and adds its answer to the others, or leaves its failure if it is not answered.
    #[tactic(auto, using(crate::proofs::Replies::answered, crate::proofs::Replies::knows_still))]
    fn answer(
        &self,
        worker: &mut Worker<L>,
        job: Job<B>,
        answers: &mut Answers<B>,
    ) -> Result<(), AllocError>
        requires { KnowsOneOf B.told worker.old.reader }
        ensures knows { KnowsOneOf B.told worker.new.reader }
        ensures same { worker.new.reader.board ≡ worker.old.reader.board }
    {
        let Job {
            number,
            call,
            request,
            ..
        } = job;
        match worker.admit(self.rt, self.alloc, self.shared, call, request) {
            Ok(verdict) => answers.push(number, verdict),
            Err((error, _request)) => self.post.refuse(self.rt, Failure { number, error }),
        }
    }
}

/// Sends each request with its number and its call.
fn send_all<B: Batch, R: Wait>(
    rt: &R,
    jobs: Sender<Job<B>>,
    first: u64,
    requests: Vec<Request>,
) -> Result<(), AllocError>
    requires batch { requests.items ≡ B.requests }
    requires calls { first + vec_len requests < 2 ^ 64 }
{
    let mut number = 0;
    for request in requests {
        if jobs
            .send(rt, Job::new(number, first + number, request))
            .is_err()
        {
            return Err(AllocError);
        }
        number += 1;
    }
    Ok(())
}

/// All that came back.
#[tactic(auto, using(crate::proofs::Replies::none_right))]
fn collect<B: Batch, R: Wait>(
    rt: &R,
    alloc: Global,
    replies: Receiver<Reply<B>>,
) -> Result<Collected, AllocError>
    ensures { IfOk result (λ c. AreRight B.told B.requests c.answers.items) }
{
    let mut collected = Collected::new(alloc);
    for _turn in 0..u64::MAX {
        match replies.recv(rt) {
            Ok(Reply::Answered(answers)) => collected.keep(answers)?,
            Ok(Reply::Failed(failure)) => collected.note(failure),
            Err(_) => break,
        }
    }
    Ok(collected)
}
