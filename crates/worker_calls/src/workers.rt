//! What workers do: one after the other, and side by side.
//!
//! `gathered` joins verdicts, each with a number of `with` and with its place as its revision. The other calls have as many workers as
//! the first number of `with` says; the input is a list of steps of one writer: `{"publish": [EVENT, ..]}` publishes events together;
//! `{"judge": REVIEW}` has the first worker judge, under the next call, and `{"record": 0}` has it record all that it judged;
//! `{"admit": REVIEW, "worker": WORKER}` has a worker do both; `{"learn": 0}` has the first worker learn what the writer tells. `served`
//! takes them and closes the history with the first workers, as many as the second number of `with` says; `strayed` does so over the
//! log of another writer, which published what `{"elsewhere": [EVENT, ..]}` says; `met` takes only publications, and then has two calls
//! judged side by side, behind a gate that lets no call through alone, so many times as the second number of `with` says.

ghost use Rattle.std.specs.Prelude.{◌≡◌, ◌<◌, ◌≤◌, ◌-◌, ◌^◌, vec_len, IfOk};
ghost use Rattle.std.specs.List.{All};

use crate::steps::push_entries;
use calls_notation::{Asked, json, request_in, unknown};
use serde_json::Value as Json;
use std::alloc::{AllocError, Global};
use std::marker::Brand;
use std::sync::Wait;
use std::sync::atomic::{AtomicU64, Ordering};
use std::sync::ledger::{Blank, Ledger};
use std::thread::Threads;
use std::time::{Clock, Duration};
use std::{mem, thread};
use vap_match::{Request, items_of};
use vap_plane::{
    CloseError, Gate, Judged, Kept, Pass, Plan, SharedHistory, Worker, close, run_workers, told_to,
};
use vap_plane_gathering::{GatherError, PlaneError, gather};
use vap_policy_verdict::{Verdict, unfit_verdict};
use vap_read::{Event, EventError};
use vap_watch::{ReaderSource, StageFault, Told, Writer, open};

/// The most sleeps of a thread that waits for another.
pub const MOST_SLEEPS: u64 = 10_000;

/// The answer to a call of workers.
pub fn answer<R: Threads + Wait + Clock + Sync>(
    rt: &R,
    alloc: Global,
    asked: &Asked,
) -> Result<String, AllocError> {
    let workers = asked.number(0);
    if asked.call == "gathered" {
        return gathered(alloc, workers, asked.with);
    }
    if workers < 1 || workers > 16 {
        return unknown(alloc);
    }
    acted::<Brand, R>(rt, alloc, Blank::new(workers), workers, asked)
}

/// The revisions of verdicts in the order of their numbers, or why there is no order.
fn gathered(alloc: Global, count: u64, numbers: &[Json]) -> Result<String, AllocError> {
    let mut answers = Vec::new(alloc);
    for (place, number) in numbers.iter().enumerate().skip(1) {
        answers.push((
            number.as_u64().unwrap_or(0),
            unfit_verdict(alloc, "a", place as u64)?,
        ))?;
    }
    let mut out = String::new(alloc);
    match gather(alloc, count, answers) {
        Ok(verdicts) => {
            for verdict in verdicts {
                write!(out, "{} ", verdict.revision)?;
            }
        }
        Err(GatherError::OutOfMemory) => return Err(AllocError),
        Err(error) => write!(out, "{error}")?,
    }
    Ok(out)
}

/// What results from the workers of one history.
fn acted<L: Plan + Send + Sync, R: Threads + Wait + Clock + Sync>(
    rt: &R,
    alloc: Global,
    blank: Blank,
    workers: u64,
    asked: &Asked,
) -> Result<String, AllocError>
    requires name { blank.name ≡ L.name }
    requires parts { (blank.parts ≡ L.parts) × (blank.parts ≡ workers) × (workers ≡ L.workers) }
    requires workers { (1 ≤ workers) × (workers ≤ 16) }
{
    let (shared, passes) = SharedHistory::<L>::new(alloc, blank, workers)?;
    let steps = json(alloc, asked.input)?;
    if asked.call == "met" {
        met(rt, alloc, shared, passes, &steps, asked.number(1))
    } else {
        served(rt, alloc, shared, passes, &steps, asked)
    }
}

/// What results from the steps, one after the other.
fn served<L: Plan + Send + Sync, R: Wait>(
    rt: &R,
    alloc: Global,
    shared: SharedHistory<L>,
    passes: Vec<Pass<L>>,
    steps: &Json,
    asked: &Asked,
) -> Result<String, AllocError>
    requires some { 1 ≤ vec_len passes }
    requires parts { (0 < L.parts) × (L.workers ≡ L.parts) }
{
    let mut stage = staged(rt, alloc, passes)?;
    match stage.take_all(rt, &shared, asked.call, steps) {
        Ok(other) => stage.end(rt, shared, other, asked.number(1)),
        Err(error) => {
            stage.give_up(rt);
            Err(error)
        }
    }
}

/// A writer and its workers.
fn staged<L: Ledger, R: Wait>(
    rt: &R,
    alloc: Global,
    mut passes: Vec<Pass<L>>,
) -> Result<Stage<L>, AllocError>
    requires { 1 ≤ vec_len passes }
{
    let pass = passes.remove(0);
    let (writer, source) = open(rt, alloc, 16)?;
    let Ok(reader) = source.reader() else {
        writer.end(rt);
        return Err(AllocError);
    };
    let others = match manned(alloc, &source, passes) {
        Ok(others) => others,
        Err(error) => {
            writer.end(rt);
            return Err(error);
        }
    };
    Ok(Stage {
        alloc,
        writer,
        first: Worker::new(alloc, pass, reader),
        others,
        judged: Vec::new(alloc),
        calls: 0,
        out: String::new(alloc),
    })
}

/// A worker for each pass.
fn manned<L: Ledger>(
    alloc: Global,
    source: &ReaderSource,
    passes: Vec<Pass<L>>,
) -> Result<Vec<Worker<L>>, AllocError>
    ensures count { IfOk result (λ workers. vec_len workers ≡ vec_len passes) }
    ensures board { IfOk result (λ workers. All (λ w. w.reader.board ≡ source.now) workers.items) }
{
    let mut workers = Vec::new(alloc);
    for pass in passes {
        let Ok(reader) = source.reader() else {
            return Err(AllocError);
        };
        workers.push(Worker::new(alloc, pass, reader))?;
    }
    Ok(workers)
}

/// Publishes events together; one that is none, or that is refused for its fault, is left out. If the publication is refused, it is
/// asked for once more.
fn publish<R: Wait>(
    rt: &R,
    alloc: Global,
    writer: &mut Writer,
    events: &Json,
) -> Result<(), AllocError>
    ensures { writer.new.board ≡ writer.old.board }
{
    for json in items_of(events) {
        if let Some(event) = event_in(alloc, json)? {
            stage_event(writer, event);
        }
    }
    if writer.publish(rt).is_err() {
        let _ = writer.publish(rt);
    }
    Ok(())
}

/// The event of a document, if it is one.
fn event_in(alloc: Global, json: &Json) -> Result<Option<Event>, AllocError> {
    match Event::from_json(alloc, json.clone()?) {
        Ok(event) => Ok(Some(event)),
        Err(EventError::OutOfMemory) => Err(AllocError),
        Err(EventError::Fault(_)) => Ok(None),
    }
}

/// Stages an event. If memory runs out, it comes back, and is staged once more.
fn stage_event(writer: &mut Writer, event: Event)
    ensures { writer.new.board ≡ writer.old.board }
{
    if let Err((StageFault::OutOfMemory, event)) = writer.stage(event) {
        let _ = writer.stage(event);
    }
}

/// The writer that published what the steps say of another.
fn elsewhere<R: Wait>(rt: &R, alloc: Global, steps: &Json) -> Result<Writer, AllocError> {
    let (mut writer, _source) = open(rt, alloc, 1)?;
    for step in items_of(steps) {
        if let Some(events) = step.get("elsewhere") {
            if let Err(error) = publish(rt, alloc, &mut writer, events) {
                writer.end(rt);
                return Err(error);
            }
        }
    }
    Ok(writer)
}

fn read(alloc: Global, review: &Json) -> Result<Request, AllocError> {
    match request_in(alloc, review.to_string(alloc)?.as_str()) {
        Ok(request) => Ok(request),
        Err(_) => Err(AllocError),
    }
}

/// A writer, the workers of a history, what the first of them judged and did not record, the next call, and what is reported.
struct Stage<L: Ledger> {
    alloc: Global,
    writer: Writer,
    first: Worker<L>,
    others: Vec<Worker<L>>,
    judged: Vec<Judged>,
    calls: u64,
    out: String,
    ghost of_board: { first.reader.board ≡ writer.board },
}

impl<L: Plan + Send + Sync> Stage<L> {
    /// Takes the steps; answers the writer of another log, if the history is closed over that.
    fn take_all<R: Wait>(
        &mut self,
        rt: &R,
        shared: &SharedHistory<L>,
        call: &str,
        steps: &Json,
    ) -> Result<Option<Writer>, AllocError> {
        for step in items_of(steps) {
            self.take(rt, shared, step)?;
        }
        self.tell_entries(rt, shared)?;
        if call == "strayed" {
            return Ok(Some(elsewhere(rt, self.alloc, steps)?));
        }
        Ok(None)
    }

    fn take<R: Wait>(
        &mut self,
        rt: &R,
        shared: &SharedHistory<L>,
        step: &Json,
    ) -> Result<(), AllocError> {
        if let Some(events) = step.get("publish") {
            return publish(rt, self.alloc, &mut self.writer, events);
        }
        if let Some(review) = step.get("judge") {
            let request = read(self.alloc, review)?;
            return self.judge(request);
        }
        if let Some(review) = step.get("admit") {
            let request = read(self.alloc, review)?;
            let worker = step
                .get("worker")
                .and_then(|json| json.as_u64())
                .unwrap_or(0);
            return self.admit(rt, shared, worker as usize, request);
        }
        if step.get("record").is_some() {
            return self.record(rt, shared);
        }
        if step.get("learn").is_some() {
            let told = self.writer.tell();
            self.first.learn(told);
        }
        Ok(())
    }

    /// The number of the next call.
    fn next_call(&mut self) -> u64 {
        let call = self.calls;
        self.calls = self.calls.saturating_add(1);
        call
    }

    fn judge(&mut self, request: Request) -> Result<(), AllocError> {
        let call = self.next_call();
        match self.first.judge(self.alloc, call, request) {
            Ok(judged) => {
                let verdict = judged.verdict();
                write!(
                    self.out,
                    "{call} {} at {}, ",
                    verdict.allowed, verdict.revision
                )?;
                self.judged.push(judged)?;
                Ok(())
            }
            Err(_) => Err(AllocError),
        }
    }

    fn record<R: Wait>(&mut self, rt: &R, shared: &SharedHistory<L>) -> Result<(), AllocError> {
        let judged = mem::replace(&mut self.judged, Vec::new(self.alloc));
        let mut kept = shared.kept.lock(rt);
        record_all(&mut self.first, &mut *kept, judged)
    }

    fn admit<R: Wait>(
        &mut self,
        rt: &R,
        shared: &SharedHistory<L>,
        worker: usize,
        request: Request,
    ) -> Result<(), AllocError> {
        let call = self.next_call();
        let Some(admitted) = self.admitted(rt, shared, worker, call, request) else {
            return Ok(());
        };
        match admitted {
            Ok(verdict) => write!(
                self.out,
                "{call} {} at {}, ",
                verdict.allowed, verdict.revision
            ),
            Err(_) => Err(AllocError),
        }
    }

    /// What a worker admits; none if there is no such worker.
    fn admitted<R: Wait>(
        &mut self,
        rt: &R,
        shared: &SharedHistory<L>,
        worker: usize,
        call: u64,
        request: Request,
    ) -> Option<Result<Verdict, (PlaneError, Request)>> {
        let alloc = self.alloc;
        if worker == 0 {
            return Some(self.first.admit(rt, alloc, shared, call, request));
        }
        match self.others.get_mut(worker - 1) {
            Some(other) => Some(other.admit(rt, alloc, shared, call, request)),
            None => None,
        }
    }

    fn tell_entries<R: Wait>(
        &mut self,
        rt: &R,
        shared: &SharedHistory<L>,
    ) -> Result<(), AllocError> {
        self.out.push_str("entries:")?;
        let kept = shared.kept.lock(rt);
        push_entries(&mut self.out, kept.history())?;
        self.out.push_str(", ")
    }

    /// Ends the writer, and lets all else go.
    fn give_up<R: Wait>(self, rt: &R) {
        let Stage {
            alloc: _,
            writer,
            first: _first,
            others: _others,
            judged: _judged,
            calls: _,
            out: _out,
        } = self;
        writer.end(rt);
    }

    /// Reports what each worker counted, and closes the history with the first `given` workers.
    fn end<R: Wait>(
        self,
        rt: &R,
        shared: SharedHistory<L>,
        other: Option<Writer>,
        given: u64,
    ) -> Result<String, AllocError>
        requires { (0 < L.parts) × (L.workers ≡ L.parts) }
    {
        let Stage {
            alloc,
            mut writer,
            first,
            mut others,
            judged: _judged,
            calls: _,
            out,
        } = self;
        if let Some(other) = other {
            mem::replace(&mut writer, other).end(rt);
        }
        let mut workers = Vec::new(alloc);
        if workers.push(first).is_err() || workers.append(&mut others).is_err() {
            writer.end(rt);
            return Err(AllocError);
        }
        closed(rt, writer, shared, workers, given, out)
    }
}

/// Has a worker record all that was judged.
fn record_all<L: Ledger>(
    worker: &mut Worker<L>,
    kept: &mut Kept<L>,
    judged: Vec<Judged>,
) -> Result<(), AllocError>
    ensures { worker.new.reader ≡ worker.old.reader }
{
    for one in judged {
        if worker.record(kept, one).is_err() {
            return Err(AllocError);
        }
    }
    Ok(())
}

/// Reports what each worker counted, and closes the history with the first `given` workers.
fn closed<L: Plan, R: Wait>(
    rt: &R,
    writer: Writer,
    shared: SharedHistory<L>,
    workers: Vec<Worker<L>>,
    given: u64,
    mut out: String,
) -> Result<String, AllocError>
    requires { (0 < L.parts) × (L.workers ≡ L.parts) }
{
    let some = match some_of(workers, given, &mut out) {
        Ok(some) => some,
        Err(error) => {
            writer.end(rt);
            return Err(error);
        }
    };
    match close(rt, writer, shared, some) {
        Ok(report) => write!(out, "closed at {} with {}", report.revision, report.entries)?,
        Err(CloseError::Missing) => out.push_str("missing")?,
        Err(CloseError::Stray(stray)) => write!(out, "{} strays at {}", stray.entry, stray.at)?,
    }
    Ok(out)
}

/// The first `given` workers; reports what each worker counted.
fn some_of<L: Ledger>(
    mut workers: Vec<Worker<L>>,
    given: u64,
    out: &mut String,
) -> Result<Vec<Worker<L>>, AllocError> {
    for worker in &workers {
        write!(out, "{} counted, ", worker.count())?;
    }
    workers.truncate(given as usize);
    Ok(workers)
}

/// What results from two calls that meet so many times, when the steps have published.
fn met<L: Plan + Send + Sync, R: Threads + Wait + Clock + Sync>(
    rt: &R,
    alloc: Global,
    shared: SharedHistory<L>,
    passes: Vec<Pass<L>>,
    steps: &Json,
    times: u64,
) -> Result<String, AllocError>
    requires some { (1 ≤ vec_len passes) × (vec_len passes ≤ 16) }
    requires parts { (0 < L.parts) × (L.workers ≡ L.parts) }
{
    let (mut writer, source) = open(rt, alloc, 16)?;
    let mut workers = match manned(alloc, &source, passes) {
        Ok(workers) => workers,
        Err(error) => {
            writer.end(rt);
            return Err(error);
        }
    };
    let published = publish_all(rt, alloc, &mut writer, steps);
    let told = writer.tell();
    let out = match published {
        Ok(()) => meet_all(rt, alloc, &told, &mut workers, &shared, times),
        Err(error) => Err(error),
    };
    match out {
        Ok(out) => closed(rt, writer, shared, workers, 16, out),
        Err(error) => {
            writer.end(rt);
            Err(error)
        }
    }
}

/// Publishes what the steps say.
fn publish_all<R: Wait>(
    rt: &R,
    alloc: Global,
    writer: &mut Writer,
    steps: &Json,
) -> Result<(), AllocError>
    ensures { writer.new.board ≡ writer.old.board }
{
    for step in items_of(steps) {
        if let Some(events) = step.get("publish") {
            publish(rt, alloc, writer, events)?;
        }
    }
    Ok(())
}

/// Has two calls meet so many times; reports how many answers came, and how many calls waited in vain.
fn meet_all<L: Plan + Send + Sync, R: Threads + Wait + Clock + Sync>(
    rt: &R,
    alloc: Global,
    told: &Told,
    workers: &mut Vec<Worker<L>>,
    shared: &SharedHistory<L>,
    times: u64,
) -> Result<String, AllocError>
    requires some { (1 ≤ vec_len workers.old) × (vec_len workers.old ≤ 16) }
    requires board { All (λ w. w.reader.board ≡ told.now.board) workers.old.items }
{
    let mut answers = 0u64;
    let mut missed = 0u64;
    for time in 0..times {
        let first = time.saturating_mul(2).min(u64::MAX - 2);
        let (came, alone) = meet(rt, alloc, told, workers, shared, first)?;
        answers = answers.saturating_add(came);
        missed = missed.saturating_add(alone);
    }
    let mut out = String::new(alloc);
    write!(out, "{answers} answers, {missed} alone, ")?;
    Ok(out)
}

/// Has two calls meet; answers how many answers came, and how many calls waited in vain.
fn meet<L: Plan + Send + Sync, R: Threads + Wait + Clock + Sync>(
    rt: &R,
    alloc: Global,
    told: &Told,
    workers: &mut Vec<Worker<L>>,
    shared: &SharedHistory<L>,
    first: u64,
) -> Result<(u64, u64), AllocError>
    requires some { (1 ≤ vec_len workers.old) × (vec_len workers.old ≤ 16) }
    requires board { All (λ w. w.reader.board ≡ told.now.board) workers.old.items }
    requires call { first ≤ 2 ^ 64 - 3 }
    ensures count { vec_len workers.new ≡ vec_len workers.old }
    ensures board { All (λ w. w.reader.board ≡ told.now.board) workers.new.items }
{
    let meeting = Meeting {
        rt,
        here: AtomicU64::new(0),
        alone: AtomicU64::new(0),
    };
    let requests = two(alloc)?;
    let told = told_to(alloc, told, workers.len())?;
    let ran = run_workers(rt, alloc, workers, told, first, shared, requests, &meeting);
    match ran {
        Ok(verdicts) => Ok((verdicts.len() as u64, meeting.alone.load(Ordering::SeqCst))),
        Err(_) => Err(AllocError),
    }
}

/// Two requests of one kind.
fn two(alloc: Global) -> Result<Vec<Request>, AllocError>
    ensures { IfOk result (λ requests. vec_len requests ≡ 2) }
{
    let mut requests = Vec::new(alloc);
    for _number in 0..2u64 {
        requests.push(read(alloc, &json(alloc, crate::histories::REVIEW)?)?)?;
    }
    Ok(requests)
}

/// Lets no call through before another is there, for at most 10,000 sleeps of a millisecond.
#[derive(Drop)]
struct Meeting<'a, R: Clock> {
    rt: &'a R,
    here: AtomicU64,
    alone: AtomicU64,
}

impl<R: Clock> Gate for Meeting<'_, R> {
    fn before(&self, _call: u64) {
        self.here.fetch_add(1, Ordering::SeqCst);
        for _sleep in 0..MOST_SLEEPS {
            if self.here.load(Ordering::SeqCst) >= 2 {
                return;
            }
            thread::sleep(self.rt, Duration::from_millis(1));
        }
        self.alone.fetch_add(1, Ordering::SeqCst);
    }

    fn after(&self, _call: u64) {}
}
