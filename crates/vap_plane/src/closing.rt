//! A history that workers share, from its first entry to the last.

ghost use Rattle.std.specs.Prelude.{◌≡◌, ◌+◌, ◌<◌, ◌≤◌, ℕ, [], length, slice_get, sum_by, vec_len, Some, Err, IfErr, IfOk};
ghost use Rattle.std.specs.List.{All};
ghost use Rattle.vap_audit.specs.Entries.{IsKept};
ghost use Rattle.vap_plane.specs.Close.{ClosesSome, Settles};

use crate::kept::Kept;
use crate::worker::{Pass, Worker};
use std::alloc::{AllocError, Global};
use std::marker::Brand;
use std::sync::ledger::{Blank, Ledger, Share};
use std::sync::{Mutex, Wait};
use thiserror::Error;
use vap_audit::{History, Stray};
use vap_watch::{Snapshot, Writer, revision_of};

/// The ledger of one history, which so many workers share.
pub trait Plan: Ledger {
    ghost workers: { ℕ };
}

impl Plan for Brand {
    ghost workers = { 0 };
}

/// The history under its lock, for so many workers. A caller that locks it is lent a [`Kept`].
#[derive(Drop)]
pub struct SharedHistory<L: Plan> {
    pub kept: Mutex<Kept<L>>,
    workers: u64,
    ghost all: { workers ≡ L.workers },
}

/// The result of closing a history: the length of the final log, and the number of entries.
#[derive(Clone, Copy, Debug, PartialEq, Eq)]
pub struct Report {
    pub revision: usize,
    pub entries: usize,
}

/// Why a history is not closed.
#[derive(Clone, Copy, Debug, PartialEq, Eq, Error)]
pub enum CloseError {
    #[error("a worker is missing")]
    Missing,
    #[error("entry {} differs from the log at {}", .0.entry, .0.at)]
    Stray(Stray),
}

impl<L: Plan> SharedHistory<L> {
    /// A history of no entry, and so many passes, numbered from 0.
    pub fn new(
        alloc: Global,
        blank: Blank,
        workers: u64,
    ) -> Result<(SharedHistory<L>, Vec<Pass<L>>), AllocError>
        requires name { blank.name ≡ L.name }
        requires parts { (blank.parts ≡ L.parts) × (blank.parts ≡ workers) }
        requires workers { (workers ≡ L.workers) × (1 ≤ workers) × (workers ≤ 16) }
        ensures count { IfOk result (λ made. vec_len made.1 ≡ workers) }
        ensures numbers { IfOk result (λ made. (k : ℕ) (pass : _) → slice_get made.1.items k ≡ Some pass → pass.number ≡ k) }
    {
        let (book, mut rest) = blank.open::<L>();
        let mut passes = Vec::new(alloc);
        for number in 0..workers {
            passes.push(Pass::new(number, rest.split_off(1, 0)))?;
        }
        let shared = SharedHistory {
            kept: Mutex::new(Kept::new(History::new(alloc), book)),
            workers,
        };
        Ok((shared, passes))
    }
}

/// Compares each entry's log with the final one. The number of entries is the sum of what the workers counted.
#[tactic(auto, using(crate::proofs::Closed::right_in))]
pub fn settle<L: Ledger>(
    kept: Kept<L>,
    workers: Vec<Worker<L>>,
    snapshot: &Snapshot,
) -> Result<Report, Stray>
    requires { (0 < L.parts) × (L.parts ≤ vec_len workers) }
    ensures settled { Settles kept.history snapshot.now result }
    ensures kept { All IsKept kept.history }
    ensures sum { length kept.history ≡ sum_by (λ w. w.count) workers.items }
{
    let (history, mut book) = kept.parts();
    let mut all = merged(workers);
    book.audit(&mut all);
    let entries = history.len();
    history.check(snapshot)?;
    Ok(Report {
        revision: revision_of(snapshot),
        entries,
    })
}

/// The shares of all workers in one.
fn merged<L: Ledger>(workers: Vec<Worker<L>>) -> Share<L>
    requires { (0 < L.parts) × (0 < vec_len workers) }
    ensures parts { result.parts ≡ vec_len workers }
    ensures apart { result.parts ≤ L.parts }
    ensures amount { result.amount ≡ sum_by (λ w. w.count) workers.items }
{
    let mut workers = workers;
    let Some(last) = workers.pop() else {
        unreachable!()
    };
    let mut all = last.into_share();
    for worker in workers {
        all.merge(worker.into_share());
    }
    all
}

/// Closes the history of all workers, when they are joined: it compares each entry with the log that the writer published last. The
/// writer, the history and the workers are given up in any case.
pub fn close<L: Plan, R: Wait>(
    rt: &R,
    writer: Writer,
    shared: SharedHistory<L>,
    workers: Vec<Worker<L>>,
) -> Result<Report, CloseError>
    requires { (0 < L.parts) × (L.workers ≡ L.parts) }
    ensures missing { vec_len workers < L.workers → result ≡ Err CloseError.Missing }
    ensures given { IfErr result (λ error. error ≡ CloseError.Missing → vec_len workers < L.workers) }
    ensures closed { ClosesSome writer.published result }
    ensures sum { IfOk result (λ report. report.entries ≡ sum_by (λ w. w.count) workers.items) }
{
    let closed = close_at(writer.snapshot(), shared, workers);
    writer.end(rt);
    closed
}

/// [`close`] at the final snapshot.
fn close_at<L: Plan>(
    snapshot: &Snapshot,
    shared: SharedHistory<L>,
    workers: Vec<Worker<L>>,
) -> Result<Report, CloseError>
    requires { (0 < L.parts) × (L.workers ≡ L.parts) }
    ensures missing { vec_len workers < L.workers → result ≡ Err CloseError.Missing }
    ensures given { IfErr result (λ error. error ≡ CloseError.Missing → vec_len workers < L.workers) }
    ensures closed { ClosesSome snapshot.now result }
    ensures sum { IfOk result (λ report. report.entries ≡ sum_by (λ w. w.count) workers.items) }
{
    let SharedHistory {
        kept,
        workers: wanted,
    } = shared;
    if (workers.len() as u64) < wanted {
        return Err(CloseError::Missing);
    }
    match settle(kept.into_inner(), workers, snapshot) {
        Ok(report) => Ok(report),
        Err(stray) => Err(CloseError::Stray(stray)),
    }
}
