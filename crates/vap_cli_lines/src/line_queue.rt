//! Lines that are read before their turn.

ghost use Rattle.std.specs.Prelude.{◌≡◌, ◌<◌, ◌≤◌, ◌++◌, ◌∷◌, [], length, IfOk, IfSome, IsErrOf, MatchOption, OnOk};
ghost use Rattle.std.specs.Thread.{IsSync};
ghost use Rattle.base_containers.specs.Counted.{failures_of, inner_of};
ghost use Rattle.base_containers.specs.Lines.{AllGive, IsCutOff, IsFirst, IsLine, empty_reads, longest_line, most_reads, room, unread};
ghost use Rattle.vap_watch.specs.Logs.{StartsWith};
ghost use Rattle.vap_cli_lines.specs.Judged.{IsJudgedAt};
ghost use Rattle.vap_cli_lines.specs.LineQueues.{AreWhole, IsWhole, text_of};
ghost use Rattle.vap_cli_lines.specs.Lines.{Reads};

use crate::judging::{ReadLine, Workspace};
use crate::queued_line::{LineBuffer, QueuedLine};
use crate::workspaces::Workspaces;
use base_containers::{Counted, Ending, LineError, LineReader, Shared};
use std::alloc::{AllocError, Global};
use std::io::Read;
use std::marker::Model;
use std::sync::Wait;
use std::thread;
use std::thread::Threads;
use std::vec::IntoIter;
use vap_read::EventReader;
use vap_watch::{Log, Snapshot, revision_of};

/// By which threads lines are read, and with what, and what is published.
#[derive(Drop)]
pub struct LineReaders<'a, H> {
    pub rt: &'a H,
    pub events: &'a EventReader,
    pub snapshot: &'a Snapshot,
    pub threads: usize,
    ghost some: { 1 ≤ threads },
}

/// How a line ended that was taken, and what it is, if it was read before its turn.
#[derive(Drop)]
pub struct TakenLine {
    pub ending: Ending,
    pub read: Option<ReadLine>,
}

/// A reader of lines, with lines that it has read whole and that are not yet taken. Contracts see it as a reader to which these are
/// pending still, with the log at which they are judged.
#[derive(Drop)]
pub struct LineQueue {
    alloc: Global,
    reader: LineReader,
    lines: IntoIter<QueuedLine>,
    log: Shared<Log>,
    workspaces: Workspaces,
}

impl Model for LineQueue {
    ghost use Rattle.std.specs.Prelude.{◌++◌};
    ghost use Rattle.std.specs.Coded.{codes};
    ghost use Rattle.std.specs.Vec.Iter.{into_iter_items};
    ghost use Rattle.vap_read.specs.contracts.event.Event as event;
    ghost use Rattle.vap_cli_lines.specs.LineQueues.{Ahead, AreWhole, text_of};

    ghost Value = { Ahead };

    ghost coded = { Prim.hlevel (codes, event.the_row.coded) };

    ghost view = { λ q. record {
      pending = record { bytes = text_of (into_iter_items q.lines) ++ q.reader.bytes; reads = q.reader.reads };
      log = q.log;
    } };

    ghost invariant = { λ q. AreWhole q.log (into_iter_items q.lines) };
}

impl LineQueue {
    /// A queue that has read nothing. Of the lines that it reads before their turn it judges the reviews, first at this snapshot.
    pub fn new(alloc: Global, snapshot: &Snapshot) -> Result<LineQueue, AllocError>
        ensures empty { IfOk result (λ queue. queue.pending.bytes ≡ []) }
        ensures reads { IfOk result (λ queue. queue.pending.reads ≡ most_reads) }
        ensures log { IfOk result (λ queue. queue.log ≡ snapshot.now) }
    {
        let none: Vec<QueuedLine> = Vec::new(alloc);
        Ok(LineQueue {
            alloc,
            reader: LineReader::new(alloc)?,
            lines: none.into_iter(),
            log: snapshot.share_log()?,
            workspaces: Workspaces::new(alloc),
        })
    }

    /// Puts the next line into `buffer`, and answers how it ended, as `LineReader::next` does. If it is not among those that were read
    /// before, those that are pending as a whole are read after it, by several threads side by side. They judge the reviews among these
    /// at what is published, if nothing was published since the last time: where events come, most verdicts would be of the past.
    pub fn next<R: Read, H: Threads + Wait + Sync>(
        &mut self,
        readers: &LineReaders<'_, H>,
        input: &mut Counted<R>,
        buffer: &mut LineBuffer,
    ) -> Result<TakenLine, LineError>
        requires log { StartsWith readers.now.snapshot.now self.old.log }
        ensures whole { IfOk result (λ taken. IsLine (unread R.remaining input.old self.old.pending)
            (unread R.remaining input.new self.new.pending) buffer.new taken.ending) }
        ensures first { IfOk result (λ taken. IsFirst (unread R.remaining input.old self.old.pending)
            (unread R.remaining input.new self.new.pending) buffer.new taken.ending) }
        ensures early { IfOk result (λ taken. IfSome taken.read (λ read. Reads buffer.new read.line
            × IsJudgedAt readers.now.snapshot.now read.line read.answer)) }
        ensures log { OnOk result (StartsWith readers.now.snapshot.now self.new.log) }
        ensures short { OnOk result (length buffer.new ≤ longest_line) }
        ensures less { IfOk result (λ taken. taken.ending ≡ Ending.Feed → room self.new.pending < room self.old.pending) }
        ensures no_more { room self.new.pending ≤ room self.old.pending }
        ensures no_failure { OnOk result (failures_of input.new ≡ failures_of input.old) }
        ensures read { IsErrOf result LineError.Read → IsCutOff R.remaining input.old input.new self.old.pending self.new.pending }
        ensures given { IfOk result (λ taken. AllGive (empty_reads taken.ending) (R.remaining (inner_of input.old))
            (R.remaining (inner_of input.new)) self.old.pending self.new.pending) }
    {
        if let Some(line) = self.lines.next() {
            let read = buffer.put(line, readers.snapshot);
            return Ok(TakenLine {
                ending: Ending::Feed,
                read,
            });
        }
        let ending = buffer.next(&mut self.reader, input)?;
        if ending != Ending::Feed || readers.threads == 1 {
            return Ok(TakenLine { ending, read: None });
        }
        let early = Early {
            rt: readers.rt,
            events: readers.events,
            snapshot: readers.snapshot,
            workspaces: &self.workspaces,
            is_judged: self.log.get().len() == revision_of(readers.snapshot),
        };
        let read = read_ahead(self.alloc, readers.threads, &early, &mut self.reader);
        let Ok((lines, log)) = read else {
            return Err(LineError::OutOfMemory);
        };
        self.lines = lines.into_iter();
        self.log = log;
        Ok(TakenLine { ending, read: None })
    }
}

/// The next line, if the whole of it is pending, to be judged at this snapshot.
fn pending_line(
    alloc: Global,
    snapshot: &Snapshot,
    reader: &mut LineReader,
) -> Result<Option<QueuedLine>, AllocError>
    ensures taken { IfOk result (λ found. MatchOption found (reader.new ≡ reader.old)
        (λ line. IsWhole snapshot.now line × (reader.old.bytes ≡ line.bytes ++ 10 ∷ reader.new.bytes))) }
    ensures reads { reader.new.reads ≡ reader.old.reads }
    ensures no_more { length reader.new.bytes ≤ length reader.old.bytes }
{
    let log = snapshot.share_log()?;
    let mut bytes = Vec::new(alloc);
    if reader.next_pending(&mut bytes)? {
        Ok(Some(QueuedLine::new(bytes, log)))
    } else {
        Ok(None)
    }
}

/// The lines that are pending as a whole, to be judged at this snapshot.
fn pending_lines(
    alloc: Global,
    snapshot: &Snapshot,
    reader: &mut LineReader,
) -> Result<Vec<QueuedLine>, AllocError>
    ensures lines { IfOk result (λ lines. AreWhole snapshot.now lines.items
        × (reader.old.bytes ≡ text_of lines.items ++ reader.new.bytes)) }
    ensures reads { reader.new.reads ≡ reader.old.reads }
    ensures no_more { length reader.new.bytes ≤ length reader.old.bytes }
{
    let mut lines = Vec::new(alloc);
    while let Some(line) = pending_line(alloc, snapshot, reader)? {
        lines.push(line)?;
    }
    Ok(lines)
}

/// The same lines, each read, and the log at which they are judged.
fn read_ahead<H: Threads + Wait + Sync>(
    alloc: Global,
    threads: usize,
    early: &Early<'_, H>,
    reader: &mut LineReader,
) -> Result<(Vec<QueuedLine>, Shared<Log>), AllocError>
    requires { 1 ≤ threads }
    ensures lines { IfOk result (λ read. AreWhole early.now.snapshot.now read.0.items
        × (reader.old.bytes ≡ text_of read.0.items ++ reader.new.bytes)) }
    ensures log { IfOk result (λ read. read.1 ≡ early.now.snapshot.now) }
    ensures reads { reader.new.reads ≡ reader.old.reads }
    ensures no_more { length reader.new.bytes ≤ length reader.old.bytes }
{
    let mut lines = pending_lines(alloc, early.snapshot, reader)?;
    let size = lines.len().div_ceil(threads);
    if size > 0 {
        read_each(early, size, lines.as_mut_slice());
    }
    Ok((lines, early.snapshot.share_log()?))
}

/// Reads lines, so many by each thread. This thread starts the others, one behind the other: where the threads that are started start
/// others in turn, two of four were seen on one processor (docs/BENCH.md).
#[cycle(read_each)]
fn read_each<H: Threads + Wait + Sync>(early: &Early<'_, H>, size: usize, lines: &mut [QueuedLine])
    requires shared { IsSync H.row }
    requires size { 0 < size }
    requires whole { AreWhole early.now.snapshot.now lines.old }
    ensures { lines.new ≡ lines.old }
{
    if lines.len() <= size {
        early.read_part(lines);
        return;
    }
    let (first, others) = lines.split_at_mut(size);
    read_both(early, size, first, others);
}

/// Reads the first lines in a new thread, and the others.
#[cycle(read_each)]
fn read_both<H: Threads + Wait + Sync>(
    early: &Early<'_, H>,
    size: usize,
    first: &mut [QueuedLine],
    others: &mut [QueuedLine],
)
    requires shared { IsSync H.row }
    requires size { 0 < size }
    requires some { 0 < length first.old }
    requires first { AreWhole early.now.snapshot.now first.old }
    requires others { AreWhole early.now.snapshot.now others.old }
    ensures first { first.new ≡ first.old }
    ensures others { others.new ≡ others.old }
{
    let mut front = ||
        requires { AreWhole early.now.snapshot.now first.now }
        ensures { first.exit.now ≡ first.entry.now }
    { early.read_part(first) };
    let mut back = ||
        requires { IsSync H.row × (0 < size) × AreWhole early.now.snapshot.now others.now }
        ensures { others.exit.now ≡ others.entry.now }
    { read_each(early, size, others) };
    thread::join_mut(early.rt, &mut front, &mut back);
}

/// With what lines are read before their turn, and the snapshot at which the reviews among them are judged, if they are.
#[derive(Drop)]
struct Early<'a, H> {
    rt: &'a H,
    events: &'a EventReader,
    snapshot: &'a Snapshot,
    workspaces: &'a Workspaces,
    is_judged: bool,
}

impl<H: Wait> Early<'_, H> {
    /// Reads lines, one after the other, with a workspace of the thread's own.
    fn read_part(&self, lines: &mut [QueuedLine])
        requires { AreWhole self.now.snapshot.now lines.old }
        ensures { lines.new ≡ lines.old }
    {
        let mut workspace = self.workspaces.take(self.rt);
        for place in 0..lines.len() {
            self.read(&mut lines[place], &mut workspace);
        }
        self.workspaces.give_back(self.rt, workspace);
    }

    fn read(&self, line: &mut QueuedLine, workspace: &mut Workspace)
        requires { IsWhole self.now.snapshot.now line.old }
        ensures { line.new ≡ line.old }
    {
        if self.is_judged {
            line.read_judged(self.events, self.snapshot, workspace);
        } else {
            line.read(self.events, workspace);
        }
    }
}
