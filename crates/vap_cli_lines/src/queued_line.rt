//! Lines that are read, and the one that is taken.

ghost use Rattle.std.specs.Prelude.{◌≡◌, ◌<◌, ◌≤◌, ◌==◌, [], length, IfOk, IfSome, IsErrOf, OnOk};
ghost use Rattle.base_containers.specs.Counted.{failures_of, inner_of};
ghost use Rattle.base_containers.specs.Lines.{AllGive, IsCutOff, IsFirst, IsLine, empty_reads, longest_line, room, unread};
ghost use Rattle.vap_watch.specs.Logs.{StartsWith};
ghost use Rattle.vap_cli_lines.specs.Judged.{IsJudgedAt};
ghost use Rattle.vap_cli_lines.specs.Lines.{Reads};

use crate::judging::{Judge, ReadLine, Workspace};
use crate::line::read_line;
use base_containers::{Counted, Ending, LineError, LineReader, Shared};
use std::alloc::{AllocError, Global};
use std::io::Read;
use std::marker::Model;
use vap_read::EventReader;
use vap_watch::{Log, Snapshot, revision_of};

/// A line, and what it is if that is known, judged at a log if it is a review. Contracts see it as its bytes and this log.
#[derive(Drop)]
pub(crate) struct QueuedLine {
    bytes: Vec<u8>,
    log: Shared<Log>,
    read: Option<ReadLine>,
}

impl Model for QueuedLine {
    ghost use Rattle.std.specs.Prelude.{IfSome};
    ghost use Rattle.std.specs.Coded.{codes};
    ghost use Rattle.vap_read.specs.contracts.event.Event as event;
    ghost use Rattle.vap_cli_lines.specs.Judged.{IsJudgedAt};
    ghost use Rattle.vap_cli_lines.specs.LineQueues.{Queued};
    ghost use Rattle.vap_cli_lines.specs.Lines.{Reads};

    ghost Value = { Queued };

    ghost coded = { Prim.hlevel (codes, event.the_row.coded) };

    ghost view = { λ q. record { bytes = q.bytes.items; log = q.log } };

    ghost invariant = { λ q. IfSome q.read (λ read. Reads q.bytes.items read.line × IsJudgedAt q.log read.line read.answer) };
}

impl QueuedLine {
    /// Bytes of which nothing is known.
    pub(crate) fn new(bytes: Vec<u8>, log: Shared<Log>) -> QueuedLine
        ensures bytes { result.bytes ≡ bytes.items }
        ensures log { result.log ≡ log }
    {
        QueuedLine {
            bytes,
            log,
            read: None,
        }
    }

    /// Finds what the bytes are. If memory runs out, that stays unknown.
    pub(crate) fn read(&mut self, events: &EventReader, workspace: &mut Workspace)
        requires { length self.old.bytes ≤ longest_line }
        ensures { self.new ≡ self.old }
    {
        let bytes = self.bytes.as_slice();
        let scratch = &mut workspace.scratch;
        if let Ok(read) = read_line(workspace.alloc, events, bytes, scratch, None) {
            self.read = Some(read.unjudged());
        }
    }

    /// The same, and judges the line if it is a review.
    pub(crate) fn read_judged(
        &mut self,
        events: &EventReader,
        snapshot: &Snapshot,
        workspace: &mut Workspace,
    )
        requires short { length self.old.bytes ≤ longest_line }
        requires log { self.old.log ≡ snapshot.now }
        ensures { self.new ≡ self.old }
    {
        let bytes = self.bytes.as_slice();
        let scratch = &mut workspace.scratch;
        let judge = Judge {
            snapshot,
            matchers: &mut workspace.matchers,
        };
        if let Ok(read) = read_line(workspace.alloc, events, bytes, scratch, Some(judge)) {
            self.read = Some(read);
        }
    }

    /// The bytes, and what they are if that is known, judged at this snapshot or not judged.
    fn parts(self, snapshot: &Snapshot) -> (Vec<u8>, Option<ReadLine>)
        requires { StartsWith snapshot.now self.log }
        ensures bytes { result.0.items ≡ self.bytes }
        ensures read { IfSome result.1 (λ read. Reads self.bytes read.line × IsJudgedAt snapshot.now read.line read.answer) }
    {
        let QueuedLine { bytes, log, read } = self;
        let is_judged_here = log.get().len() == revision_of(snapshot);
        match read {
            Some(read) if is_judged_here => (bytes, Some(read)),
            Some(read) => (bytes, Some(read.unjudged())),
            None => (bytes, None),
        }
    }
}

/// The line that is taken, which contracts see as its bytes, and what is kept to read and judge the next one.
#[derive(Drop)]
pub struct LineBuffer {
    bytes: Vec<u8>,
    workspace: Workspace,
}

impl Model for LineBuffer {
    ghost use Rattle.std.specs.Prelude.{List, ℕ};

    ghost Value = { List ℕ };

    ghost view = { λ b. b.bytes.items };
}

impl LineBuffer {
    /// No line yet.
    pub fn new(alloc: Global) -> LineBuffer
        ensures { result ≡ [] }
    {
        LineBuffer {
            bytes: Vec::new(alloc),
            workspace: Workspace::new(alloc),
        }
    }

    /// Whether the line has no byte.
    pub fn is_empty(&self) -> bool
        ensures { result ≡ (length self.now == 0) }
    {
        self.bytes.is_empty()
    }

    /// What the bytes of a line are; there are no more of them than a line may have. If they are a review, it is judged at a snapshot
    /// while it is open.
    pub fn read(
        &mut self,
        events: &EventReader,
        snapshot: &Snapshot,
    ) -> Result<ReadLine, AllocError>
        requires { length self.old ≤ longest_line }
        ensures line { IfOk result (λ read. Reads self.old read.line) }
        ensures judged { IfOk result (λ read. IsJudgedAt snapshot.now read.line read.answer) }
    {
        let bytes = self.bytes.as_slice();
        let scratch = &mut self.workspace.scratch;
        let judge = Judge {
            snapshot,
            matchers: &mut self.workspace.matchers,
        };
        read_line(self.workspace.alloc, events, bytes, scratch, Some(judge))
    }

    /// Takes the next line of a reader in place of its own.
    pub(crate) fn next<R: Read>(
        &mut self,
        reader: &mut LineReader,
        input: &mut Counted<R>,
    ) -> Result<Ending, LineError>
        ensures whole { IfOk result (λ ending.
            IsLine (unread R.remaining input.old reader.old) (unread R.remaining input.new reader.new) self.new ending) }
        ensures first { IfOk result (λ ending.
            IsFirst (unread R.remaining input.old reader.old) (unread R.remaining input.new reader.new) self.new ending) }
        ensures short { length self.new ≤ longest_line }
        ensures less { IfOk result (λ ending. ending ≡ Ending.Feed → room reader.new < room reader.old) }
        ensures no_more { room reader.new ≤ room reader.old }
        ensures no_failure { OnOk result (failures_of input.new ≡ failures_of input.old) }
        ensures read { IsErrOf result LineError.Read → IsCutOff R.remaining input.old input.new reader.old reader.new }
        ensures given { IfOk result (λ ending. AllGive (empty_reads ending) (R.remaining (inner_of input.old))
            (R.remaining (inner_of input.new)) reader.old reader.new) }
    {
        self.bytes.clear();
        reader.next(input, &mut self.bytes)
    }

    /// Takes over a line. The answer is what it is, if that is known, judged at this snapshot or not judged.
    pub(crate) fn put(&mut self, queued: QueuedLine, snapshot: &Snapshot) -> Option<ReadLine>
        requires { StartsWith snapshot.now queued.log }
        ensures bytes { self.new ≡ queued.bytes }
        ensures read { IfSome result (λ read. Reads queued.bytes read.line × IsJudgedAt snapshot.now read.line read.answer) }
    {
        let (bytes, read) = queued.parts(snapshot);
        self.bytes = bytes;
        read
    }
}
