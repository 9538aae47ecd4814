//! Lines of a reader.

ghost use Rattle.std.specs.Prelude.{◌≡◌, ◌≢◌, ◌+◌, ◌≤◌, ◌<◌, ◌++◌, [], ◌∷◌, length, drop, IfErr, IfOk, IsErrOf, OnErr, OnOk, false, true};
ghost use Rattle.std.specs.List.{All};
ghost use Rattle.std.specs.Io.KnownBytes.{Consumes, Keeps, IsAtEnd};
ghost use Rattle.base_containers.specs.Counted.{failures_of, failures_after, inner_of};
ghost use Rattle.base_containers.specs.Handing.{Hands};
ghost use Rattle.base_containers.specs.Lines.{AllGive, IsCutOff, IsFirst, IsLine, empty_reads, room, unread};

use crate::counted::Counted;
use crate::lines::{Ending, LONGEST_LINE, LineError, append, feed_at};
use std::alloc::{AllocError, Global};
use std::io;
use std::io::Read;
use std::marker::Model;

/// The most reads of one reader.
pub const MOST_READS: u64 = 1_099_511_627_776;

/// How many bytes one read may give.
const CHUNK: usize = 262_144;

/// What was read and not yet handed on. Contracts see it as these bytes with the number of reads that may follow.
#[derive(Drop)]
pub struct LineReader {
    chunk: Vec<u8>,
    at: usize,
    end: usize,
    reads: u64,
}

impl Model for LineReader {
    ghost use Rattle.std.specs.Prelude.{◌≡◌, ◌≤◌, slice_range, vec_len};
    ghost use Rattle.base_containers.specs.Lines.{Pending};

    ghost Value = { Pending };

    ghost view = { λ r. record { bytes = slice_range r.chunk.items r.at r.end; reads = r.reads } };

    ghost invariant = { λ r. (r.at ≤ r.end) × (r.end ≤ vec_len r.chunk) × (vec_len r.chunk ≡ 262144) };
}

impl LineReader {
    /// A reader of lines that has read nothing.
    pub fn new(alloc: Global) -> Result<LineReader, AllocError>
        ensures empty { IfOk result (λ r. r.bytes ≡ []) }
        ensures reads { IfOk result (λ r. r.reads ≡ MOST_READS) }
    {
        let chunk = vec![in alloc; 0u8; CHUNK]?;
        Ok(LineReader {
            chunk,
            at: 0,
            end: 0,
            reads: MOST_READS,
        })
    }

    /// Puts the bytes of the next line into `line`, which is empty, and answers how the line ended. If there is no line,
    /// nothing is lost: `line` then has what was taken of it. The fault is `Read` if a read failed, or if there were as
    /// many as there may be and each gave a byte: nothing is read after the end.
    pub fn next<R: Read>(
        &mut self,
        input: &mut Counted<R>,
        line: &mut Vec<u8>,
    ) -> Result<Ending, LineError>
        requires { line.old.items ≡ [] }
        ensures whole { IfOk result (λ ending.
            IsLine (unread R.remaining input.old self.old) (unread R.remaining input.new self.new) line.new.items ending) }
        ensures first { IfOk result (λ ending.
            IsFirst (unread R.remaining input.old self.old) (unread R.remaining input.new self.new) line.new.items ending) }
        ensures begun { OnErr result
            (Consumes (unread R.remaining input.old self.old) (unread R.remaining input.new self.new) line.new.items) }
        ensures plain { All (λ x. x ≢ 10) line.new.items }
        ensures short { length line.new.items ≤ LONGEST_LINE }
        ensures less { IfOk result (λ ending. ending ≡ Ending.Feed → room self.new < room self.old) }
        ensures no_more { room self.new ≤ room self.old }
        ensures no_failure { OnOk result (failures_of input.new ≡ failures_of input.old) }
        ensures read { IsErrOf result LineError.Read → IsCutOff R.remaining input.old input.new self.old self.new }
        ensures given { IfOk result (λ ending. AllGive (empty_reads ending) (R.remaining (inner_of input.old))
            (R.remaining (inner_of input.new)) self.old self.new) }
        ensures memory { IsErrOf result LineError.OutOfMemory → failures_of input.new ≡ failures_of input.old }
    {
        loop {
            if let Some(ending) = self.hand_on(line)? {
                return Ok(ending);
            }
            if self.reads == 0 {
                return Err(LineError::Read);
            }
            let count = self.refill(input).map_err(|_| LineError::Read)?;
            if count == 0 {
                return Ok(Ending::End);
            }
        }
    }

    /// Puts the bytes of the next line into `line`, which is empty, and answers true, if the whole of it is pending, its line feed
    /// too. Else nothing changes. Nothing is read.
    pub fn next_pending(&mut self, line: &mut Vec<u8>) -> Result<bool, AllocError>
        requires { line.old.items ≡ [] }
        ensures taken { IfOk result (λ taken. taken ≡ true → self.old.bytes ≡ line.new.items ++ 10 ∷ self.new.bytes) }
        ensures none { IfOk result (λ taken. taken ≡ false → All (λ x. x ≢ 10) self.old.bytes) }
        ensures kept { IfOk result (λ taken. taken ≡ false → (self.new ≡ self.old) × (line.new.items ≡ [])) }
        ensures refused { OnErr result ((self.new ≡ self.old) × (line.new.items ≡ [])) }
        ensures plain { All (λ x. x ≢ 10) line.new.items }
        ensures short { length line.new.items ≤ LONGEST_LINE }
        ensures reads { self.new.reads ≡ self.old.reads }
    {
        let rest = self.bytes();
        let Some(place) = feed_at(rest) else {
            return Ok(false);
        };
        line.extend_from_slice(&rest[..place])?;
        self.pass(place + 1);
        Ok(true)
    }

    /// Hands on what is pending, up to the end of the line, and answers how the line ended, if it did. If there is no memory,
    /// nothing is handed on.
    fn hand_on(&mut self, line: &mut Vec<u8>) -> Result<Option<Ending>, LineError>
        requires { length line.old.items ≤ LONGEST_LINE }
        ensures hands { IfOk result (λ ending. Hands ending self.old.bytes self.new.bytes line.old.items line.new.items) }
        ensures reads { self.new.reads ≡ self.old.reads }
        ensures memory { IfErr result (λ error. error ≡ LineError.OutOfMemory) }
        ensures none { OnErr result ((line.new.items ≡ line.old.items) × (self.new.bytes ≡ self.old.bytes)) }
        ensures short { length line.new.items ≤ LONGEST_LINE }
    {
        let rest = self.bytes();
        let left = LONGEST_LINE - line.len();
        let count = feed_at(rest).unwrap_or(rest.len());
        if count > left {
            return Ok(Some(Ending::TooLong));
        }
        append(line, &rest[..count])?;
        if count < rest.len() {
            self.pass(count + 1);
            Ok(Some(Ending::Feed))
        } else {
            self.pass(count);
            Ok(None)
        }
    }

    fn bytes(&self) -> &[u8]
        ensures pending { result.now ≡ self.now.bytes }
        ensures most { length result.now ≤ CHUNK }
    {
        &self.chunk[self.at..self.end]
    }

    /// Lets the first bytes go.
    fn pass(&mut self, count: usize)
        requires { count ≤ length self.old.bytes }
        ensures bytes { self.new.bytes ≡ drop count self.old.bytes }
        ensures reads { self.new.reads ≡ self.old.reads }
    {
        self.at += count;
    }

    /// Reads once more, when nothing is pending. No byte means the end of the input.
    fn refill<R: Read>(&mut self, input: &mut Counted<R>) -> io::Result<usize>
        requires empty { self.old.bytes ≡ [] }
        requires some { self.old.reads ≢ 0 }
        ensures kept { Keeps (unread R.remaining input.old self.old) (unread R.remaining input.new self.new) }
        ensures end { IfOk result (λ n. n ≡ 0 → IsAtEnd (unread R.remaining input.new self.new)) }
        ensures count { IfOk result (λ n. length self.new.bytes ≡ n) }
        ensures reads { self.new.reads + 1 ≡ self.old.reads }
        ensures most { length self.new.bytes ≤ CHUNK }
        ensures counts { failures_of input.new ≡ failures_after (failures_of input.old) result }
    {
        self.reads -= 1;
        let count = input.read(self.chunk.as_mut_slice())?;
        self.at = 0;
        self.end = count;
        Ok(count)
    }
}
