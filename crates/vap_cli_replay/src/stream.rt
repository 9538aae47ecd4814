//! The replay of a stream.

ghost use Rattle.std.specs.Prelude.{◌≡◌, ◌≢◌, ◌≤◌, ◌<◌, ◌+◌, ◌^◌, ◌-◌, ℕ, Bool, false, true};
ghost use Rattle.std.specs.Prelude.{length, IfErr, IfOk, IfSome, IsErrOf, OnOk};
ghost use Rattle.std.specs.Io.KnownBytes.{IsAtEnd};
ghost use Rattle.base_containers.specs.Counted.{failures_of, inner_of};
ghost use Rattle.base_containers.specs.Lines.{AllGive, IsCutOff, StopsReading, empty_reads, longest_line, room, unread};
ghost use Rattle.vap_watch.specs.Logs.{StartsWith};
ghost use Rattle.vap_cli_replay.specs.Moves.{Advances, BeginsWith, CountsWrites, IsRead, IsReadAs, IsUnjudged, IsUnpublished, RefusesBytes};
ghost use Rattle.vap_cli_replay.specs.Moves.{RefusesNext, StopsAt, TakesNext, Writes};
ghost use Rattle.vap_cli_replay.specs.Sessions.{IsInStep, IsOpening};
ghost use Rattle.vap_cli_replay.specs.Streams.{IsUnansweredAt, IsUnverifiedAt, Refuses, Replays, Stops, is_of_the_lines};
ghost use Rattle.vap_cli_lines.specs.Judged.{IsJudgedAt};
ghost use Rattle.vap_cli_lines.specs.Lines.{Reads};
ghost use Rattle.vap_cli_lines.specs.declared.fault.LineFault.{LineFault as FaultOf};

use crate::crew::Crew;
use crate::fault::ReplayError;
use crate::progress::{Progress, Silent};
use crate::session::Session;
use base_containers::{Counted, Ending};
use std::alloc::{AllocError, Global};
use std::io::{Read, Write};
use std::marker::Brand;
use std::sync::Wait;
use std::sync::ledger::Blank;
use std::thread::Threads;
use vap_cli_lines::{Line, LineBuffer, LineFault, LineQueue, LineReaders, ReadLine, TakenLine};
use vap_plane::Plan;
use vap_read::EventReader;
use vap_watch::{open, revision_of};

/// The most workers.
pub const MOST_WORKERS: u8 = 16;

/// Reads lines, publishes events and answers reviews; with `audit` the history's lines follow. Lines are read by as many threads as
/// workers are asked for, and a review is judged where it is read. A group in which some review was not is judged by the workers, each
/// except the first in a thread of its own. What is written is the same however many there are: its definition does not refer to them. If
/// it answers Ok, nothing is left unread, and the text of the lines is written and nothing else. If it reports the first line that is
/// refused, the text up to that line is written. After a failed read, when memory runs out, and if a set or a pattern cannot be built,
/// the first answers are written, each whole, and nothing else; after a failed write a part of an answer may be written. `Pattern` is
/// reported with the line of the first review that is not answered, and only if the set of the log before it looks for a pattern at this
/// review or at a later one; `Unverified` with the line of an event. `Read` is reported only if a read failed, or if there were as many
/// as there may be and each gave a byte. `Stray`, `NoPlace` and the faults of workers exist because no proof says of threads that each
/// answer comes, and comes once.
pub fn replay<H: Threads + Wait + Sync, R: Read, W: Write>(
    rt: &H,
    alloc: Global,
    input: &mut Counted<R>,
    output: &mut Counted<W>,
    workers: u8,
    audit: bool,
) -> Result<(), ReplayError>
    requires reads { failures_of input.old < 2 ^ 64 - 1 }
    requires writes { failures_of output.old < 2 ^ 64 - 1 }
    requires workers { (1 ≤ workers) × (workers ≤ 16) }
    ensures all_read { OnOk result (IsAtEnd (R.remaining (inner_of input.new))) }
    ensures all_written { OnOk result (IfSome (R.remaining (inner_of input.old))
        (λ bytes. Replays audit bytes (W.contents (inner_of output.old)) (W.contents (inner_of output.new)))) }
    ensures refused { (line : ℕ) → (fault : FaultOf) → is_of_the_lines fault ≡ true → IsErrOf result (ReplayError.Line line fault)
        → IfSome (R.remaining (inner_of input.old)) (λ bytes.
        Refuses audit bytes (W.contents (inner_of output.old)) (W.contents (inner_of output.new)) (record { line = line; fault = fault })) }
    ensures stopped { IfErr result (λ error. error ≢ ReplayError.Write → IfSome (R.remaining (inner_of input.old)) (λ bytes.
        Stops audit bytes (W.contents (inner_of output.old)) (W.contents (inner_of output.new)))) }
    ensures write { IsErrOf result ReplayError.Write → failures_of output.new ≡ failures_of output.old + 1 }
    ensures pattern { (line : ℕ) → IsErrOf result (ReplayError.Line line LineFault.Pattern) → IfSome (R.remaining (inner_of input.old))
        (λ bytes. IsUnansweredAt bytes (W.contents (inner_of output.old)) (W.contents (inner_of output.new)) line) }
    ensures unverified { (line : ℕ) → IsErrOf result (ReplayError.Line line LineFault.Unverified)
        → IfSome (R.remaining (inner_of input.old))
        (λ bytes. IsUnverifiedAt bytes (W.contents (inner_of output.old)) (W.contents (inner_of output.new)) line) }
    ensures read { IsErrOf result ReplayError.Read → StopsReading R.remaining input.old input.new }
    ensures no_failure { OnOk result ((failures_of input.new ≡ failures_of input.old) × (failures_of output.new ≡ failures_of output.old)) }
{
    replay_with(rt, alloc, input, output, workers, audit, &mut Silent)
}

/// [`replay`], which reports after each line how far it is, and at the end what was decided.
pub fn replay_with<H: Threads + Wait + Sync, R: Read, W: Write, P: Progress>(
    rt: &H,
    alloc: Global,
    input: &mut Counted<R>,
    output: &mut Counted<W>,
    workers: u8,
    audit: bool,
    progress: &mut P,
) -> Result<(), ReplayError>
    requires reads { failures_of input.old < 2 ^ 64 - 1 }
    requires writes { failures_of output.old < 2 ^ 64 - 1 }
    requires workers { (1 ≤ workers) × (workers ≤ 16) }
    ensures all_read { OnOk result (IsAtEnd (R.remaining (inner_of input.new))) }
    ensures all_written { OnOk result (IfSome (R.remaining (inner_of input.old))
        (λ bytes. Replays audit bytes (W.contents (inner_of output.old)) (W.contents (inner_of output.new)))) }
    ensures refused { (line : ℕ) → (fault : FaultOf) → is_of_the_lines fault ≡ true → IsErrOf result (ReplayError.Line line fault)
        → IfSome (R.remaining (inner_of input.old)) (λ bytes.
        Refuses audit bytes (W.contents (inner_of output.old)) (W.contents (inner_of output.new)) (record { line = line; fault = fault })) }
    ensures stopped { IfErr result (λ error. error ≢ ReplayError.Write → IfSome (R.remaining (inner_of input.old)) (λ bytes.
        Stops audit bytes (W.contents (inner_of output.old)) (W.contents (inner_of output.new)))) }
    ensures write { IsErrOf result ReplayError.Write → failures_of output.new ≡ failures_of output.old + 1 }
    ensures pattern { (line : ℕ) → IsErrOf result (ReplayError.Line line LineFault.Pattern) → IfSome (R.remaining (inner_of input.old))
        (λ bytes. IsUnansweredAt bytes (W.contents (inner_of output.old)) (W.contents (inner_of output.new)) line) }
    ensures unverified { (line : ℕ) → IsErrOf result (ReplayError.Line line LineFault.Unverified)
        → IfSome (R.remaining (inner_of input.old))
        (λ bytes. IsUnverifiedAt bytes (W.contents (inner_of output.old)) (W.contents (inner_of output.new)) line) }
    ensures read { IsErrOf result ReplayError.Read → StopsReading R.remaining input.old input.new }
    ensures no_failure { OnOk result ((failures_of input.new ≡ failures_of input.old) × (failures_of output.new ≡ failures_of output.old)) }
{
    let blank = Blank::new(workers as u64);
    replay_as::<Brand, H, R, W, P>(
        rt,
        alloc,
        input,
        output,
        blank,
        workers as u64,
        audit,
        progress,
    )
}

/// [`replay_with`], by the workers among whom a ledger is divided.
fn replay_as<L: Plan + Send + Sync, H: Threads + Wait + Sync, R: Read, W: Write, P: Progress>(
    rt: &H,
    alloc: Global,
    input: &mut Counted<R>,
    output: &mut Counted<W>,
    blank: Blank,
    workers: u64,
    audit: bool,
    progress: &mut P,
) -> Result<(), ReplayError>
    requires reads { failures_of input.old < 2 ^ 64 - 1 }
    requires writes { failures_of output.old < 2 ^ 64 - 1 }
    requires name { blank.name ≡ L.name }
    requires parts { (blank.parts ≡ L.parts) × (blank.parts ≡ workers) × (workers ≡ L.workers) }
    requires workers { (1 ≤ workers) × (workers ≤ 16) }
    ensures all_read { OnOk result (IsAtEnd (R.remaining (inner_of input.new))) }
    ensures all_written { OnOk result (IfSome (R.remaining (inner_of input.old))
        (λ bytes. Replays audit bytes (W.contents (inner_of output.old)) (W.contents (inner_of output.new)))) }
    ensures refused { (line : ℕ) → (fault : FaultOf) → is_of_the_lines fault ≡ true → IsErrOf result (ReplayError.Line line fault)
        → IfSome (R.remaining (inner_of input.old)) (λ bytes.
        Refuses audit bytes (W.contents (inner_of output.old)) (W.contents (inner_of output.new)) (record { line = line; fault = fault })) }
    ensures stopped { IfErr result (λ error. error ≢ ReplayError.Write → IfSome (R.remaining (inner_of input.old)) (λ bytes.
        Stops audit bytes (W.contents (inner_of output.old)) (W.contents (inner_of output.new)))) }
    ensures write { IsErrOf result ReplayError.Write → failures_of output.new ≡ failures_of output.old + 1 }
    ensures pattern { (line : ℕ) → IsErrOf result (ReplayError.Line line LineFault.Pattern) → IfSome (R.remaining (inner_of input.old))
        (λ bytes. IsUnansweredAt bytes (W.contents (inner_of output.old)) (W.contents (inner_of output.new)) line) }
    ensures unverified { (line : ℕ) → IsErrOf result (ReplayError.Line line LineFault.Unverified)
        → IfSome (R.remaining (inner_of input.old))
        (λ bytes. IsUnverifiedAt bytes (W.contents (inner_of output.old)) (W.contents (inner_of output.new)) line) }
    ensures read { IsErrOf result ReplayError.Read → StopsReading R.remaining input.old input.new }
    ensures no_failure { OnOk result ((failures_of input.new ≡ failures_of input.old) × (failures_of output.new ≡ failures_of output.old)) }
{
    let (mut session, mut crew) = opened::<L, H>(rt, alloc, blank, workers)?;
    let replayed = replay_all(
        alloc,
        &mut session,
        &mut crew,
        input,
        output,
        audit,
        progress,
    );
    progress.replayed(session.end(rt));
    replayed
}

/// Takes all lines, and writes the audit if it is wanted.
fn replay_all<L: Plan + Send + Sync, H: Threads + Wait + Sync, R: Read, W: Write, P: Progress>(
    alloc: Global,
    session: &mut Session,
    crew: &mut Crew<'_, L, H>,
    input: &mut Counted<R>,
    output: &mut Counted<W>,
    audit: bool,
    progress: &mut P,
) -> Result<(), ReplayError>
    requires opening { IsOpening session.old }
    requires home { crew.old.home.board ≡ session.old.writer.board }
    requires reads { failures_of input.old < 2 ^ 64 - 1 }
    requires writes { failures_of output.old < 2 ^ 64 - 1 }
    ensures all_read { OnOk result (IsAtEnd (R.remaining (inner_of input.new))) }
    ensures all_written { OnOk result (IfSome (R.remaining (inner_of input.old))
        (λ bytes. Replays audit bytes (W.contents (inner_of output.old)) (W.contents (inner_of output.new)))) }
    ensures refused { (line : ℕ) → (fault : FaultOf) → is_of_the_lines fault ≡ true → IsErrOf result (ReplayError.Line line fault)
        → IfSome (R.remaining (inner_of input.old)) (λ bytes.
        Refuses audit bytes (W.contents (inner_of output.old)) (W.contents (inner_of output.new)) (record { line = line; fault = fault })) }
    ensures stopped { IfErr result (λ error. error ≢ ReplayError.Write → IfSome (R.remaining (inner_of input.old)) (λ bytes.
        Stops audit bytes (W.contents (inner_of output.old)) (W.contents (inner_of output.new)))) }
    ensures write { IsErrOf result ReplayError.Write → failures_of output.new ≡ failures_of output.old + 1 }
    ensures pattern { (line : ℕ) → IsErrOf result (ReplayError.Line line LineFault.Pattern) → IfSome (R.remaining (inner_of input.old))
        (λ bytes. IsUnansweredAt bytes (W.contents (inner_of output.old)) (W.contents (inner_of output.new)) line) }
    ensures unverified { (line : ℕ) → IsErrOf result (ReplayError.Line line LineFault.Unverified)
        → IfSome (R.remaining (inner_of input.old))
        (λ bytes. IsUnverifiedAt bytes (W.contents (inner_of output.old)) (W.contents (inner_of output.new)) line) }
    ensures read { IsErrOf result ReplayError.Read → StopsReading R.remaining input.old input.new }
    ensures no_failure { OnOk result ((failures_of input.new ≡ failures_of input.old) × (failures_of output.new ≡ failures_of output.old)) }
{
    take_all(alloc, session, crew, input, output, progress)?;
    session.finish(audit, output)
}

/// A replay that has read nothing yet, and its workers.
fn opened<'a, L: Plan + Send + Sync, H: Threads + Wait + Sync>(
    rt: &'a H,
    alloc: Global,
    blank: Blank,
    workers: u64,
) -> Result<(Session, Crew<'a, L, H>), ReplayError>
    requires name { blank.name ≡ L.name }
    requires parts { (blank.parts ≡ L.parts) × (blank.parts ≡ workers) × (workers ≡ L.workers) }
    requires workers { (1 ≤ workers) × (workers ≤ 16) }
    ensures opening { IfOk result (λ made. IsOpening made.0) }
    ensures home { IfOk result (λ made. made.1.home.board ≡ made.0.writer.board) }
    ensures lines { (number : ℕ) → (why : FaultOf) → IsErrOf result (ReplayError.Line number why) → is_of_the_lines why ≡ false }
    ensures unwritten { IfErr result (λ error. error ≢ ReplayError.Write) }
    ensures no_pattern { (number : ℕ) → IsErrOf result (ReplayError.Line number LineFault.Pattern) → ⊥ }
    ensures no_image { (number : ℕ) → IsErrOf result (ReplayError.Line number LineFault.Unverified) → ⊥ }
    ensures no_read { IsErrOf result ReplayError.Read → ⊥ }
{
    let events = EventReader::new(alloc)?;
    let (writer, source) = open(rt, alloc, workers as usize)?;
    let home = writer.tell();
    let session = Session::new(alloc, events, writer);
    match Crew::<L, H>::new(rt, alloc, &source, home, blank, workers) {
        Ok(crew) => Ok((session, crew)),
        Err(error) => {
            session.end(rt);
            Err(error)
        }
    }
}

/// Takes each line up to the end of the input, and answers the last group.
fn take_all<L: Plan + Send + Sync, H: Threads + Wait + Sync, R: Read, W: Write, P: Progress>(
    alloc: Global,
    session: &mut Session,
    crew: &mut Crew<'_, L, H>,
    input: &mut Counted<R>,
    output: &mut Counted<W>,
    progress: &mut P,
) -> Result<(), ReplayError>
    requires opening { IsOpening session.old }
    requires home { crew.old.home.board ≡ session.old.writer.board }
    ensures all { OnOk result (IsRead R.remaining W.contents input.old output.old input.new output.new session.new) }
    ensures refused { (number : ℕ) → (why : FaultOf) → is_of_the_lines why ≡ true → IsErrOf result (ReplayError.Line number why)
        → (audit : Bool) → IfSome (R.remaining (inner_of input.old)) (λ bytes.
        Refuses audit bytes (W.contents (inner_of output.old)) (W.contents (inner_of output.new)) (record { line = number; fault = why })) }
    ensures stopped { IfErr result (λ error. error ≢ ReplayError.Write → (audit : Bool) → IfSome (R.remaining (inner_of input.old))
        (λ bytes. Stops audit bytes (W.contents (inner_of output.old)) (W.contents (inner_of output.new)))) }
    ensures counts { CountsWrites result output.old output.new }
    ensures pattern { (line : ℕ) → IsErrOf result (ReplayError.Line line LineFault.Pattern) → IfSome (R.remaining (inner_of input.old))
        (λ bytes. IsUnansweredAt bytes (W.contents (inner_of output.old)) (W.contents (inner_of output.new)) line) }
    ensures unverified { (line : ℕ) → IsErrOf result (ReplayError.Line line LineFault.Unverified)
        → IfSome (R.remaining (inner_of input.old))
        (λ bytes. IsUnverifiedAt bytes (W.contents (inner_of output.old)) (W.contents (inner_of output.new)) line) }
    ensures read { IsErrOf result ReplayError.Read → StopsReading R.remaining input.old input.new }
    ensures no_failure { OnOk result (failures_of input.new ≡ failures_of input.old) }
{
    let mut queue = LineQueue::new(alloc, session.writer.snapshot())?;
    let mut buffer = LineBuffer::new(alloc);
    let mut ending = Ending::Feed;
    while ending == Ending::Feed {
        ending = take_next(session, crew, &mut queue, input, &mut buffer, output)?;
        progress.reached(
            session.lines,
            session.history.len(),
            revision_of(session.writer.snapshot()),
        );
    }
    session.answer_group(crew, output)
}

/// Takes the next line, by way of `buffer`, and returns how it ended.
fn take_next<L: Plan + Send + Sync, H: Threads + Wait + Sync, R: Read, W: Write>(
    session: &mut Session,
    crew: &mut Crew<'_, L, H>,
    queue: &mut LineQueue,
    input: &mut Counted<R>,
    buffer: &mut LineBuffer,
    output: &mut Counted<W>,
) -> Result<Ending, ReplayError>
    requires step { IsInStep session.old }
    requires home { crew.old.home.board ≡ session.old.writer.board }
    requires log { StartsWith session.old.writer.published queue.old.log }
    requires count { session.old.lines + 1 < 2 ^ 64 }
    ensures home { OnOk result (crew.new.home.board ≡ session.new.writer.board) }
    ensures step { OnOk result (IsInStep session.new) }
    ensures log { OnOk result (StartsWith session.new.writer.published queue.new.log) }
    ensures taken { IfOk result (λ ending. TakesNext (unread R.remaining input.old queue.old.pending)
        (unread R.remaining input.new queue.new.pending) ending session.old session.new) }
    ensures written { OnOk result (Writes W.contents session.old session.new output.old output.new) }
    ensures refused { (number : ℕ) → (why : FaultOf) → is_of_the_lines why ≡ true → IsErrOf result (ReplayError.Line number why)
        → IfSome (unread R.remaining input.old queue.old.pending) (λ text.
        RefusesNext W.contents text session.old output.old output.new number why) }
    ensures stopped { IfErr result (λ error. error ≢ ReplayError.Write → StopsAt W.contents session.old output.old output.new) }
    ensures counts { CountsWrites result output.old output.new }
    ensures lines { OnOk result (session.new.lines ≤ session.old.lines + 1) }
    ensures less { IfOk result (λ ending. ending ≡ Ending.Feed → room queue.new.pending < room queue.old.pending) }
    ensures no_more { room queue.new.pending ≤ room queue.old.pending }
    ensures pattern { (number : ℕ) → IsErrOf result (ReplayError.Line number LineFault.Pattern)
        → IfSome (unread R.remaining input.old queue.old.pending) (λ text.
        IsUnjudged (BeginsWith text) session.old output.old output.new number) }
    ensures unverified { (number : ℕ) → IsErrOf result (ReplayError.Line number LineFault.Unverified)
        → IfSome (unread R.remaining input.old queue.old.pending) (λ text.
        IsUnpublished W.contents (BeginsWith text) session.old output.old output.new number) }
    ensures read { IsErrOf result ReplayError.Read → IsCutOff R.remaining input.old input.new queue.old.pending queue.new.pending }
    ensures given { IfOk result (λ ending. AllGive (empty_reads ending) (R.remaining (inner_of input.old))
        (R.remaining (inner_of input.new)) queue.old.pending queue.new.pending) }
    ensures no_failure { OnOk result (failures_of input.new ≡ failures_of input.old) }
{
    let readers = LineReaders {
        rt: crew.rt,
        events: session.events(),
        snapshot: session.writer.snapshot(),
        threads: crew.threads(),
    };
    let line = queue.next(&readers, input, buffer)?;
    let ending = line.ending;
    take_bytes(session, crew, buffer, line, output)?;
    Ok(ending)
}

/// Takes the bytes of a line, which ended so and may have been read before its turn. The empty end of an input is no line.
fn take_bytes<L: Plan + Send + Sync, H: Threads + Wait + Sync, W: Write>(
    session: &mut Session,
    crew: &mut Crew<'_, L, H>,
    buffer: &mut LineBuffer,
    line: TakenLine,
    output: &mut Counted<W>,
) -> Result<(), ReplayError>
    requires step { IsInStep session.old }
    requires home { crew.old.home.board ≡ session.old.writer.board }
    requires short { length buffer.old ≤ longest_line }
    requires read { IfSome line.read (λ read. Reads buffer.old read.line
        × IsJudgedAt session.old.writer.published read.line read.answer) }
    requires count { session.old.lines + 1 < 2 ^ 64 }
    ensures home { OnOk result (crew.new.home.board ≡ session.new.writer.board) }
    ensures step { OnOk result (IsInStep session.new) }
    ensures taken { OnOk result (Advances line.ending buffer.old session.old session.new) }
    ensures written { OnOk result (Writes W.contents session.old session.new output.old output.new) }
    ensures ended { OnOk result (line.ending ≢ Ending.TooLong) }
    ensures lines { OnOk result (session.new.lines ≤ session.old.lines + 1) }
    ensures refused { (number : ℕ) → (why : FaultOf) → is_of_the_lines why ≡ true → IsErrOf result (ReplayError.Line number why)
        → RefusesBytes W.contents line.ending buffer.old session.old output.old output.new number why }
    ensures stopped { IfErr result (λ error. error ≢ ReplayError.Write → StopsAt W.contents session.old output.old output.new) }
    ensures counts { CountsWrites result output.old output.new }
    ensures pattern { (number : ℕ) → IsErrOf result (ReplayError.Line number LineFault.Pattern)
        → IsUnjudged (IsReadAs line.ending buffer.old) session.old output.old output.new number }
    ensures unverified { (number : ℕ) → IsErrOf result (ReplayError.Line number LineFault.Unverified)
        → IsUnpublished W.contents (IsReadAs line.ending buffer.old) session.old output.old output.new number }
    ensures no_read { IsErrOf result ReplayError.Read → ⊥ }
{
    match line.ending {
        Ending::TooLong => {
            let refused = Line::Refused(LineFault::TooLong);
            session.take(crew, refused, None, output)
        }
        Ending::Feed => {
            let read = read_bytes(session, line.read, buffer)?;
            session.take(crew, read.line, read.answer, output)
        }
        Ending::End => take_last(session, crew, buffer, output),
    }
}

/// Takes the bytes of the last line, which the end of the input ended. The empty end of an input is no line.
fn take_last<L: Plan + Send + Sync, H: Threads + Wait + Sync, W: Write>(
    session: &mut Session,
    crew: &mut Crew<'_, L, H>,
    buffer: &mut LineBuffer,
    output: &mut Counted<W>,
) -> Result<(), ReplayError>
    requires step { IsInStep session.old }
    requires home { crew.old.home.board ≡ session.old.writer.board }
    requires short { length buffer.old ≤ longest_line }
    requires count { session.old.lines + 1 < 2 ^ 64 }
    ensures home { OnOk result (crew.new.home.board ≡ session.new.writer.board) }
    ensures step { OnOk result (IsInStep session.new) }
    ensures taken { OnOk result (Advances Ending.End buffer.old session.old session.new) }
    ensures written { OnOk result (Writes W.contents session.old session.new output.old output.new) }
    ensures lines { OnOk result (session.new.lines ≤ session.old.lines + 1) }
    ensures refused { (number : ℕ) → (why : FaultOf) → is_of_the_lines why ≡ true → IsErrOf result (ReplayError.Line number why)
        → RefusesBytes W.contents Ending.End buffer.old session.old output.old output.new number why }
    ensures stopped { IfErr result (λ error. error ≢ ReplayError.Write → StopsAt W.contents session.old output.old output.new) }
    ensures counts { CountsWrites result output.old output.new }
    ensures pattern { (number : ℕ) → IsErrOf result (ReplayError.Line number LineFault.Pattern)
        → IsUnjudged (IsReadAs Ending.End buffer.old) session.old output.old output.new number }
    ensures unverified { (number : ℕ) → IsErrOf result (ReplayError.Line number LineFault.Unverified)
        → IsUnpublished W.contents (IsReadAs Ending.End buffer.old) session.old output.old output.new number }
    ensures no_read { IsErrOf result ReplayError.Read → ⊥ }
{
    if buffer.is_empty() {
        return Ok(());
    }
    let read = read_bytes(session, None, buffer)?;
    session.take(crew, read.line, read.answer, output)
}

/// What the bytes of a line are, as it was read before its turn or as it is read now. A review that is read now is judged while it is
/// open: no event comes between it and its answer.
fn read_bytes(
    session: &Session,
    read: Option<ReadLine>,
    buffer: &mut LineBuffer,
) -> Result<ReadLine, AllocError>
    requires short { length buffer.old ≤ longest_line }
    requires read { IfSome read (λ early. Reads buffer.old early.line
        × IsJudgedAt session.now.writer.published early.line early.answer) }
    ensures line { IfOk result (λ read. Reads buffer.old read.line) }
    ensures judged { IfOk result (λ read. IsJudgedAt session.now.writer.published read.line read.answer) }
{
    match read {
        Some(read) => Ok(read),
        None => buffer.read(session.events(), session.writer.snapshot()),
    }
}
