//! A replay under way.

ghost use Rattle.std.specs.Prelude.{◌≡◌, ◌≢◌, ◌+◌, ◌<◌, ◌≤◌, ◌^◌, ◌∷◌, ◌++◌, ℕ, [], false, true};
ghost use Rattle.std.specs.Prelude.{length, take, slice_get, Ok, Err, Some, ◌⊎◌, IfErr, IfOk, IfSome, IsErr, IsErrOf, OnOk};
ghost use Rattle.std.specs.Io.KnownBytes.{Appends, Keeps};
ghost use Rattle.std.specs.Vec.Iter.{into_iter_items};
ghost use Rattle.base_containers.specs.Counted.{inner_of};
ghost use Rattle.vap_audit.specs.Entries.{most_entries};
ghost use Rattle.vap_audit.specs.declared.entry.Entry.{Entry as EntryOf};
ghost use Rattle.vap_plane.specs.Answers.{verdicts_at};
ghost use Rattle.vap_watch.specs.Given.{AreUnverified};
ghost use Rattle.vap_watch.specs.Logs.{objects_after, objects_of};
ghost use Rattle.vap_audit.specs.Verdicts.{verdict_at};
ghost use Rattle.vap_cli_replay.specs.Moves.{CountsWrites, IsRefusal, IsUnjudged, IsUnpublished, RefusesAt, StopsAt, Takes, Waits, Writes};
ghost use Rattle.vap_cli_replay.specs.Streams.{IsPlain, is_of_the_lines};
ghost use Rattle.vap_cli_lines.specs.declared.fault.LineFault.{LineFault as FaultOf};
ghost use Rattle.vap_cli_replay.specs.Replay.{answer_line, answers_text, audit_line, audit_lines, audit_where, entry_of};
ghost use Rattle.vap_cli_replay.specs.Groups.{OneMayMatch};
ghost use Rattle.vap_cli_replay.specs.Sessions.{Answered, Decided, HasRoom, IsInStep, IsOpening, RefusesEvent, TakesEvent, TakesReview};
ghost use Rattle.vap_cli_replay.specs.Sessions.{IsKept, TellsGroup, first_with, group_entries, sofar_of, waiting_entries};
ghost use Rattle.vap_cli_lines.specs.Judged.{AnswersAt, IsJudged, IsJudgedAt};
ghost use Rattle.cel_machine.specs.declared.fault.RunFault.TheVariants.{Pattern};
ghost use Rattle.base_containers.specs.declared.failed.Failed.TheVariants.{Fault};

use crate::audit_line::with_audit_text;
use crate::crew::{Crew, given_up};
use crate::fault::{ReplayError, unpublished, unstaged};
use base_containers::Counted;
use std::alloc::{AllocError, Global};
use std::io::Write;
use std::mem;
use std::sync::Wait;
use std::thread::Threads;
use std::vec::IntoIter;
use vap_audit::{AuditFault, Entry, History, MOST_ENTRIES};
use vap_cli_lines::{Line, LineFault, ReviewAnswer, answer_line};
use vap_match::Request;
use vap_plane::Plan;
use vap_policy::JudgeError;
use vap_policy_verdict::Verdict;
use vap_read::{Event, EventReader};
use vap_watch::Writer;

/// The most reviews that are judged together.
pub const LARGEST_GROUP: usize = 1_024;

/// How many reviews are enough that were judged where they were read: they are then still in the processor's caches when they are
/// answered.
const ENOUGH_JUDGED: usize = 64;

/// From how many bytes on the lines of the audit are written, in one write.
const FULL_TEXT: usize = 65_536;

/// Room for most lines of the audit. Each is made in a room of its own and then put behind the others, since a writer of JSON clears up
/// to 16 KiB of the room behind its text.
const LINE_ROOM: usize = 1_024;

/// A replay under way: what reads its events, what is published, what was decided, by call, and the reviews that are read and not
/// yet answered, with the verdicts on them and the text of their answers if they were judged where they were read, and the line of the
/// first of them. It is not `Drop`: give it up by [`Session::end`].
pub(crate) struct Session {
    alloc: Global,
    events: EventReader,
    pub(crate) writer: Writer,
    pub(crate) history: History,
    pub(crate) group: Vec<Request>,
    pub(crate) verdicts: Vec<Verdict>,
    pub(crate) answers: Vec<u8>,
    pub(crate) lines: u64,
    pub(crate) first: u64,
}

impl Session {
    pub(crate) fn new(alloc: Global, events: EventReader, writer: Writer) -> Session
        requires { (writer.published ≡ []) × (writer.staged ≡ []) }
        ensures opening { IsOpening result }
        ensures writer { result.writer ≡ writer }
    {
        Session {
            alloc,
            events,
            writer,
            history: History::new(alloc),
            group: Vec::new(alloc),
            verdicts: Vec::new(alloc),
            answers: Vec::new(alloc),
            lines: 0,
            first: 0,
        }
    }

    /// Gives up what is published, and hands over what was decided.
    pub(crate) fn end<H: Wait>(self, rt: &H) -> History
        ensures { result ≡ self.history }
    {
        let Session {
            alloc: _,
            events: _events,
            writer,
            history,
            group: _group,
            verdicts: _verdicts,
            answers: _answers,
            lines: _,
            first: _,
        } = self;
        writer.end(rt);
        history
    }

    pub(crate) fn events(&self) -> &EventReader {
        &self.events
    }

    /// The refusal of the line that was read last.
    fn refusal(&self, fault: LineFault) -> ReplayError
        ensures { result ≡ ReplayError.Line self.now.lines fault }
    {
        ReplayError::Line {
            line: self.lines,
            fault,
        }
    }

    /// Takes one line more, with what judging it gave if that was done: an event when the reviews before it are answered, a review into
    /// the group.
    pub(crate) fn take<L: Plan + Send + Sync, H: Threads + Wait + Sync, W: Write>(
        &mut self,
        crew: &mut Crew<'_, L, H>,
        line: Line,
        answer: Option<Result<ReviewAnswer, JudgeError>>,
        out: &mut Counted<W>,
    ) -> Result<(), ReplayError>
        requires step { IsInStep self.old }
        requires judged { IsJudgedAt self.old.writer.published line answer }
        requires home { crew.old.home.board ≡ self.old.writer.board }
        requires count { self.old.lines + 1 < 2 ^ 64 }
        ensures home { OnOk result (crew.new.home.board ≡ self.new.writer.board) }
        ensures step { OnOk result (IsInStep self.new) }
        ensures taken { OnOk result (Takes line self.old self.new) }
        ensures written { OnOk result (Writes W.contents self.old self.new out.old out.new) }
        ensures refused { (number : ℕ) → (why : FaultOf) → is_of_the_lines why ≡ true → IsErrOf result (ReplayError.Line number why)
            → RefusesAt W.contents line self.old out.old out.new number why }
        ensures stopped { IfErr result (λ error. error ≢ ReplayError.Write → StopsAt W.contents self.old out.old out.new) }
        ensures counts { CountsWrites result out.old out.new }
        ensures waiting { OnOk result (self.new.group.items ≢ [] → Waits (λ l. line ≡ l) self.old self.new) }
        ensures pattern { (number : ℕ) → IsErrOf result (ReplayError.Line number LineFault.Pattern) → IsPlain line
            → IsUnjudged (λ l. line ≡ l) self.old out.old out.new number }
        ensures unverified { (number : ℕ) → IsErrOf result (ReplayError.Line number LineFault.Unverified) → IsPlain line
            → IsUnpublished W.contents (λ l. line ≡ l) self.old out.old out.new number }
        ensures no_read { IsErrOf result ReplayError.Read → ⊥ }
    {
        self.lines += 1;
        match line {
            Line::Skipped => Ok(()),
            Line::Asks(request) => self.take_review(crew, request, answer, out),
            Line::Happens(event) => {
                self.answer_group(crew, out)?;
                self.take_event(crew.rt, event)
            }
            Line::Refused(fault) => self.refuse(crew, fault, out),
        }
    }

    /// Answers the reviews before the line that was read last, and refuses this line.
    #[tactic(auto, using(crate::proofs::Taking::not_both, crate::proofs::Told::stops_here, crate::proofs::Told::stops_behind))]
    fn refuse<L: Plan + Send + Sync, H: Threads + Wait + Sync, W: Write>(
        &mut self,
        crew: &mut Crew<'_, L, H>,
        fault: LineFault,
        out: &mut Counted<W>,
    ) -> Result<(), ReplayError>
        requires step { IsInStep self.old }
        requires home { crew.old.home.board ≡ self.old.writer.board }
        ensures refused { IsErr result }
        ensures told { (number : ℕ) → (why : FaultOf) → is_of_the_lines why ≡ true → IsErrOf result (ReplayError.Line number why)
            → IsRefusal W.contents fault self.old out.old out.new number why }
        ensures stopped { IfErr result (λ error. error ≢ ReplayError.Write → StopsAt W.contents self.old out.old out.new) }
        ensures counts { CountsWrites result out.old out.new }
        ensures pattern { (number : ℕ) → (why : FaultOf) → is_of_the_lines why ≡ false → is_of_the_lines fault ≡ true
            → IsErrOf result (ReplayError.Line number why) → TellsGroup self.old number why × (out.new ≡ out.old) }
        ensures no_read { IsErrOf result ReplayError.Read → ⊥ }
    {
        self.answer_group(crew, out)?;
        Err(self.refusal(fault))
    }

    /// Stages an event and publishes it.
    #[tactic(auto, using(crate::proofs::Taking::staged_not, crate::proofs::Taking::published_not))]
    fn take_event<H: Wait>(&mut self, rt: &H, event: Event) -> Result<(), ReplayError>
        requires published { self.old.writer.staged ≡ [] }
        ensures published { OnOk result (self.new.writer.staged ≡ []) }
        ensures board { OnOk result (self.new.writer.board ≡ self.old.writer.board) }
        ensures taken { OnOk result (TakesEvent self.old.writer.published event self.new.writer.published) }
        ensures refused { (number : ℕ) → (why : FaultOf) → is_of_the_lines why ≡ true → IsErrOf result (ReplayError.Line number why)
            → (number ≡ self.old.lines) × RefusesEvent self.old.writer.published event why }
        ensures unwritten { IfErr result (λ error. error ≢ ReplayError.Write) }
        ensures rest { (self.new.history ≡ self.old.history) × (self.new.group ≡ self.old.group) × (self.new.lines ≡ self.old.lines) }
        ensures answers { self.new.answers ≡ self.old.answers }
        ensures unverified { (number : ℕ) → IsErrOf result (ReplayError.Line number LineFault.Unverified) → (number ≡ self.old.lines)
            × AreUnverified (objects_after (objects_of self.old.writer.published) (event ∷ [])) }
        ensures no_pattern { (number : ℕ) → IsErrOf result (ReplayError.Line number LineFault.Pattern) → ⊥ }
        ensures no_read { IsErrOf result ReplayError.Read → ⊥ }
    {
        if let Err((fault, _)) = self.writer.stage(event) {
            return Err(unstaged(self.lines, fault));
        }
        match self.writer.publish(rt) {
            Ok(_) => Ok(()),
            Err(error) => Err(unpublished(self.lines, error)),
        }
    }

    /// Whether the group is to be answered: it is large enough, and judged where it was read; or the review that was read last is judged
    /// and others are not, so that the workers judge no more than this one a second time.
    fn is_enough(&self, is_last_judged: bool) -> bool {
        if self.is_judged() {
            self.group.len() >= ENOUGH_JUDGED
        } else {
            is_last_judged
        }
    }

    /// Whether there are as many verdicts as reviews that wait.
    fn is_judged(&self) -> bool
        ensures { result ≡ true → length self.now.verdicts.items ≡ length self.now.group.items }
    {
        self.verdicts.len() == self.group.len()
    }

    /// Puts a review into the group, and answers the group if it is as large as it may be, or large enough, or if the history has
    /// no room for more.
    #[tactic(auto, using(crate::proofs::Told::stops_here, crate::proofs::Unjudged::group_first))]
    fn take_review<L: Plan + Send + Sync, H: Threads + Wait + Sync, W: Write>(
        &mut self,
        crew: &mut Crew<'_, L, H>,
        request: Request,
        answer: Option<Result<ReviewAnswer, JudgeError>>,
        out: &mut Counted<W>,
    ) -> Result<(), ReplayError>
        requires step { IsInStep self.old }
        requires judged { IsJudged self.old.writer.published request answer }
        requires home { crew.old.home.board ≡ self.old.writer.board }
        ensures home { OnOk result (crew.new.home.board ≡ self.new.writer.board) }
        ensures step { OnOk result (IsInStep self.new) }
        ensures taken { OnOk result (TakesReview request self.old self.new) }
        ensures written { OnOk result (Writes W.contents self.old self.new out.old out.new) }
        ensures told { (number : ℕ) → (why : FaultOf) → is_of_the_lines why ≡ true → IsErrOf result (ReplayError.Line number why)
            → IsRefusal W.contents LineFault.AuditFull self.old out.old out.new number why }
        ensures full { (number : ℕ) → (why : FaultOf) → is_of_the_lines why ≡ true → IsErrOf result (ReplayError.Line number why)
            → length (sofar_of self.old).entries ≡ most_entries }
        ensures stopped { IfErr result (λ error. error ≢ ReplayError.Write → StopsAt W.contents self.old out.old out.new) }
        ensures counts { CountsWrites result out.old out.new }
        ensures waiting { OnOk result (self.new.group.items ≢ [] → (self.new.history ≡ self.old.history)
            × (self.new.first ≡ first_with self.old.group.items self.old.first self.old.lines)) }
        ensures group { OnOk result (self.new.group.items ≢ [] → self.new.group.items ≡ self.old.group.items ++ request ∷ []) }
        ensures pattern { (number : ℕ) → IsErrOf result (ReplayError.Line number LineFault.Pattern) → (out.new ≡ out.old)
            × (number ≡ first_with self.old.group.items self.old.first self.old.lines) }
        ensures asked { (number : ℕ) → IsErrOf result (ReplayError.Line number LineFault.Pattern)
            → OneMayMatch self.old.writer.published (self.old.group.items ++ request ∷ []) }
        ensures no_image { (number : ℕ) → IsErrOf result (ReplayError.Line number LineFault.Unverified) → ⊥ }
        ensures no_read { IsErrOf result ReplayError.Read → ⊥ }
    {
        if self.waiting() == MOST_ENTRIES {
            return self.refuse(crew, LineFault::AuditFull, out);
        }
        let answer = self.given(answer)?;
        let judged = answer.is_some();
        self.wait(request, answer)?;
        if self.group.len() == LARGEST_GROUP
            || self.waiting() == MOST_ENTRIES
            || self.is_enough(judged)
        {
            self.answer_group(crew, out)?;
        }
        Ok(())
    }

    /// The line of the first review of the group, if the one that was read last waits with the others.
    #[tactic(auto, using(crate::proofs::Unjudged::first_none, crate::proofs::Unjudged::first_some))]
    fn first_line(&self) -> u64
        ensures { result ≡ first_with self.now.group.items self.now.first self.now.lines }
    {
        if self.group.is_empty() {
            self.lines
        } else {
            self.first
        }
    }

    /// The answer to the review that was read last, if it was judged. If it was given up, that is reported at the first line of the group
    /// that it waits with.
    fn given(
        &self,
        answer: Option<Result<ReviewAnswer, JudgeError>>,
    ) -> Result<Option<ReviewAnswer>, ReplayError>
        ensures given { IfOk result (λ found. IfSome found (λ a. answer ≡ Some (Ok a))) }
        ensures told { (number : ℕ) → (why : FaultOf) → IsErrOf result (ReplayError.Line number why)
            → (number ≡ first_with self.now.group.items self.now.first self.now.lines) × (why ≡ LineFault.Pattern) }
        ensures pattern { (number : ℕ) → (why : FaultOf) → IsErrOf result (ReplayError.Line number why)
            → answer ≡ Some (Err (Fault Pattern)) }
        ensures unwritten { IfErr result (λ error. error ≢ ReplayError.Write) }
        ensures no_read { IsErrOf result ReplayError.Read → ⊥ }
    {
        match answer {
            None => Ok(None),
            Some(Ok(answer)) => Ok(Some(answer)),
            Some(Err(error)) => Err(given_up(self.first_line(), error)),
        }
    }

    /// Puts a review into the group, as the last, with the answer to it if there is one.
    fn wait(&mut self, request: Request, answer: Option<ReviewAnswer>) -> Result<(), ReplayError>
        requires step { IsInStep self.old }
        requires room { length self.old.history + length self.old.group.items < most_entries }
        requires right { IfSome answer (AnswersAt self.old.writer.published request) }
        ensures taken { OnOk result (TakesReview request self.old self.new) }
        ensures room { OnOk result (HasRoom self.new) }
        ensures history { OnOk result (self.new.history ≡ self.old.history) }
        ensures memory { IfErr result (λ error. error ≡ ReplayError.OutOfMemory) }
        ensures first { OnOk result (self.new.first ≡ first_with self.old.group.items self.old.first self.old.lines) }
        ensures group { OnOk result (self.new.group.items ≡ self.old.group.items ++ request ∷ []) }
    {
        self.first = self.first_line();
        keep(
            &mut self.verdicts,
            &mut self.answers,
            self.group.len(),
            answer,
        )?;
        self.group.push(request)?;
        Ok(())
    }

    /// How many reviews were read, those of the group too.
    fn waiting(&self) -> usize
        requires { HasRoom self.now }
        ensures { result ≡ length self.now.history + length self.now.group.items }
    {
        self.history.len() + self.group.len()
    }

    /// Has the group judged, records what is decided, and then writes the answers. Before all are recorded, none is written.
    pub(crate) fn answer_group<L: Plan + Send + Sync, H: Threads + Wait + Sync, W: Write>(
        &mut self,
        crew: &mut Crew<'_, L, H>,
        out: &mut Counted<W>,
    ) -> Result<(), ReplayError>
        requires room { HasRoom self.old }
        requires home { crew.old.home.board ≡ self.old.writer.board }
        ensures home { OnOk result (crew.new.home.board ≡ self.new.writer.board) }
        ensures answered { OnOk result (Answered self.old self.new) }
        ensures written { OnOk result (Appends (W.contents (inner_of out.old)) (W.contents (inner_of out.new))
            (answers_text (waiting_entries self.old))) }
        ensures lines { (number : ℕ) → (why : FaultOf) → IsErrOf result (ReplayError.Line number why) → is_of_the_lines why ≡ false }
        ensures stopped { IfErr result (λ error. error ≢ ReplayError.Write → out.new ≡ out.old) }
        ensures counts { CountsWrites result out.old out.new }
        ensures pattern { (number : ℕ) → (why : FaultOf) → IsErrOf result (ReplayError.Line number why) → TellsGroup self.old number why }
        ensures no_read { IsErrOf result ReplayError.Read → ⊥ }
    {
        let text = self.decide_group(crew)?;
        write_text(text.as_slice(), out)
    }

    /// Records what is decided on the group, which all workers judge if it was not judged where it was read. The text is that of the
    /// answers.
    fn decide_group<L: Plan + Send + Sync, H: Threads + Wait + Sync>(
        &mut self,
        crew: &mut Crew<'_, L, H>,
    ) -> Result<Vec<u8>, ReplayError>
        requires room { HasRoom self.old }
        requires home { crew.old.home.board ≡ self.old.writer.board }
        ensures home { OnOk result (crew.new.home.board ≡ self.new.writer.board) }
        ensures answered { OnOk result (Answered self.old self.new) }
        ensures text { IfOk result (λ text. text.items ≡ answers_text (waiting_entries self.old)) }
        ensures lines { (number : ℕ) → (why : FaultOf) → IsErrOf result (ReplayError.Line number why) → is_of_the_lines why ≡ false }
        ensures unwritten { IfErr result (λ error. error ≢ ReplayError.Write) }
        ensures pattern { (number : ℕ) → (why : FaultOf) → IsErrOf result (ReplayError.Line number why) → TellsGroup self.old number why }
        ensures no_read { IsErrOf result ReplayError.Read → ⊥ }
    {
        if self.is_judged() {
            self.record_group()
        } else {
            self.judge_group(crew)
        }
    }

    /// Records what was decided on the group where its reviews were read. The text is that of the answers that were made there.
    fn record_group(&mut self) -> Result<Vec<u8>, ReplayError>
        requires room { HasRoom self.old }
        requires judged { length self.old.verdicts.items ≡ length self.old.group.items }
        ensures answered { OnOk result (Answered self.old self.new) }
        ensures text { IfOk result (λ text. text.items ≡ answers_text (waiting_entries self.old)) }
        ensures memory { IfErr result (λ error. error ≡ ReplayError.OutOfMemory) }
    {
        let text = mem::replace(&mut self.answers, Vec::new(self.alloc));
        let verdicts = mem::replace(&mut self.verdicts, Vec::new(self.alloc));
        let group = mem::replace(&mut self.group, Vec::new(self.alloc));
        self.record_all(group, verdicts)?;
        Ok(text)
    }

    /// Has the group judged by all workers, and records what is decided. The text is that of the answers, read from the history.
    fn judge_group<L: Plan + Send + Sync, H: Threads + Wait + Sync>(
        &mut self,
        crew: &mut Crew<'_, L, H>,
    ) -> Result<Vec<u8>, ReplayError>
        requires room { HasRoom self.old }
        requires home { crew.old.home.board ≡ self.old.writer.board }
        ensures home { OnOk result (crew.new.home.board ≡ self.new.writer.board) }
        ensures answered { OnOk result (Answered self.old self.new) }
        ensures text { IfOk result (λ text. text.items ≡ answers_text (waiting_entries self.old)) }
        ensures unwritten { IfErr result (λ error. error ≢ ReplayError.Write) }
        ensures pattern { (number : ℕ) → (why : FaultOf) → IsErrOf result (ReplayError.Line number why) → TellsGroup self.old number why }
        ensures no_read { IsErrOf result ReplayError.Read → ⊥ }
    {
        let verdicts = self.verdicts(crew)?;
        self.answers.clear();
        let group = mem::replace(&mut self.group, Vec::new(self.alloc));
        let text = self.decide_all(group, verdicts)?;
        Ok(text)
    }

    /// The verdicts of all workers on the group.
    fn verdicts<L: Plan + Send + Sync, H: Threads + Wait + Sync>(
        &self,
        crew: &mut Crew<'_, L, H>,
    ) -> Result<Vec<Verdict>, ReplayError>
        requires home { crew.old.home.board ≡ self.now.writer.board }
        requires room { length self.now.history + length self.now.group.items ≤ most_entries }
        ensures home { crew.new.home ≡ crew.old.home }
        ensures verdicts { IfOk result (λ verdicts. verdicts.items ≡ verdicts_at self.now.writer.published self.now.group.items) }
        ensures pattern { (number : ℕ) → (why : FaultOf) → IsErrOf result (ReplayError.Line number why) → TellsGroup self.now number why }
        ensures unwritten { IfErr result (λ error. error ≢ ReplayError.Write) }
        ensures no_read { IsErrOf result ReplayError.Read → ⊥ }
    {
        let first = self.history.len() as u64;
        let snapshot = self.writer.snapshot();
        let told = self.writer.tell();
        crew.judge(self.first, first, &told, snapshot, self.group.as_slice())
    }

    /// Records what is decided on requests, in order.
    fn record_all(&mut self, group: Vec<Request>, verdicts: Vec<Verdict>) -> Result<(), ReplayError>
        requires right { verdicts.items ≡ verdicts_at self.old.writer.published group.items }
        requires room { length self.old.history + length group.items ≤ most_entries }
        ensures decided { OnOk result
            (Decided self.old self.new (group_entries self.old.writer.published (length self.old.history) group.items)) }
        ensures group { self.new.group ≡ self.old.group }
        ensures memory { IfErr result (λ error. error ≡ ReplayError.OutOfMemory) }
    {
        let mut answers = verdicts.into_iter();
        for request in group {
            let verdict = next_of(&mut answers);
            let _number = self.record(request, verdict)?;
        }
        Ok(())
    }

    /// Records what is decided on requests, in order. The text is that of the answers, read from the history.
    fn decide_all(
        &mut self,
        group: Vec<Request>,
        verdicts: Vec<Verdict>,
    ) -> Result<Vec<u8>, ReplayError>
        requires right { verdicts.items ≡ verdicts_at self.old.writer.published group.items }
        requires room { length self.old.history + length group.items ≤ most_entries }
        requires none { self.old.group.items ≡ [] }
        ensures decided { OnOk result
            (Decided self.old self.new (group_entries self.old.writer.published (length self.old.history) group.items)) }
        ensures none { OnOk result (self.new.group.items ≡ []) }
        ensures text { IfOk result (λ text. text.items
            ≡ answers_text (group_entries self.old.writer.published (length self.old.history) group.items)) }
        ensures memory { IfErr result (λ error. error ≡ ReplayError.OutOfMemory) }
    {
        let mut text = Vec::new(self.alloc);
        let mut answers = verdicts.into_iter();
        for request in group {
            let verdict = next_of(&mut answers);
            text = self.decide(request, verdict, text)?;
        }
        Ok(text)
    }

    /// Records what is decided on one request. The answer is the text with the line of its answer behind it.
    fn decide(
        &mut self,
        request: Request,
        verdict: Verdict,
        text: Vec<u8>,
    ) -> Result<Vec<u8>, ReplayError>
        requires right { verdict ≡ verdict_at self.old.writer.published request }
        requires room { length self.old.history < most_entries }
        ensures decided { OnOk result
            (Decided self.old self.new (entry_of self.old.writer.published (length self.old.history) request ∷ [])) }
        ensures group { self.new.group ≡ self.old.group }
        ensures text { IfOk result (λ all. all.items ≡ text.items
            ++ answers_text (entry_of self.old.writer.published (length self.old.history) request ∷ [])) }
        ensures memory { IfErr result (λ error. error ≡ ReplayError.OutOfMemory) }
    {
        let number = self.record(request, verdict)?;
        let all = self.with_answer_line(number, text)?;
        Ok(all)
    }

    /// The text with the line that answers an entry's request behind it.
    fn with_answer_line(&self, number: usize, text: Vec<u8>) -> Result<Vec<u8>, ReplayError>
        requires { number < length self.now.history }
        ensures line { IfOk result (λ all. (e : EntryOf) → slice_get self.now.history number ≡ Some e
            → all.items ≡ text.items ++ answer_line e) }
        ensures memory { IfErr result (λ error. error ≡ ReplayError.OutOfMemory) }
    {
        let entry = self.history.at(number);
        let uid = entry.request.admission().uid.as_str();
        let line = answer_line(self.alloc, uid, &entry.verdict)?;
        let mut all = text;
        all.extend_from_slice(line.as_slice())?;
        Ok(all)
    }

    /// Records what is decided on one request at the published log, under the next number.
    fn record(&mut self, request: Request, verdict: Verdict) -> Result<usize, ReplayError>
        requires right { verdict ≡ verdict_at self.old.writer.published request }
        requires room { length self.old.history < most_entries }
        ensures decided { OnOk result
            (Decided self.old self.new (entry_of self.old.writer.published (length self.old.history) request ∷ [])) }
        ensures number { IfOk result (λ number. number ≡ length self.old.history) }
        ensures group { self.new.group ≡ self.old.group }
        ensures memory { IfErr result (λ error. error ≡ ReplayError.OutOfMemory) }
    {
        let entry = Entry {
            call: self.history.len() as u64,
            log: self.writer.snapshot().share_log()?,
            request,
            verdict,
            worker: 0,
        };
        match self.history.append(entry) {
            Ok(number) => Ok(number),
            Err((AuditFault::AuditFull, _)) => unreachable!(),
            Err((AuditFault::OutOfMemory, _)) => Err(ReplayError::OutOfMemory),
        }
    }

    /// Writes the audit if it is wanted, and flushes.
    #[tactic(auto, using(crate::proofs::Told::appends_kept))]
    pub(crate) fn finish<W: Write>(
        &self,
        audit: bool,
        out: &mut Counted<W>,
    ) -> Result<(), ReplayError>
        ensures written { OnOk result
            (Appends (W.contents (inner_of out.old)) (W.contents (inner_of out.new)) (audit_where audit self.now.history)) }
        ensures stopped { IfErr result (λ error. error ≢ ReplayError.Write → (audit ≡ true) × ((n : ℕ)
            × Appends (W.contents (inner_of out.old)) (W.contents (inner_of out.new)) (audit_lines (take n self.now.history)))) }
        ensures no_line { (number : ℕ) → (why : FaultOf) → IsErrOf result (ReplayError.Line number why) → ⊥ }
        ensures counts { CountsWrites result out.old out.new }
        ensures no_read { IsErrOf result ReplayError.Read → ⊥ }
    {
        if audit {
            self.write_audit(out)?;
        }
        flush(out)
    }

    /// Writes a line for each entry of the history, by call: so many at a time that a write is worth it.
    fn write_audit<W: Write>(&self, out: &mut Counted<W>) -> Result<(), ReplayError>
        ensures written { OnOk result
            (Appends (W.contents (inner_of out.old)) (W.contents (inner_of out.new)) (audit_lines self.now.history)) }
        ensures stopped { IfErr result (λ error. error ≢ ReplayError.Write → (n : ℕ)
            × Appends (W.contents (inner_of out.old)) (W.contents (inner_of out.new)) (audit_lines (take n self.now.history))) }
        ensures no_line { (number : ℕ) → (why : FaultOf) → IsErrOf result (ReplayError.Line number why) → ⊥ }
        ensures counts { CountsWrites result out.old out.new }
        ensures no_read { IsErrOf result ReplayError.Read → ⊥ }
    {
        let mut text = Vec::new(self.alloc);
        for number in 0..self.history.len() {
            text = self.with_audit_line(number, text)?;
            if text.len() >= FULL_TEXT {
                write_text(text.as_slice(), out)?;
                text.clear();
            }
        }
        write_text(text.as_slice(), out)
    }

    /// The text with the line that the audit has for an entry behind it.
    fn with_audit_line(&self, number: usize, text: Vec<u8>) -> Result<Vec<u8>, ReplayError>
        requires { number < length self.now.history }
        ensures line { IfOk result (λ all. (e : EntryOf) → slice_get self.now.history number ≡ Some e
            → all.items ≡ text.items ++ audit_line e) }
        ensures memory { IfErr result (λ error. error ≡ ReplayError.OutOfMemory) }
    {
        let entry = self.history.at(number);
        let line = with_audit_text(entry, Vec::with_capacity(self.alloc, LINE_ROOM)?)?;
        let mut lines = text;
        lines.extend_from_slice(line.as_slice())?;
        lines.push(b'\n')?;
        Ok(lines)
    }
}

/// Keeps the answer to one review more behind those to this many others, if there is one, and as many others have theirs. Else it
/// keeps none.
fn keep(
    verdicts: &mut Vec<Verdict>,
    answers: &mut Vec<u8>,
    others: usize,
    answer: Option<ReviewAnswer>,
) -> Result<(), AllocError>
    ensures { OnOk result ((verdicts.new.items ≡ [])
        ⊎ IsKept others answer verdicts.old.items answers.old.items verdicts.new.items answers.new.items) }
{
    match answer {
        Some(answer) if verdicts.len() == others => {
            answers.extend_from_slice(answer.line.as_slice())?;
            Ok(verdicts.push(answer.verdict)?)
        }
        _ => {
            verdicts.clear();
            answers.clear();
            Ok(())
        }
    }
}

/// Writes a text whole.
fn write_text<W: Write>(text: &[u8], out: &mut Counted<W>) -> Result<(), ReplayError>
    ensures written { OnOk result (Appends (W.contents (inner_of out.old)) (W.contents (inner_of out.new)) text.now) }
    ensures write { IfErr result (λ error. error ≡ ReplayError.Write) }
    ensures counts { CountsWrites result out.old out.new }
{
    match out.write_all(text) {
        Ok(()) => Ok(()),
        Err(_) => Err(ReplayError::Write),
    }
}

fn flush<W: Write>(out: &mut Counted<W>) -> Result<(), ReplayError>
    ensures kept { Keeps (W.contents (inner_of out.old)) (W.contents (inner_of out.new)) }
    ensures write { IfErr result (λ error. error ≡ ReplayError.Write) }
    ensures counts { CountsWrites result out.old out.new }
{
    match out.flush() {
        Ok(()) => Ok(()),
        Err(_) => Err(ReplayError::Write),
    }
}

/// The next verdict; there is one.
fn next_of(verdicts: &mut IntoIter<Verdict>) -> Verdict
    requires { into_iter_items verdicts.old ≢ [] }
    ensures { into_iter_items verdicts.old ≡ result ∷ into_iter_items verdicts.new }
{
    let Some(verdict) = verdicts.next() else {
        unreachable!()
    };
    verdict
}
