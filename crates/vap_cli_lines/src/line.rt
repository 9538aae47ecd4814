//! What a line of a stream is.

ghost use Rattle.std.specs.Prelude.{◌≡◌, ◌≤◌, length, IfOk, IfSome, Result, Some, false};
ghost use Rattle.serde_json.specs.Data.{Data};
ghost use Rattle.serde_json.specs.Read.{read};
ghost use Rattle.serde_json.specs.View.{view};
ghost use Rattle.base_containers.specs.Failures.{Answers};
ghost use Rattle.base_containers.specs.Lines.{longest_line};
ghost use Rattle.vap_read.specs.Reading.{read_line as event_of};
ghost use Rattle.vap_read.specs.declared.event.Event.{Event as EventOf};
ghost use Rattle.vap_read.specs.declared.event_fault.EventFault.{EventFault as EventFaultOf};
ghost use Rattle.vap_read.specs.declared.line.LineKind.TheVariants.{WatchEvent, ObjectList};
ghost use Rattle.vap_match.specs.RequestReading.{read_review as review_of};
ghost use Rattle.vap_cli_lines.specs.Judged.{IsJudgedAt, IsOfReview};
ghost use Rattle.vap_cli_lines.specs.Lines.{Reads, event_line, is_blank, line_of, review_line};

use crate::fault::LineFault;
use crate::judging::{Judge, ReadLine, judged};
use base_containers::{Part, opened};
use json::Scratch;
use serde_json::Value as Json;
use std::alloc::{AllocError, Global};
use vap_match::{Request, ReviewError};
use vap_read::{Event, EventError, EventReader, LineKind, line_kind};

/// What a line of a stream is.
#[derive(Drop)]
pub enum Line {
    /// It is empty, or a carriage return alone.
    Skipped,
    Happens(Event),
    Asks(Request),
    Refused(LineFault),
}

/// Whether a line is empty, or a carriage return alone.
fn is_blank(bytes: &[u8]) -> bool
    ensures { result ≡ is_blank bytes.now }
{
    bytes.is_empty() || bytes == b"\r".as_slice()
}

/// What the bytes of a line are, and the answer to it if it is a review and is to be judged; there are no more bytes than a line may
/// have.
pub(crate) fn read_line(
    alloc: Global,
    events: &EventReader,
    bytes: &[u8],
    scratch: &mut Scratch,
    judge: Option<Judge<'_>>,
) -> Result<ReadLine, AllocError>
    requires { length bytes.now ≤ longest_line }
    ensures line { IfOk result (λ read. Reads bytes.now read.line) }
    ensures judged { IfSome judge.entry (λ j. IfOk result (λ read. IsJudgedAt j.snapshot.now read.line read.answer)) }
{
    if is_blank(bytes) {
        Ok(ReadLine::new(Line::Skipped))
    } else {
        read_bytes(alloc, events, bytes, scratch, judge)
    }
}

fn read_bytes(
    alloc: Global,
    events: &EventReader,
    bytes: &[u8],
    scratch: &mut Scratch,
    judge: Option<Judge<'_>>,
) -> Result<ReadLine, AllocError>
    requires short { length bytes.now ≤ longest_line }
    requires some { is_blank bytes.now ≡ false }
    ensures line { IfOk result (λ read. Reads bytes.now read.line) }
    ensures judged { IfSome judge.entry (λ j. IfOk result (λ read. IsJudgedAt j.snapshot.now read.line read.answer)) }
{
    match std::str::from_utf8(bytes) {
        Ok(text) => read_text(alloc, events, text, scratch, judge),
        Err(_) => Ok(ReadLine::new(Line::Refused(LineFault::BadJson))),
    }
}

fn read_text(
    alloc: Global,
    events: &EventReader,
    text: &str,
    scratch: &mut Scratch,
    judge: Option<Judge<'_>>,
) -> Result<ReadLine, AllocError>
    requires short { length text.now ≤ longest_line }
    requires some { is_blank text.now ≡ false }
    ensures line { IfOk result (λ read. Reads text.now read.line) }
    ensures judged { IfSome judge.entry (λ j. IfOk result (λ read. IsJudgedAt j.snapshot.now read.line read.answer)) }
{
    match opened(alloc, text, scratch)? {
        Some(tape) => {
            let document = Part::new(tape.root());
            let line = read_opened(alloc, events, text, &document)?;
            let answer = judged(alloc, &line, document, judge);
            Ok(ReadLine { line, answer })
        }
        None => Ok(ReadLine::new(Line::Refused(LineFault::BadJson))),
    }
}

/// What a text is whose document is open.
fn read_opened(
    alloc: Global,
    events: &EventReader,
    text: &str,
    document: &Part<'_, '_>,
) -> Result<Line, AllocError>
    requires short { length text.now ≤ longest_line }
    requires some { is_blank text.now ≡ false }
    requires spelled { read text.now ≡ Some document.now }
    ensures reads { IfOk result (Reads text.now) }
    ensures review { IfOk result (λ line. IsOfReview line document.now) }
{
    read_document(alloc, events, text, document)
}

/// The line that a document is. The text of an event is read again, to a tree that is kept.
fn read_document(
    alloc: Global,
    events: &EventReader,
    text: &str,
    document: &Part<'_, '_>,
) -> Result<Line, AllocError>
    requires { read text.now ≡ Some document.now }
    ensures { IfOk result (λ line. line ≡ line_of document.now) }
{
    match line_kind(document) {
        LineKind::WatchEvent => event_line(watch_event(alloc, events, text)),
        LineKind::ObjectList => event_line(list_event(alloc, events, text)),
        LineKind::Review => read_review(alloc, text, document),
        LineKind::Unknown => Ok(Line::Refused(LineFault::UnknownLine)),
    }
}

/// The event that the text of a watch event is.
fn watch_event(alloc: Global, events: &EventReader, text: &str) -> Result<Event, EventError>
    ensures { (d : Data) → read text.now ≡ Some d → Answers (event_of WatchEvent d) result }
{
    let json = tree(alloc, text)?;
    events.read_watch_event(json)
}

/// The event that the text of a List is.
fn list_event(alloc: Global, events: &EventReader, text: &str) -> Result<Event, EventError>
    ensures { (d : Data) → read text.now ≡ Some d → Answers (event_of ObjectList d) result }
{
    let json = tree(alloc, text)?;
    events.read_list(json)
}

/// The tree of a text.
fn tree(alloc: Global, text: &str) -> Result<Json, AllocError>
    ensures { IfOk result (λ json. read text.now ≡ Some (view json)) }
{
    match Json::from_slice(alloc, text.as_bytes()) {
        Ok(json) => Ok(json),
        Err(_) => Err(AllocError),
    }
}

/// The line of an event, or of its fault.
fn event_line(event: Result<Event, EventError>) -> Result<Line, AllocError>
    ensures { (want : Result EventOf EventFaultOf) → Answers want event → IfOk result (λ line. line ≡ event_line want) }
{
    match event {
        Ok(event) => Ok(Line::Happens(event)),
        Err(EventError::Fault(fault)) => Ok(Line::Refused(LineFault::OfEvent(fault))),
        Err(EventError::OutOfMemory) => Err(AllocError),
    }
}

fn read_review(alloc: Global, text: &str, review: &Part<'_, '_>) -> Result<Line, AllocError>
    requires { read text.now ≡ Some review.now }
    ensures { IfOk result (λ line. line ≡ review_line (review_of review.now)) }
{
    match Request::from_text(alloc, text, review) {
        Ok(request) => Ok(Line::Asks(request)),
        Err(ReviewError::Fault(fault)) => Ok(Line::Refused(LineFault::OfReview(fault))),
        Err(ReviewError::OutOfMemory) => Err(AllocError),
    }
}
