//! Reading the events of a stream.

ghost use Rattle.std.specs.Prelude.{IfErr};
ghost use Rattle.serde_json.specs.View.{view};
ghost use Rattle.base_containers.specs.Failures.{Answers, IfFault};
ghost use Rattle.vap_read.specs.Reading.{read_line, read_event};
ghost use Rattle.vap_read.specs.Told.{IsOfLine, IsFaultOf};
ghost use Rattle.vap_read.specs.declared.line.LineKind.TheVariants.{WatchEvent, ObjectList};

use crate::event::Event;
use crate::event_fault::{EventError, EventFault};
use crate::line::{LineKind, line_kind};
use crate::watch_events::{listed, taken, watched};
use base_containers::Part;
use cel_value::CelType;
use serde_json::Value as Json;
use std::alloc::{AllocError, Global};
use std::marker::Model;
use vap_schema::metadata_type;

/// Reads the events of a stream, and keeps the type of metadata for all of them. Contracts see nothing of it.
#[derive(Drop)]
pub struct EventReader {
    alloc: Global,
    metadata: CelType,
}

impl Model for EventReader {
    ghost use Rattle.std.specs.Prelude.{◌≡◌};
    ghost use Rattle.vap_schema.specs.FixedTypes.{metadata_type};

    ghost Value = { Unit {0} };

    ghost view = { λ _. tt };

    ghost invariant = { λ r. r.metadata ≡ metadata_type };
}

impl EventReader {
    pub fn new(alloc: Global) -> Result<EventReader, AllocError> {
        Ok(EventReader {
            alloc,
            metadata: metadata_type(alloc)?,
        })
    }

    /// The event that a line is, or the fault that is reported for it: for a watch event the least, and for a List the least of
    /// the first item that has one.
    #[tactic(auto, using(crate::proofs::LeastEventFault::told_of))]
    pub fn read_json(&self, line: Json) -> Result<Event, EventError>
        ensures exact { Answers (read_event (view line)) result }
        ensures told { IfErr result (IfFault (IsFaultOf (view line))) }
    {
        let kind = line_kind(&Part::of_tree(&line));
        match kind {
            LineKind::WatchEvent => self.read_watch_event(line),
            LineKind::ObjectList => self.read_list(line),
            LineKind::Review | LineKind::Unknown => Err(EventError::Fault(EventFault::BadType)),
        }
    }

    /// The event that the line of a watch event is, or its least fault.
    #[tactic(auto, using(crate::proofs::LeastEventFault::told_of_kind))]
    pub fn read_watch_event(&self, line: Json) -> Result<Event, EventError>
        ensures exact { Answers (read_line WatchEvent (view line)) result }
        ensures told { IfErr result (IfFault (IsOfLine WatchEvent (view line))) }
    {
        watched(self.alloc, line, &self.metadata)
    }

    /// The event that the line of a List is, or the least fault of the first item that has one.
    #[tactic(auto, using(crate::proofs::LeastEventFault::told_of_kind))]
    pub fn read_list(&self, line: Json) -> Result<Event, EventError>
        ensures exact { Answers (read_line ObjectList (view line)) result }
        ensures told { IfErr result (IfFault (IsOfLine ObjectList (view line))) }
    {
        listed(self.alloc, taken(line, "items"), &self.metadata)
    }
}

impl Event {
    /// The event that one line is, or the fault that is reported for it, as [`EventReader::read_json`] reads it.
    pub fn from_json(alloc: Global, line: Json) -> Result<Event, EventError>
        ensures exact { Answers (read_event (view line)) result }
        ensures told { IfErr result (IfFault (IsFaultOf (view line))) }
    {
        let reader = EventReader::new(alloc)?;
        reader.read_json(line)
    }
}
