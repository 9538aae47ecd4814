//! The objects that lines leave.

use crate::input_fault::InputFault;
use crate::wrapping::{added, kind_of};
use base_containers::Ending;
use serde_json::Value as Json;
use std::alloc::{AllocError, Global};
use vap_cli::{DocumentError, document_of};
use vap_read::{Event, EventError, EventReader, LineKind};
use vap_read_objects::Objects;

/// The most events, as a log may have them.
const MOST_EVENTS: u64 = 65_536;

/// The objects that the lines so far leave.
#[derive(Drop)]
pub struct Stream {
    alloc: Global,
    events: EventReader,
    objects: Objects,
}

/// Whether a line is empty, or a carriage return alone.
pub fn is_blank(bytes: &[u8]) -> bool {
    bytes.is_empty() || bytes == b"\r".as_slice()
}

impl Stream {
    /// No line yet.
    pub fn new(alloc: Global) -> Result<Stream, AllocError> {
        Ok(Stream {
            alloc,
            events: EventReader::new(alloc)?,
            objects: Objects::new(alloc),
        })
    }

    /// The objects.
    pub fn into_objects(self) -> Objects {
        let Stream {
            alloc: _,
            events: _events,
            objects,
        } = self;
        objects
    }

    fn take_event(&mut self, event: &Event) -> Result<Option<InputFault>, AllocError> {
        if self.objects.events() >= MOST_EVENTS {
            return Ok(Some(InputFault::LogFull));
        }
        if !self.objects.takes(event) {
            return Ok(Some(InputFault::TooManyObjects));
        }
        self.objects.apply(self.alloc, event)?;
        Ok(None)
    }

    fn take_read(
        &mut self,
        event: Result<Event, EventError>,
    ) -> Result<Option<InputFault>, AllocError> {
        match event {
            Ok(event) => self.take_event(&event),
            Err(EventError::Fault(fault)) => Ok(Some(InputFault::OfEvent(fault))),
            Err(EventError::OutOfMemory) => Err(AllocError),
        }
    }

    /// Takes the document of a line, and answers its fault, if it has one. A review is passed over.
    pub fn take_json(&mut self, json: Json) -> Result<Option<InputFault>, AllocError> {
        match kind_of(&json) {
            LineKind::WatchEvent => {
                let event = self.events.read_watch_event(json);
                self.take_read(event)
            }
            LineKind::ObjectList => {
                let event = self.events.read_list(json);
                self.take_read(event)
            }
            LineKind::Review => Ok(None),
            LineKind::Unknown => Ok(Some(InputFault::UnknownLine)),
        }
    }

    /// Takes an object that is a document by itself, as if it were added.
    pub fn take_object(&mut self, object: Json) -> Result<Option<InputFault>, AllocError> {
        let line = added(self.alloc, object)?;
        self.take_json(line)
    }

    /// Takes the bytes of a line with this ending, and answers its fault, if it has one.
    pub fn take_line(
        &mut self,
        bytes: &[u8],
        ending: Ending,
    ) -> Result<Option<InputFault>, AllocError> {
        if ending == Ending::TooLong {
            return Ok(Some(InputFault::TooLong));
        }
        if is_blank(bytes) {
            return Ok(None);
        }
        match document_of(self.alloc, bytes) {
            Ok(json) => self.take_json(json),
            Err(DocumentError::Fault(fault)) => Ok(Some(InputFault::Document(fault))),
            Err(DocumentError::OutOfMemory) => Err(AllocError),
        }
    }
}
