//! Events.

ghost use Rattle.std.specs.Prelude.{◌≡◌, IfOk};

use crate::key::Key;
use crate::object::Object;
use crate::object_map::ObjectMap;
use base_containers::Shared;
use std::alloc::AllocError;

/// How the objects change.
#[derive(Drop)]
pub enum Event {
    /// An object is put under its key.
    Put(Shared<Object>),
    /// Nothing is under this key any more.
    Removed(Shared<Key>),
    /// Nothing changes.
    Passed,
    /// These objects replace all.
    Replaced(Shared<ObjectMap>),
}

impl Event {
    /// An equal event: one more owner of the same.
    pub fn copy(&self) -> Result<Event, AllocError>
        ensures { IfOk result (λ event. event ≡ self.now) }
    {
        Ok(match self {
            Event::Put(object) => Event::Put(object.share()?),
            Event::Removed(key) => Event::Removed(key.share()?),
            Event::Passed => Event::Passed,
            Event::Replaced(objects) => Event::Replaced(objects.share()?),
        })
    }
}
