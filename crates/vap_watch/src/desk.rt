//! Staging and publishing without readers.

ghost use Rattle.std.specs.Prelude.{◌≡◌, ◌≢◌, ◌<◌, ◌↔◌, ◌++◌, ◌∷◌, [], false, length, IfErr, IfOk, IsErrOf, MatchBool, OnErr, OnOk};
ghost use Rattle.base_containers.specs.declared.failed.Failed.TheVariants.{Fault};
ghost use Rattle.vap_watch.specs.Given.{AreUnverified, takes};
ghost use Rattle.vap_watch.specs.Places.{HasRoomFor, IsNext, Publishes, at, events_at, most_events, objects_at};
ghost use Rattle.vap_watch.specs.declared.fault.PublishFault.TheVariants.{Unverified};

use crate::fault::{PublishError, StageFault};
use crate::snapshot::{Snapshot, revision_of};
use std::alloc::{AllocError, Global};
use std::marker::Model;
use vap_read::Event;
use vap_read_objects::Objects;

/// The most events of a log.
pub const MOST_EVENTS: usize = 65_536;

/// Stages events and publishes them, and waits for nobody. Contracts see it as the published log with what is staged after it.
#[derive(Drop)]
pub struct Desk {
    published: Snapshot,
    staged: Vec<Event>,
    objects: Objects,
    alloc: Global,
}

impl Model for Desk {
    ghost use Rattle.std.specs.Prelude.{◌≡◌, ◌≤◌, ◌+◌, length};
    ghost use Rattle.std.specs.Coded.{codes};
    ghost use Rattle.vap_read.specs.contracts.event.Event as event;
    ghost use Rattle.vap_watch.specs.Logs.{objects_after, objects_of};
    ghost use Rattle.vap_watch.specs.Places.{Position};

    ghost Value = { Position };

    ghost coded = { Prim.hlevel (codes, event.the_row.coded) };

    ghost view = { λ d. record { published = d.published; staged = d.staged.items } };

    ghost invariant = { λ d. (d.objects ≡ objects_after (objects_of d.published) d.staged.items)
        × (length d.published + length d.staged.items ≤ 65536) };
}

impl Desk {
    /// A desk that published the log of no event, and stages nothing.
    pub fn new(alloc: Global) -> Result<Desk, AllocError>
        ensures { IfOk result (λ desk. desk ≡ at [] []) }
    {
        Ok(Desk {
            published: Snapshot::opening(alloc)?,
            staged: Vec::new(alloc),
            objects: Objects::new(alloc),
            alloc,
        })
    }

    /// Stages an event after all that is staged. If it is refused, it comes back and nothing has changed; the fault is the
    /// first that applies of a full log and too many objects, and out of memory only if neither does.
    pub fn stage(&mut self, event: Event) -> Result<(), (StageFault, Event)>
        ensures room { OnOk result (HasRoomFor self.old event) }
        ensures last { OnOk result (self.new ≡ at self.old.published (self.old.staged ++ event ∷ [])) }
        ensures back { IfErr result (λ refused. (refused.1 ≡ event) × (self.new ≡ self.old)) }
        ensures full { IfErr result (λ refused. refused.0 ≡ StageFault.LogFull ↔ (events_at self.old ≡ most_events)) }
        ensures many { IfErr result (λ refused. refused.0 ≡ StageFault.TooManyObjects
            ↔ ((events_at self.old < most_events) × (takes (objects_at self.old) event ≡ false))) }
    {
        if self.events() >= MOST_EVENTS {
            return Err((StageFault::LogFull, event));
        }
        if !self.takes(&event) {
            return Err((StageFault::TooManyObjects, event));
        }
        let Ok(()) = self.staged.reserve(1) else {
            return Err((StageFault::OutOfMemory, event));
        };
        let Ok(()) = self.objects.apply(self.alloc, &event) else {
            return Err((StageFault::OutOfMemory, event));
        };
        self.staged.push_reserved(event);
        Ok(())
    }

    /// How many events were published or are staged.
    pub fn events(&self) -> usize
        ensures { result ≡ events_at self.now }
    {
        revision_of(&self.published) + self.staged.len()
    }

    /// Whether the limits on objects hold after all that is staged and one event more.
    fn takes(&self, event: &Event) -> bool
        ensures { result ≡ takes (objects_at self.now) event.now }
    {
        self.objects.takes(event)
    }

    /// Publishes all that is staged, once and in order, and answers the revision. If it is refused, all stays as it was.
    pub fn publish(&mut self) -> Result<usize, PublishError>
        ensures all { OnOk result (Publishes self.old self.new) }
        ensures revision { IfOk result (λ revision. revision ≡ length self.new.published) }
        ensures err { OnErr result (self.new ≡ self.old) }
        ensures unverified { IsErrOf result (Fault Unverified) → AreUnverified (objects_at self.old) }
    {
        if self.is_clear() {
            return Ok(revision_of(&self.published));
        }
        let next = self.next()?;
        Ok(self.accept(next))
    }

    /// Whether nothing is staged: what is published is then all of it.
    #[tactic(auto, using(crate::proofs::Publication::none_published))]
    pub(crate) fn is_clear(&self) -> bool
        ensures { MatchBool result (Publishes self.now self.now) (self.now.staged ≢ []) }
    {
        self.staged.is_empty()
    }

    /// The snapshot of all that was published and is staged.
    #[tactic(auto, using(crate::proofs::Publication::set_behind))]
    pub(crate) fn next(&self) -> Result<Snapshot, PublishError>
        requires { self.now.staged ≢ [] }
        ensures next { IfOk result (λ snapshot. IsNext self.now snapshot) }
        ensures unverified { IsErrOf result (Fault Unverified) → AreUnverified (objects_at self.now) }
    {
        let before = self.published.set();
        let set = match before.advance(self.alloc, &self.objects, self.staged.as_slice()) {
            Ok(set) => set,
            Err(error) => return Err(error.widened()),
        };
        let log = self
            .published
            .log()
            .followed_by(self.alloc, self.staged.as_slice(), set.choice())?;
        Ok(Snapshot::new(self.alloc, log, set)?)
    }

    /// Takes the next snapshot as the published one, and answers its revision.
    #[tactic(auto, using(crate::proofs::Publication::next_published, crate::proofs::Publication::objects_behind, crate::proofs::Publication::length_behind))]
    pub(crate) fn accept(&mut self, next: Snapshot) -> usize
        requires { IsNext self.old next }
        ensures is { self.new ≡ at next [] }
        ensures all { Publishes self.old self.new }
        ensures revision { result ≡ length self.new.published }
    {
        self.published = next;
        self.staged.clear();
        revision_of(&self.published)
    }

    /// The published snapshot.
    pub fn snapshot(&self) -> &Snapshot
        ensures { result.now ≡ self.now.published }
    {
        &self.published
    }
}
