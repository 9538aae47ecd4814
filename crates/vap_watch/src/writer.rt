//! Staging and publishing to readers.

ghost use Rattle.std.specs.Prelude.{◌≡◌, ◌≤◌, ◌<◌, ◌↔◌, ◌++◌, ◌∷◌, [], false, length};
ghost use Rattle.std.specs.Prelude.{IfErr, IfOk, IsErrOf, IsSome, MatchResult, OnErr, OnOk};
ghost use Rattle.base_containers.specs.declared.failed.Failed.TheVariants.{Fault};
ghost use Rattle.vap_watch.specs.Shown.{shows};
ghost use Rattle.vap_watch.specs.Given.{AreUnverified, takes};
ghost use Rattle.vap_watch.specs.Logs.{StartsWith};
ghost use Rattle.vap_watch.specs.Places.{HasRoomFor, Publishes, at, events_at, most_events, objects_at, place_of, writes};
ghost use Rattle.vap_watch.specs.Seen.{shown_in};
ghost use Rattle.vap_watch.specs.declared.fault.PublishFault.TheVariants.{Unverified};

use crate::desk::Desk;
use crate::fault::{PublishError, StageFault};
use crate::publisher::Publisher;
use crate::reader::ReaderSource;
use crate::snapshot::{Snapshot, revision_of};
use crate::told::Told;
use std::alloc::{AllocError, Global};
use std::marker::Model;
use std::mem;
use std::sync::Wait;
use vap_read::Event;

/// Stages events and publishes them to readers. Contracts see it as the board that it publishes on, the published log and what is
/// staged after it. It is not `Drop`: give it up by [`Writer::end`].
pub struct Writer {
    desk: Desk,
    publisher: Option<Publisher>,
}

impl Model for Writer {
    ghost use Rattle.std.specs.Prelude.{◌≡◌, IsSome};
    ghost use Rattle.std.specs.Coded.{codes};
    ghost use Rattle.vap_read.specs.contracts.event.Event as event;
    ghost use Rattle.vap_watch.specs.Places.{Written, writes};
    ghost use Rattle.vap_watch.specs.Seen.{shown_in};

    ghost Value = { Written };

    ghost coded = { Prim.hlevel (codes, event.the_row.coded) };

    ghost view = { λ w. writes (shown_in w.publisher).board w.desk };

    ghost invariant = { λ w. IsSome w.publisher × ((shown_in w.publisher).list ≡ w.desk.published) };
}

/// A writer that published the log of no event, and stages nothing, and a source of readers: there are places for so many at a
/// time. Nobody reads yet, so this does not wait.
pub fn open<R: Wait>(
    rt: &R,
    alloc: Global,
    places: usize,
) -> Result<(Writer, ReaderSource), AllocError>
    requires { (1 ≤ places) × (places ≤ 16) }
    ensures { IfOk result (λ opened. opened.0 ≡ writes opened.1 (at [] [])) }
{
    let desk = Desk::new(alloc)?;
    let (publisher, source) = Publisher::open(rt, alloc, desk.snapshot().share()?, places)?;
    let writer = Writer {
        desk,
        publisher: Some(publisher),
    };
    Ok((writer, source))
}

impl Writer {
    /// Stages an event after all that is staged. If it is refused, it comes back and nothing has changed; the fault is the
    /// first that applies of a full log and too many objects, and out of memory only if neither does.
    pub fn stage(&mut self, event: Event) -> Result<(), (StageFault, Event)>
        ensures room { OnOk result (HasRoomFor (place_of self.old) event) }
        ensures last { OnOk result (self.new ≡ writes self.old.board (at self.old.published (self.old.staged ++ event ∷ []))) }
        ensures back { IfErr result (λ refused. (refused.1 ≡ event) × (self.new ≡ self.old)) }
        ensures full { IfErr result (λ refused. refused.0 ≡ StageFault.LogFull ↔ (events_at (place_of self.old) ≡ most_events)) }
        ensures many { IfErr result (λ refused. refused.0 ≡ StageFault.TooManyObjects
            ↔ ((events_at (place_of self.old) < most_events) × (takes (objects_at (place_of self.old)) event ≡ false))) }
    {
        self.desk.stage(event)
    }

    /// Publishes all that is staged, once and in order, and answers the revision. If it is refused, all stays as it was, for
    /// readers too. It waits for readers that are in the middle of their one step.
    #[tactic(auto, using(crate::proofs::Publication::next_begins))]
    pub fn publish<R: Wait>(&mut self, rt: &R) -> Result<usize, PublishError>
        ensures all { OnOk result (Publishes (place_of self.old) (place_of self.new)) }
        ensures board { OnOk result (self.new.board ≡ self.old.board) }
        ensures revision { IfOk result (λ revision. revision ≡ length self.new.published) }
        ensures err { OnErr result (self.new ≡ self.old) }
        ensures unverified { IsErrOf result (Fault Unverified) → AreUnverified (objects_at (place_of self.old)) }
    {
        if self.desk.is_clear() {
            return Ok(revision_of(self.desk.snapshot()));
        }
        let next = self.desk.next()?;
        show(rt, &mut self.publisher, next.share()?)?;
        Ok(self.desk.accept(next))
    }

    /// The published snapshot.
    pub fn snapshot(&self) -> &Snapshot
        ensures { result.now ≡ self.now.published }
    {
        self.desk.snapshot()
    }

    /// Names the published log, for readers to learn.
    pub fn tell(&self) -> Told
        ensures { result ≡ shows self.now.board self.now.published }
    {
        match &self.publisher {
            Some(publisher) => publisher.tell(),
            None => unreachable!(),
        }
    }

    /// Gives the writer up, with what is staged. It may wait, as a publication does.
    pub fn end<R: Wait>(self, rt: &R) {
        let Writer {
            desk: _desk,
            publisher,
        } = self;
        match publisher {
            Some(publisher) => publisher.end(rt),
            None => unreachable!(),
        }
    }
}

/// Shows the next snapshot to readers.
fn show<R: Wait>(
    rt: &R,
    publisher: &mut Option<Publisher>,
    next: Snapshot,
) -> Result<(), AllocError>
    requires there { IsSome publisher.old }
    requires begins { StartsWith next (shown_in publisher.old).list }
    ensures there { IsSome publisher.new }
    ensures shown { MatchResult result (λ _. shown_in publisher.new ≡ shows (shown_in publisher.old).board next)
        (λ _. publisher.new ≡ publisher.old) }
{
    let Some(before) = publisher.take() else {
        unreachable!()
    };
    let (after, shown) = before.publish(rt, next);
    if let Some(none) = mem::replace(publisher, Some(after)) {
        none.end(rt);
    }
    shown
}
