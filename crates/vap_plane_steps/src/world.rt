//! Worlds, and what steps make of them.

ghost use Rattle.std.specs.Prelude.{◌≡◌, ◌+◌, ◌<◌, ◌≤◌, ◌^◌, length, is_some, None, Some, IfOk, OnOk};
ghost use Rattle.vap_audit.specs.Entries.{IsRight, most_entries};
ghost use Rattle.vap_plane_steps.specs.Steps.{After, Plays, held_by, holding, opening, with_entry};
ghost use Rattle.vap_plane_steps.specs.declared.step.Step.TheVariants as step;

use crate::held::Held;
use crate::step::Step;
use std::alloc::{AllocError, Global};
use std::marker::Model;
use std::mem;
use vap_audit::{AuditFault, Entry, History, MOST_ENTRIES};
use vap_match::Request;
use vap_policy::Workspace;
use vap_read::Event;
use vap_watch::{Desk, PublishError, PublishFault, StageFault};

/// How many workers there are: one for each number that a step may have.
const WORKERS: usize = 256;

/// A log, published and staged, what each of the workers holds, how often one entered, and a history.
#[derive(Drop)]
pub struct World {
    alloc: Global,
    desk: Desk,
    held: Vec<Option<Held>>,
    workspace: Workspace,
    entered: u64,
    history: History,
}

impl Model for World {
    ghost use Rattle.std.specs.Prelude.{◌≡◌, length};
    ghost use Rattle.std.specs.Coded.{codes};
    ghost use Rattle.vap_read.specs.contracts.event.Event as event;
    ghost use Rattle.vap_match.specs.contracts.request.Request as asked;
    ghost use Rattle.vap_policy_verdict.specs.contracts.verdict.Verdict as answer;
    ghost use Rattle.vap_audit.specs.contracts.entry.Entry as entry;
    ghost use Rattle.vap_plane_steps.specs.Steps.{State};

    ghost Value = { State };

    ghost coded = { Prim.hlevel (codes, event.the_row.coded, asked.the_row.coded, answer.the_row.coded, entry.the_row.coded) };

    ghost view = { λ w. record { position = w.desk; workers = w.held.items; entered = w.entered; history = w.history } };

    ghost invariant = { λ w. length w.held.items ≡ 256 };
}

impl World {
    fn new(alloc: Global) -> Result<World, AllocError>
        ensures { IfOk result (λ world. world ≡ opening) }
    {
        Ok(World {
            alloc,
            desk: Desk::new(alloc)?,
            held: nothing_held(alloc)?,
            workspace: Workspace::new(alloc),
            entered: 0,
            history: History::new(alloc),
        })
    }

    /// What is published, with what is staged after it.
    pub fn desk(&self) -> &Desk
        ensures { result.now ≡ self.now.position }
    {
        &self.desk
    }

    pub fn history(&self) -> &History
        ensures { result.now ≡ self.now.history }
    {
        &self.history
    }

    /// How often a worker entered, which is the call of the next that does.
    pub fn entered(&self) -> u64
        ensures { result ≡ self.now.entered }
    {
        self.entered
    }

    /// Whether a worker holds a request.
    pub fn is_busy(&self, worker: u8) -> bool
        ensures { result ≡ is_some (held_by worker self.now) }
    {
        self.held[usize::from(worker)].is_some()
    }

    /// Takes a step. One that cannot be taken changes nothing.
    fn take(&mut self, step: &Step) -> Result<(), AllocError>
        requires { self.old.entered + 1 < 2 ^ 64 }
        ensures after { IfOk result (λ _. After step.now self.old self.new) }
        ensures entered { self.new.entered ≤ self.old.entered + 1 }
    {
        match step {
            Step::Stage(event) => self.stage(event.copy()?),
            Step::Publish => self.publish(),
            Step::Enter(worker, request) => self.enter(*worker, request.copy()?),
            Step::Judge(worker) => self.judge(*worker),
            Step::Record(worker) => self.record(*worker),
            Step::GiveUp(worker) => {
                self.held[usize::from(*worker)] = None;
                Ok(())
            }
        }
    }

    /// Stages an event, if there is room for it.
    fn stage(&mut self, event: Event) -> Result<(), AllocError>
        ensures after { IfOk result (λ _. After (step.Stage event) self.old self.new) }
        ensures entered { self.new.entered ≡ self.old.entered }
    {
        match self.desk.stage(event) {
            Ok(()) | Err((StageFault::LogFull | StageFault::TooManyObjects, _)) => Ok(()),
            Err((StageFault::OutOfMemory, _)) => Err(AllocError),
        }
    }

    /// Publishes what is staged. If the verifier refuses an image, all stays as it was.
    fn publish(&mut self) -> Result<(), AllocError>
        ensures after { After step.Publish self.old self.new }
        ensures entered { self.new.entered ≡ self.old.entered }
    {
        match self.desk.publish() {
            Ok(_) | Err(PublishError::Fault(PublishFault::Unverified)) => Ok(()),
            Err(PublishError::OutOfMemory) => Err(AllocError),
        }
    }

    /// A worker that holds nothing enters with a request at what is published.
    fn enter(&mut self, worker: u8, request: Request) -> Result<(), AllocError>
        requires { self.old.entered + 1 < 2 ^ 64 }
        ensures after { IfOk result (λ _. After (step.Enter worker request) self.old self.new) }
        ensures entered { self.new.entered ≤ self.old.entered + 1 }
    {
        let place = usize::from(worker);
        if self.held[place].is_none() {
            let snapshot = self.desk.snapshot().share()?;
            self.held[place] = Some(Held::new(request, self.entered, snapshot));
            self.entered += 1;
        }
        Ok(())
    }

    /// Judges what a worker holds, if it has no verdict yet.
    #[tactic(auto, using(crate::proofs::Taken::judged_some, crate::proofs::Taken::judged_none))]
    fn judge(&mut self, worker: u8) -> Result<(), AllocError>
        ensures after { IfOk result (λ _. After (step.Judge worker) self.old self.new) }
        ensures entered { self.new.entered ≡ self.old.entered }
    {
        let Some(held) = self.let_go(worker) else {
            return Ok(());
        };
        let held = held.judge(self.alloc, &mut self.workspace)?;
        self.hold(worker, held);
        Ok(())
    }

    /// Records the verdict that a worker holds, if there is one and the history has room.
    #[tactic(auto, using(crate::proofs::Taken::recorded_full, crate::proofs::Taken::recorded_none, crate::proofs::Taken::recorded_not, crate::proofs::Taken::recorded_some))]
    fn record(&mut self, worker: u8) -> Result<(), AllocError>
        ensures after { IfOk result (λ _. After (step.Record worker) self.old self.new) }
        ensures entered { self.new.entered ≡ self.old.entered }
    {
        if self.history.len() >= MOST_ENTRIES {
            return Ok(());
        }
        let Some(held) = self.let_go(worker) else {
            return Ok(());
        };
        if !held.is_decided() {
            self.hold(worker, held);
            return Ok(());
        }
        let entry = held.entry(u64::from(worker))?;
        self.append(entry)?;
        Ok(())
    }

    /// Puts an entry last.
    fn append(&mut self, entry: Entry) -> Result<(), AllocError>
        requires right { IsRight entry }
        requires room { length self.old.history < most_entries }
        ensures after { OnOk result (self.new ≡ with_entry entry self.old) }
        ensures entered { self.new.entered ≡ self.old.entered }
    {
        match self.history.append(entry) {
            Ok(_) => Ok(()),
            Err((AuditFault::AuditFull, _)) => unreachable!(),
            Err((AuditFault::OutOfMemory, _)) => Err(AllocError),
        }
    }

    /// What a worker holds. After this it holds nothing.
    fn let_go(&mut self, worker: u8) -> Option<Held>
        ensures held { result ≡ held_by worker self.old }
        ensures none { self.new ≡ holding worker None self.old }
    {
        mem::replace(&mut self.held[usize::from(worker)], None)
    }

    /// A worker holds this.
    fn hold(&mut self, worker: u8, held: Held)
        ensures { self.new ≡ holding worker (Some held) self.old }
    {
        self.held[usize::from(worker)] = Some(held);
    }
}

/// Workers that hold nothing.
fn nothing_held(alloc: Global) -> Result<Vec<Option<Held>>, AllocError>
    ensures { IfOk result (λ held. held.items ≡ opening.workers) }
{
    let mut held = Vec::new(alloc);
    for _worker in 0..WORKERS {
        held.reserve(1)?;
        held.push_reserved(None);
    }
    Ok(held)
}

/// The world that these steps make of the opening one, in which nothing is published, staged, held or recorded. It is refused
/// only if memory runs out.
#[tactic(auto, using(crate::proofs::Played::played))]
pub fn play(alloc: Global, steps: &[Step]) -> Result<World, AllocError>
    ensures { IfOk result (λ world. Plays steps.now world) }
{
    let mut world = World::new(alloc)?;
    for step in steps {
        world.take(step)?;
    }
    Ok(world)
}
