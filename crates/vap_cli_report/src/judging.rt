//! Judging the reviews of a history once more.

use std::alloc::{AllocError, Global};
use vap_audit::{Entry, judge};
use vap_policy::{JudgeError, Workspace};
use vap_policy_verdict::Verdict;
use vap_read::Event;
use vap_watch::{Desk, PublishError, StageFault};

/// A desk that has taken the first events of a log.
#[derive(Drop)]
pub struct Bench {
    pub desk: Desk,
    pub workspace: Workspace,
    pub alloc: Global,
}

impl Bench {
    pub fn new(alloc: Global) -> Result<Bench, AllocError> {
        Ok(Bench {
            desk: Desk::new(alloc)?,
            workspace: Workspace::new(alloc),
            alloc,
        })
    }

    /// Takes an event. One that is too many was too many for the log, and is left out.
    pub fn take(&mut self, event: Event) -> Result<(), AllocError> {
        match self.desk.stage(event) {
            Err((StageFault::OutOfMemory, _)) => Err(AllocError),
            _ => Ok(()),
        }
    }

    /// Publishes what was taken. If a set cannot be built, the one before stays.
    pub fn publish(&mut self) -> Result<(), AllocError> {
        match self.desk.publish() {
            Err(PublishError::OutOfMemory) => Err(AllocError),
            _ => Ok(()),
        }
    }

    /// The verdict on an entry's request, if there is one.
    pub fn judge(&mut self, entry: &Entry) -> Result<Option<Verdict>, AllocError> {
        let judged = judge(
            self.alloc,
            self.desk.snapshot(),
            &entry.request,
            &mut self.workspace,
        );
        match judged {
            Ok(verdict) => Ok(Some(verdict)),
            Err(JudgeError::Fault(_)) => Ok(None),
            Err(JudgeError::OutOfMemory) => Err(AllocError),
        }
    }
}
