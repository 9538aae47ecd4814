//! What threads keep that read lines before their turn.

use crate::judging::Workspace;
use std::alloc::Global;
use std::sync::{Mutex, Wait};

/// Workspaces that no thread has just now. Each thread takes one and gives it back, so that a pattern is built once for a thread and
/// not for each text that is read.
#[derive(Drop)]
pub(crate) struct Workspaces {
    alloc: Global,
    free: Mutex<Vec<Workspace>>,
}

impl Workspaces {
    pub(crate) fn new(alloc: Global) -> Workspaces {
        Workspaces {
            alloc,
            free: Mutex::new(Vec::new(alloc)),
        }
    }

    /// One that is free, or a new one.
    pub(crate) fn take<H: Wait>(&self, rt: &H) -> Workspace {
        let found = self.free.lock(rt).pop();
        match found {
            Some(workspace) => workspace,
            None => Workspace::new(self.alloc),
        }
    }

    /// Keeps one for the next who takes one. If memory runs out, it is let go.
    pub(crate) fn give_back<H: Wait>(&self, rt: &H, workspace: Workspace) {
        let _kept = self.free.lock(rt).push(workspace);
    }
}
