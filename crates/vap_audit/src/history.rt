//! Histories.

ghost use Rattle.std.specs.Prelude.{◌≡◌, ◌↔◌, ◌++◌, ◌∷◌, ◌<◌, [], length, slice_get, None, Some, IfErr, IfOk, MatchOption, MatchResult};
ghost use Rattle.std.specs.List.{All};
ghost use Rattle.vap_audit.specs.Entries.{BeginWith, IsKept, IsRight, IsStray, most_entries, numbers_from};

use crate::entry::Entry;
use std::alloc::{AllocError, Global};
use std::marker::Model;
use thiserror::Error;
use vap_watch::Snapshot;

/// The most entries of a history.
pub const MOST_ENTRIES: usize = 65_536;

/// Why an entry is not appended.
#[derive(Clone, Copy, Debug, PartialEq, Eq, Error)]
pub enum AuditFault {
    #[error("the history has as many entries as it may have")]
    AuditFull,
    #[error("out of memory")]
    OutOfMemory,
}

/// An entry whose log is not a beginning of a log, and the first place where they differ.
#[derive(Clone, Copy, Debug, PartialEq, Eq)]
pub struct Stray {
    pub entry: usize,
    pub at: usize,
}

/// What was decided, oldest first, which contracts see as the list of its entries.
pub struct History {
    entries: Vec<Entry>,
}

impl Drop for History {
    fn drop(self) {
        let History { entries: _entries } = self;
    }
}

impl Model for History {
    ghost use Rattle.std.specs.Prelude.{List, ◌≤◌, length};
    ghost use Rattle.std.specs.List.{All};
    ghost use Rattle.std.specs.Coded.{codes};
    ghost use Rattle.vap_audit.specs.Entries.{IsKept};
    ghost use Rattle.vap_audit.specs.contracts.entry.Entry as entry;
    ghost use Rattle.vap_audit.specs.declared.entry.Entry.{Entry as EntryOf};

    ghost Value = { List EntryOf };

    ghost coded = { Prim.hlevel (codes, entry.the_row.coded) };

    ghost view = { λ h. h.entries.items };

    ghost invariant = { λ h. All IsKept h.entries.items × (length h.entries.items ≤ 65536) };
}

impl History {
    pub fn new(alloc: Global) -> History
        ensures { result ≡ [] }
    {
        History {
            entries: Vec::new(alloc),
        }
    }

    pub fn len(&self) -> usize
        ensures length { result ≡ length self.now }
        ensures kept { All IsKept self.now }
    {
        self.entries.len()
    }

    /// Puts an entry last, and answers its number. If it is refused, it comes back and nothing has changed; a full history is
    /// never reported as out of memory.
    #[tactic(auto, using(crate::proofs::Kept::kept_of))]
    pub fn append(&mut self, entry: Entry) -> Result<usize, (AuditFault, Entry)>
        requires { IsRight entry }
        ensures exact { MatchResult result
            (λ n. (self.new ≡ self.old ++ entry ∷ []) × (n ≡ length self.old) × (n < most_entries))
            (λ refused. (self.new ≡ self.old) × (refused.1 ≡ entry)) }
        ensures full { IfErr result (λ refused. refused.0 ≡ AuditFault.AuditFull ↔ (length self.old ≡ most_entries)) }
    {
        let number = self.entries.len();
        // The log's length is read for what it says of the log: that it is as it was published.
        let _events = entry.log.get().len();
        if number >= MOST_ENTRIES {
            return Err((AuditFault::AuditFull, entry));
        }
        if self.entries.reserve(1).is_err() {
            return Err((AuditFault::OutOfMemory, entry));
        }
        self.entries.push_reserved(entry);
        Ok(number)
    }

    /// The entry of a number, if there is one.
    pub fn entry(&self, number: usize) -> Option<&Entry>
        ensures { MatchOption result (slice_get self.now number ≡ None)
            (λ e. (slice_get self.now number ≡ Some e.now) × IsKept e.now) }
    {
        self.entries.get(number)
    }

    /// The entry of a number that there is.
    pub fn at(&self, number: usize) -> &Entry
        requires { number < length self.now }
        ensures { slice_get self.now number ≡ Some result.now }
    {
        &self.entries[number]
    }

    /// The numbers of a worker's entries.
    #[tactic(auto, using(crate::proofs::Numbers::next_mine, crate::proofs::Numbers::next_other))]
    pub fn entries_of(&self, alloc: Global, worker: u64) -> Result<Vec<usize>, AllocError>
        ensures { IfOk result (λ numbers. numbers.items ≡ numbers_from 0 worker self.now) }
    {
        let mut numbers = Vec::new(alloc);
        for number in 0..self.len() {
            if self.at(number).worker == worker {
                numbers.push(number)?;
            }
        }
        Ok(numbers)
    }

    /// Whether each entry's log is a beginning of the snapshot's, or the first entry whose log is not, with the first place
    /// where an event or a choice differs.
    pub fn check(&self, snapshot: &Snapshot) -> Result<(), Stray>
        ensures { MatchResult result (λ _. BeginWith (length self.now) self.now snapshot.now)
            (λ stray. IsStray self.now snapshot.now stray.entry stray.at) }
    {
        let log = snapshot.log();
        for number in 0..self.len() {
            let entry = self.at(number);
            if let Some(at) = log.first_difference(entry.log.get()) {
                return Err(Stray { entry: number, at });
            }
        }
        Ok(())
    }
}
