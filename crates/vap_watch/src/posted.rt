//! What `left_right` shows.

ghost use Rattle.std.specs.Prelude.{◌≡◌, IfOk, MatchOption};

use crate::log::Logged;
use crate::note::Note;
use crate::snapshot::Snapshot;
use std::alloc::AllocError;
use std::marker::Model;

/// A snapshot whose log is on a board. Contracts see it as the board and the log.
#[derive(Drop)]
pub(crate) struct Posted {
    snapshot: Snapshot,
    note: Note<Logged>,
}

impl Model for Posted {
    ghost use Rattle.std.specs.Prelude.{◌≡◌};
    ghost use Rattle.std.specs.Coded.{codes};
    ghost use Rattle.vap_watch.specs.Shown.{Shown};
    ghost use Rattle.vap_read.specs.contracts.event.Event as event;
    ghost use Rattle.vap_watch.specs.declared.log.Logged.{Logged};

    ghost Value = { Shown Logged };

    ghost coded = { Prim.hlevel (codes, event.the_row.coded) };

    ghost view = { λ p. p.note };

    ghost invariant = { λ p. p.snapshot ≡ p.note.list };
}

impl Posted {
    pub(crate) fn new(snapshot: Snapshot, note: Note<Logged>) -> Posted
        requires { snapshot ≡ note.list }
        ensures { result ≡ note }
    {
        Posted { snapshot, note }
    }

    /// A share of the same.
    pub(crate) fn share(&self) -> Result<Posted, AllocError>
        ensures { IfOk result (λ p. p ≡ self.now) }
    {
        Ok(Posted {
            snapshot: self.snapshot.share()?,
            note: self.note.again(),
        })
    }

    pub(crate) fn note(&self) -> &Note<Logged>
        ensures { result.now ≡ self.now }
    {
        &self.note
    }

    pub(crate) fn snapshot(&self) -> &Snapshot
        ensures { result.now ≡ self.now.list }
    {
        &self.snapshot
    }

    /// A share of the same, if it is another than the one that was seen: two of one board are of one number only if they are the
    /// same.
    pub(crate) fn newer(&self, seen: &Posted) -> Result<Option<Posted>, AllocError>
        requires { seen.now.board ≡ self.now.board }
        ensures { IfOk result (λ newer. MatchOption newer (self.now ≡ seen.now) (λ p. p ≡ self.now)) }
    {
        if self.note.same(&seen.note) {
            Ok(None)
        } else {
            Ok(Some(self.share()?))
        }
    }
}
