//! Readers, which look at what is published.

ghost use Rattle.std.specs.Prelude.{◌≡◌, [], false, IfOk, OnErr, OnOk};
ghost use Rattle.vap_watch.specs.Begins.{StartsWith};
ghost use Rattle.vap_watch.specs.Seen.{Learns, Looks, SeesMore, knows};

use crate::fault::{ReaderError, ReaderFault};
use crate::pool::{Lent, Pool};
use crate::posted::Posted;
use crate::snapshot::Snapshot;
use crate::told::Told;
use std::marker::Model;

/// Looks at what is published. It keeps a share of the snapshot that it saw last, until it sees another. Contracts see it as the board
/// that it reads, the log of that snapshot and the longest log that it was told of.
#[derive(Drop)]
pub struct Reader {
    lent: Lent,
    seen: Posted,
    told: Told,
}

impl Model for Reader {
    ghost use Rattle.std.specs.Prelude.{◌≡◌};
    ghost use Rattle.vap_watch.specs.Seen.{Follows, Known, knows};
    ghost use Rattle.std.specs.Coded.{codes};
    ghost use Rattle.vap_read.specs.contracts.event.Event as event;
    ghost use Rattle.vap_watch.specs.declared.log.Logged.{Logged};

    ghost Value = { Known Logged };

    ghost coded = { Prim.hlevel (codes, event.the_row.coded) };

    ghost view = { λ s. knows s.told.board s.seen.list s.told.list };

    ghost invariant = { λ s. Follows s.lent s.seen × (s.seen.board ≡ s.told.board) };
}

/// Makes readers, no more at a time than there are places. Contracts see it as the board that they read.
#[derive(Drop)]
pub struct ReaderSource {
    pool: Pool,
    told: Told,
    opening: Posted,
}

impl Model for ReaderSource {
    ghost use Rattle.std.specs.Prelude.{◌≡◌, []};
    ghost use Rattle.logbook.specs.Pages.{Book, book_coded};

    ghost Value = { Book };

    ghost coded = { book_coded };

    ghost view = { λ s. s.told.board };

    ghost invariant = { λ s. (s.told.list ≡ []) × (s.opening.list ≡ []) × (s.pool.board ≡ s.told.board)
        × (s.opening.board ≡ s.told.board) };
}

impl ReaderSource {
    pub(crate) fn new(pool: Pool, told: Told, opening: Posted) -> ReaderSource
        requires empty { (told.list ≡ []) × (opening.list ≡ []) }
        requires board { (pool.board ≡ told.board) × (opening.board ≡ told.board) }
        ensures { result ≡ told.board }
    {
        ReaderSource {
            pool,
            told,
            opening,
        }
    }

    /// A reader that has seen the empty log. It is refused while there are as many readers as places.
    #[tactic(auto, using(crate::proofs::Grows::follows_empty))]
    pub fn reader(&self) -> Result<Reader, ReaderError>
        ensures { IfOk result (λ r. r ≡ knows self.now [] []) }
    {
        let Some(lent) = self.pool.take()? else {
            return Err(ReaderError::Fault(ReaderFault::NoPlace));
        };
        Ok(Reader {
            lent,
            seen: self.opening.share()?,
            told: self.told.again(),
        })
    }
}

impl Reader {
    /// Takes in what is published, as of one moment of the call, and answers whether it is another snapshot than the one that was seen
    /// last. Its log begins with the one that was seen last and with all that this reader was told of. It is refused as `Gone` if
    /// the publisher is gone.
    #[tactic(auto, using(crate::proofs::Grows::looks_still, crate::proofs::Grows::looks_further, crate::proofs::Grows::follows_further))]
    pub fn look(&mut self) -> Result<bool, ReaderError>
        ensures seen { OnOk result (Looks self.old self.new) }
        ensures same { IfOk result (λ another. another ≡ false → self.new ≡ self.old) }
        ensures refused { OnErr result (self.new ≡ self.old) }
    {
        let Some(found) = self.lent.enter(&self.seen) else {
            return Err(ReaderError::Fault(ReaderFault::Gone));
        };
        // No run finds a log that is before one that was told.
        let Some(newer) = found? else {
            if !self.told.begins(self.seen.note()) {
                return Err(ReaderError::Fault(ReaderFault::Gone));
            }
            return Ok(false);
        };
        if !self.told.begins(newer.note()) {
            return Err(ReaderError::Fault(ReaderFault::Gone));
        }
        self.seen = newer;
        Ok(true)
    }

    /// The snapshot that was seen last.
    pub fn seen(&self) -> &Snapshot
        ensures { result.now ≡ self.now.seen }
    {
        self.seen.snapshot()
    }

    /// A share of what is published, as of one moment of the call, which the reader has then seen.
    pub fn enter(&mut self) -> Result<Snapshot, ReaderError>
        ensures seen { IfOk result (λ snapshot. snapshot ≡ self.new.seen) }
        ensures told { OnOk result (Looks self.old self.new) }
        ensures refused { OnErr result (SeesMore self.old self.new) }
    {
        self.look()?;
        Ok(self.seen.snapshot().share()?)
    }

    /// Takes in what a publisher told: from now on what the reader sees begins with it.
    pub fn learn(&mut self, told: Told)
        requires { told.board ≡ self.old.board }
        ensures { Learns self.old self.new told.list }
    {
        self.told = self.told.again().later(told);
    }
}
