//! The writer's end.

ghost use Rattle.std.specs.Prelude.{◌≡◌, ◌<◌, ◌≤◌, [], ◌∷◌, length, IfOk, IsSome, MatchResult};
ghost use Rattle.std.specs.List.{All};
ghost use Rattle.vap_watch.specs.Begins.{StartsWith};
ghost use Rattle.vap_watch.specs.Shown.{shows};
ghost use Rattle.vap_watch.specs.Seen.{shown_in};

use crate::board::Board;
use crate::entrance::Entrance;
use crate::log::Logged;
use crate::pool::Pool;
use crate::posted::Posted;
use crate::reader::ReaderSource;
use crate::rule::{Both, Grows, Look, Sight, Taken};
use crate::snapshot::Snapshot;
use crate::told::Told;
use left_right::writer::Writer as RuledWriter;
use std::alloc::{AllocError, Global};
use std::marker::Model;
use std::sync::Wait;

/// Shows one snapshot after the other. Contracts see it as its board and the published log. It is not `Drop`: end it by
/// [`Publisher::end`].
pub(crate) struct Publisher {
    inner: RuledWriter<Posted, Posted, Sight, Grows>,
    board: Board<Logged>,
}

impl Model for Publisher {
    ghost use Rattle.std.specs.Prelude.{◌≡◌, [], ◌∷◌};
    ghost use Rattle.left_right.specs.Sides.{view as view_of};
    ghost use Rattle.std.specs.Coded.{codes};
    ghost use Rattle.vap_watch.specs.Shown.{Shown};
    ghost use Rattle.vap_read.specs.contracts.event.Event as event;
    ghost use Rattle.vap_watch.specs.declared.log.Logged.{Logged};

    ghost Value = { Shown Logged };

    ghost coded = { Prim.hlevel (codes, event.the_row.coded) };

    ghost view = { λ s. s.board };

    ghost invariant = { λ s. (s.inner.desk.shown.value ≡ s.board) × (view_of s.inner.desk.place ≡ s.board ∷ []) };
}

impl Publisher {
    /// A publisher of a first snapshot, whose log is empty, and a source of readers: there are places for so many at a time.
    pub(crate) fn open<R: Wait>(
        rt: &R,
        alloc: Global,
        first: Snapshot,
        places: usize,
    ) -> Result<(Publisher, ReaderSource), AllocError>
        requires empty { first ≡ [] }
        requires places { (1 ≤ places) × (places ≤ 16) }
        ensures empty { IfOk result (λ opened. opened.0.list ≡ []) }
        ensures board { IfOk result (λ opened. opened.1 ≡ opened.0.board) }
    {
        let board = Board::open();
        let opening = Posted::new(first, board.note());
        let mut publisher = Publisher::of(rt, alloc, &opening, board, places)?;
        match publisher.source(alloc, opening, places) {
            Ok(source) => Ok((publisher, source)),
            Err(error) => {
                publisher.end(rt);
                Err(error)
            }
        }
    }

    /// It takes one publication for the place of the writer to see its board. Nobody reads yet, so this does not wait.
    fn of<R: Wait>(
        rt: &R,
        alloc: Global,
        opening: &Posted,
        board: Board<Logged>,
        places: usize,
    ) -> Result<Publisher, AllocError>
        requires opening { opening.now ≡ board }
        requires places { (1 ≤ places) × (places ≤ 16) }
        ensures { IfOk result (λ p. p ≡ board) }
    {
        let third = opening.share()?;
        let mut inner = RuledWriter::new(alloc, opening.share()?, opening.share()?, places)?;
        let Ok(()) = inner.append(third) else {
            drop(inner.take(rt));
            return Err(AllocError);
        };
        let (inner, shown) = inner.publish_as::<Look, R>(rt);
        let Ok(()) = shown else {
            drop(inner.take(rt));
            return Err(AllocError);
        };
        Ok(Publisher { inner, board })
    }

    /// A source of readers, with so many places.
    fn source(
        &mut self,
        alloc: Global,
        opening: Posted,
        places: usize,
    ) -> Result<ReaderSource, AllocError>
        requires opening { opening ≡ self.old }
        requires empty { opening.list ≡ [] }
        requires places { 1 ≤ places }
        ensures of { IfOk result (λ source. source ≡ self.old.board) }
        ensures same { self.new ≡ self.old }
    {
        let told = self.tell();
        let pool = Pool::new(alloc, self.entrances(alloc, places)?, &told)?;
        Ok(ReaderSource::new(pool, told, opening))
    }

    /// So many places for readers, which have seen what is published.
    fn entrances(
        &mut self,
        alloc: Global,
        places: usize,
    ) -> Result<Vec<Option<Entrance>>, AllocError>
        ensures of { IfOk result (λ v. All (λ o. IsSome o × ((shown_in o).board ≡ self.old.board)) v.items) }
        ensures length { IfOk result (λ v. length v.items ≡ places) }
        ensures same { self.new ≡ self.old }
    {
        let mut entrances = Vec::new(alloc);
        for _ in 0..places {
            entrances.push(Some(self.entrance()?))?;
        }
        Ok(entrances)
    }

    /// A place for a reader, which has seen what is published.
    fn entrance(&mut self) -> Result<Entrance, AllocError>
        ensures of { IfOk result (λ e. e ≡ self.old) }
        ensures same { self.new ≡ self.old }
    {
        let mut reader = self.inner.factory().reader()?;
        reader.learn::<Taken>(self.inner.tell::<Both>());
        Ok(Entrance::over(reader))
    }

    /// The published snapshot.
    pub(crate) fn snapshot(&self) -> &Snapshot
        ensures { result.now ≡ self.now.list }
    {
        self.inner.published().snapshot()
    }

    /// Names the published log.
    pub(crate) fn tell(&self) -> Told
        ensures { result ≡ self.now }
    {
        self.board.told()
    }

    /// Publishes a snapshot that goes on from the published one. If it is refused, the published one stays. It waits for readers that
    /// are in the middle of their one step.
    pub(crate) fn publish<R: Wait>(
        self,
        rt: &R,
        next: Snapshot,
    ) -> (Publisher, Result<(), AllocError>)
        requires { StartsWith next self.list }
        ensures { MatchResult result.1 (λ _. result.0 ≡ shows self.board next) (λ _. result.0 ≡ self) }
    {
        let Publisher { mut inner, board } = self;
        let draft = match board.draft(&next) {
            Ok(draft) => draft,
            Err(board) => return (Publisher { inner, board }, Err(AllocError)),
        };
        let Ok(()) = inner.append(Posted::new(next, draft.note())) else {
            let board = draft.lose(inner.published().snapshot());
            return (Publisher { inner, board }, Err(AllocError));
        };
        let (inner, shown) = inner.publish_as::<Look, R>(rt);
        let Ok(()) = shown else {
            let board = draft.lose(inner.published().snapshot());
            return (Publisher { inner, board }, Err(AllocError));
        };
        let board = draft.keep(inner.published().snapshot());
        (Publisher { inner, board }, Ok(()))
    }

    /// Gives the publisher up. Readers find that it is gone. It may wait, as a publication does.
    pub(crate) fn end<R: Wait>(self, rt: &R) {
        let Publisher {
            inner,
            board: _board,
        } = self;
        drop(inner.take(rt));
    }
}
