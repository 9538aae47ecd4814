//! Places that wait to be handed to readers.

ghost use Rattle.std.specs.Prelude.{◌≡◌, ◌<◌, length, IfOk, IfSome, IsSome, MatchOption};
ghost use Rattle.std.specs.List.{All};
ghost use Rattle.vap_watch.specs.Seen.{Follows, shown_in};

use crate::entrance::Entrance;
use crate::posted::Posted;
use crate::told::Told;
use atomic_table::{Play, Seat, Table, TableRule};
use std::alloc::{AllocError, Global};
use std::marker::Model;
use std::sync::Arc;

/// Each place that waits is of one board.
pub(crate) struct Homes;

impl TableRule<Option<Entrance>, Told, Told> for Homes {
    ghost use Rattle.vap_watch.specs.Homes.{Waits};

    ghost holds = { λ key s. Waits key s };

    ghost first = { λ key. key };
}

pub(crate) struct Sit;

impl Play<Option<Entrance>, Told> for Sit {
    ghost use Rattle.vap_watch.specs.Homes.{sits};

    ghost then = { sits };
}

pub(crate) struct Claim;

impl Play<Option<Entrance>, Told> for Claim {
    ghost use Rattle.vap_watch.specs.Homes.{claims};

    ghost then = { claims };
}

pub(crate) struct Free;

impl Play<Option<Entrance>, Told> for Free {
    ghost then = { λ _ _ _ _. Unit {0} };
}

type Places = Table<Option<Entrance>, Told, Told, Homes, Global>;

/// The places of a board. Contracts see it as the board.
#[derive(Drop)]
pub(crate) struct Pool {
    table: Arc<Places>,
}

impl Model for Pool {
    ghost use Rattle.std.specs.Prelude.{◌≡◌, ◌<◌};
    ghost use Rattle.std.specs.Arc.{arc_value};
    ghost use Rattle.std.specs.Coded.{codes};
    ghost use Rattle.vap_watch.specs.Shown.{Shown};
    ghost use Rattle.vap_read.specs.contracts.event.Event as event;
    ghost use Rattle.vap_watch.specs.declared.log.Logged.{Logged};

    ghost Value = { Shown Logged };

    ghost coded = { Prim.hlevel (codes, event.the_row.coded) };

    ghost view = { λ s. (arc_value s.table).shared.key };

    ghost invariant = { λ s. ((arc_value s.table).shared.table_id.words ≡ (arc_value s.table).shared.table_id.slots)
        × (0 < (arc_value s.table).shared.table_id.slots) };
}

/// A place that was handed out, which goes back by itself. Contracts see it as what it has seen last.
pub(crate) struct Lent {
    table: Arc<Places>,
    seat: Seat<Option<Entrance>, Told>,
    index: usize,
    entrance: Option<Entrance>,
}

impl Model for Lent {
    ghost use Rattle.std.specs.Prelude.{◌≡◌, ◌<◌, [], ◌∷◌, None, IsSome};
    ghost use Rattle.std.specs.Arc.{arc_value};
    ghost use Rattle.std.specs.Coded.{codes};
    ghost use Rattle.vap_watch.specs.Shown.{Shown};
    ghost use Rattle.vap_read.specs.contracts.event.Event as event;
    ghost use Rattle.vap_watch.specs.declared.log.Logged.{Logged};
    ghost use Rattle.vap_watch.specs.Seen.{shown_in};

    ghost Value = { Shown Logged };

    ghost coded = { Prim.hlevel (codes, event.the_row.coded) };

    ghost view = { λ s. shown_in s.entrance };

    ghost invariant = { λ s. (s.seat.table_id ≡ (arc_value s.table).shared.table_id) × (s.index < s.seat.table_id.words)
        × (s.index < s.seat.table_id.slots) × (s.seat.me ≡ ((arc_value s.table).shared.key, (s.index, None) ∷ []))
        × IsSome s.entrance × ((shown_in s.entrance).board ≡ (arc_value s.table).shared.key.board) };
}

/// A word for each place, which says that it is at home.
fn ones(alloc: Global, count: usize) -> Result<Vec<u64>, AllocError>
    ensures { IfOk result (λ v. length v.items ≡ count) }
{
    let mut words = Vec::new(alloc);
    for _ in 0..count {
        words.push(1)?;
    }
    Ok(words)
}

impl Pool {
    /// The pool of places that are all of one board.
    pub(crate) fn new(
        alloc: Global,
        places: Vec<Option<Entrance>>,
        board: &Told,
    ) -> Result<Pool, AllocError>
        requires some { 0 < length places.items }
        requires board { All (λ o. IsSome o × ((shown_in o).board ≡ board.now.board)) places.items }
        ensures { IfOk result (λ p. p ≡ board.now) }
    {
        let words = ones(alloc, places.len())?;
        let Ok((table, _seat)) = Table::new(alloc, words.as_slice(), places, board) else {
            return Err(AllocError);
        };
        Ok(Pool {
            table: Arc::new(alloc, table)?,
        })
    }

    /// A place that waits. It is possible that none is found while one comes back.
    pub(crate) fn take(&self) -> Result<Option<Lent>, AllocError>
        ensures { IfOk result (λ lent. IfSome lent (λ e. e.board ≡ self.now.board)) }
    {
        let table = Arc::try_clone(&self.table)?;
        let mut seat = table.shared.load_new_seat::<Sit>(0).1;
        for index in 0..table.slot_count() {
            if table
                .shared
                .compare_exchange::<Claim>(&mut seat, index, 1, 0)
                == 1
            {
                let entrance = table.shared.exchange(&mut seat, index, None);
                return Ok(Some(Lent {
                    table,
                    seat,
                    index,
                    entrance,
                }));
            }
        }
        Ok(None)
    }
}

impl Lent {
    /// As [`Entrance::enter`].
    pub(crate) fn enter(&mut self, seen: &Posted) -> Option<Result<Option<Posted>, AllocError>>
        requires { seen.now.board ≡ self.old.board }
        ensures here { IfSome result (λ r. IfOk r (λ newer. MatchOption newer (self.new ≡ seen.now) (λ p. p ≡ self.new))) }
        ensures later { Follows self.new self.old }
    {
        let Some(entrance) = self.entrance.take() else {
            unreachable!()
        };
        let (entrance, found) = entrance.enter(seen);
        self.entrance = Some(entrance);
        found
    }
}

impl Drop for Lent {
    fn drop(self) {
        let Self {
            table,
            mut seat,
            index,
            entrance,
        } = self;
        table.shared.exchange(&mut seat, index, entrance);
        table.shared.store::<Free>(&mut seat, index, 1);
    }
}
