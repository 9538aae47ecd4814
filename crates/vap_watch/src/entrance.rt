//! The reader's end of `left_right`.

ghost use Rattle.std.specs.Prelude.{◌≡◌, ◌∷◌, [], IfOk, IfSome, MatchOption};
ghost use Rattle.left_right.specs.Sides.{view as view_of};
ghost use Rattle.vap_watch.specs.Seen.{Follows, first_of};

use crate::posted::Posted;
use crate::rule::{Grows, Look, Sight};
use left_right::reader::Reader as RuledReader;
use std::alloc::AllocError;
use std::marker::Model;

/// A place for a reader. Contracts see it as what it has seen last.
#[derive(Drop)]
pub(crate) struct Entrance {
    inner: RuledReader<Posted, Sight, Grows>,
}

impl Model for Entrance {
    ghost use Rattle.std.specs.Prelude.{◌≡◌, [], ◌∷◌};
    ghost use Rattle.left_right.specs.Sides.{view as view_of};
    ghost use Rattle.std.specs.Coded.{codes};
    ghost use Rattle.vap_watch.specs.Shown.{Shown};
    ghost use Rattle.vap_read.specs.contracts.event.Event as event;
    ghost use Rattle.vap_watch.specs.declared.log.Logged.{Logged};
    ghost use Rattle.vap_watch.specs.Seen.{first_of};

    ghost Value = { Shown Logged };

    ghost coded = { Prim.hlevel (codes, event.the_row.coded) };

    ghost view = { λ s. first_of (view_of s.inner.place) };

    ghost invariant = { λ s. view_of s.inner.place ≡ first_of (view_of s.inner.place) ∷ [] };
}

impl Entrance {
    pub(crate) fn over(inner: RuledReader<Posted, Sight, Grows>) -> Entrance
        requires { view_of inner.place ≡ first_of (view_of inner.place) ∷ [] }
        ensures { result ≡ first_of (view_of inner.place) }
    {
        Entrance { inner }
    }

    /// What is published, as of one moment of the call: none if it is what was seen. If its share is refused, the place has seen it
    /// nevertheless. `None` says that the writer is gone.
    pub(crate) fn enter(
        self,
        seen: &Posted,
    ) -> (Entrance, Option<Result<Option<Posted>, AllocError>>)
        requires { seen.now.board ≡ self.board }
        ensures here { IfSome result.1 (λ r. IfOk r (λ newer. MatchOption newer (result.0 ≡ seen.now) (λ p. p ≡ result.0))) }
        ensures later { Follows result.0 self }
    {
        let Entrance { inner } = self;
        match inner.enter_as::<Look>() {
            Ok(reading) => {
                let newer = reading.get().newer(seen);
                (Entrance::over(reading.leave()), Some(newer))
            }
            Err(inner) => (Entrance::over(inner), None),
        }
    }
}
