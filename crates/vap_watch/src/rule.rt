//! What is published, and the rule of it.

use crate::log::Logged;
use crate::note::Note;
use crate::posted::Posted;
use atomic_table::{Join, Split};
use crossbeam_utils::rule::{Outcome, Protocol};
use left_right::Absorb;
use std::alloc::AllocError;
use std::collections::LinkedList;

/// What a place has seen. No value of this type is made.
pub(crate) type Sight = LinkedList<Note<Logged>>;

/// The one operation puts a share of another snapshot in the place of this one.
impl Absorb<Posted> for Posted {
    type State = Note<Logged>;

    ghost state = { λ s. s };

    ghost applied = { λ _ s. s };

    fn absorb_first(&mut self, operation: &Posted, _other: &Posted) -> Result<(), AllocError> {
        *self = operation.share()?;
        Ok(())
    }

    fn absorb_second(&mut self, operation: Posted, _other: &Posted) -> Result<(), Posted> {
        *self = operation;
        Ok(())
    }
}

/// What is published follows all that a place has seen.
pub(crate) struct Grows;

impl Protocol<Posted, Sight> for Grows {
    ghost use Rattle.std.specs.Prelude.{[]};
    ghost use Rattle.vap_watch.specs.Seen.{Keeps};

    ghost holds = { λ shown views. Keeps shown views };

    ghost first = { [] };
}

/// Publishing, or entering.
pub(crate) struct Look;

impl Outcome<Posted, Sight> for Look {
    ghost use Rattle.vap_watch.specs.Seen.{Sees};

    ghost then = { λ seen before after now. Sees seen before after now };
}

/// The place that tells and the place that is told both know.
pub(crate) struct Both;

impl Split<Sight> for Both {
    ghost left = { λ v. v };

    ghost right = { λ v. v };
}

/// The one place knows what the other knew.
pub(crate) struct Taken;

impl Join<Sight> for Taken {
    ghost use Rattle.std.specs.Prelude.{[], ◌++◌};

    ghost both = { λ v w. v ++ w };

    ghost spent = { [] };
}
