//! The rule of a board, and the steps on it.

use crate::entry::Entry;
use crate::listed::Listed;
use logbook::{Gain, Plain, Play, Rule};

/// Each list begins with each one that was told before it.
pub struct Grows;

impl<X> Rule<Entry<X>, u64> for Grows {
    ghost use Rattle.std.specs.Prelude.{[], ◌∷◌, true, false};
    ghost use base.Fml.{ftrue};
    ghost use Rattle.vap_watch.specs.Entries.{IsKept, entry};

    ghost holds = { λ cells entries. IsKept cells entries };

    ghost first = { entry [] false ∷ entry [] true ∷ [] };

    ghost hinted = { λ n entries. Unit {0} };

    ghost shows = { λ entries. [] };

    ghost keeps = { λ names entries. ftrue };

    ghost moves = { λ ask before after answer. Unit {0} };
}

/// A step trades nothing.
pub struct Nothing;

impl<X> Gain<Entry<X>, u64> for Nothing {
    ghost use base.Fml.{ftrue};

    ghost after = { λ names about answer. ftrue };
}

/// Puts a list on the board before it is published.
pub struct Attempt;

impl<X> Play<Entry<X>, u64> for Attempt {
    ghost use Rattle.vap_watch.specs.Entries.{Attempts};

    ghost then = { Attempts };
}

impl<X, L: Listed<X>> Plain<L, Entry<X>, u64> for Attempt {
    ghost use Rattle.std.specs.Prelude.{None, false};
    ghost use Rattle.vap_watch.specs.Entries.{entry};

    ghost ask = { λ value. entry (L.list value) false };

    ghost state = { λ value. None };
}

/// Puts, after it, the list that is published now.
pub struct Conclusion;

impl<X> Play<Entry<X>, u64> for Conclusion {
    ghost use Rattle.vap_watch.specs.Entries.{Concludes};

    ghost then = { Concludes };
}

impl<X, L: Listed<X>> Plain<L, Entry<X>, u64> for Conclusion {
    ghost use Rattle.std.specs.Prelude.{None, true};
    ghost use Rattle.vap_watch.specs.Entries.{entry};

    ghost ask = { λ value. entry (L.list value) true };

    ghost state = { λ value. None };
}
