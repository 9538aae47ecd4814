//! What a loop gathers from the items of its range.

ghost use Rattle.std.specs.Prelude.{◌≡◌};
ghost use Rattle.cel_operators.specs.Loops.{one_more, is_one};

use base_containers::Items;
use cel_value::{CelError, Value};

/// For how many items a predicate holds.
#[derive(Clone, Copy)]
pub enum Tally {
    Zero,
    One,
    More,
}

/// What a loop has gathered: `all` and `exists` the first error, `exists_one` for how many items its predicate holds,
/// `filter` and `map` the items of their list.
#[derive(Drop)]
pub struct Accumulator {
    pub error: Option<CelError>,
    pub tally: Tally,
    pub items: Items<Value>,
}

impl Tally {
    /// One more.
    pub fn one_more(self) -> Tally
        ensures { result ≡ one_more self }
    {
        match self {
            Tally::Zero => Tally::One,
            Tally::One | Tally::More => Tally::More,
        }
    }

    /// Whether it is one exactly.
    pub fn is_one(self) -> bool
        ensures { result ≡ is_one self }
    {
        matches!(self, Tally::One)
    }
}
