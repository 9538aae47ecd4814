//! The numbers of the kinds of loops.

ghost use Rattle.std.specs.Prelude.{◌≡◌};
ghost use Rattle.cel_code.specs.LoopNumbers.{loop_number, loop_kind};

use cel_value::Loop;

/// The number of a kind of loop in an image.
pub fn loop_number(kind: Loop) -> usize
    ensures { result ≡ loop_number kind }
{
    match kind {
        Loop::All => 0,
        Loop::Exists => 1,
        Loop::ExistsOne => 2,
        Loop::Map => 3,
        Loop::Filter => 4,
    }
}

/// The kind of loop of a number, if there is one.
#[tactic(auto, using(crate::proofs::LoopNumbers::no_kind))]
pub fn loop_kind(number: usize) -> Option<Loop>
    ensures { result ≡ loop_kind number }
{
    match number {
        0 => Some(Loop::All),
        1 => Some(Loop::Exists),
        2 => Some(Loop::ExistsOne),
        3 => Some(Loop::Map),
        4 => Some(Loop::Filter),
        _ => None,
    }
}
