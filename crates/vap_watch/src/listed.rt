//! What is put on a board.

ghost use Rattle.std.specs.Prelude.{List};

/// A value that contracts see as a list.
pub trait Listed<X> {
    ghost list: { Self → List X };
}
