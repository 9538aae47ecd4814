/// What distinguishes a constant that is null, a truth value or a number from all others.
#[derive(Clone, Copy, PartialEq, Eq, PartialOrd, Ord)]
pub enum Key {
    Null,
    Truth(bool),
    Int(i64),
    Uint(u64),
}
