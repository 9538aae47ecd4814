//! Expressions, as they are written, with the macros expanded.

use base_containers::{Boxed, Items, Text};

/// An operator before one operand.
#[derive(Clone, Copy)]
pub enum UnaryOperator {
    Not,
    Negate,
}

/// An operator between two operands that are both evaluated.
#[derive(Clone, Copy)]
pub enum BinaryOperator {
    Less,
    AtMost,
    Greater,
    AtLeast,
    Equal,
    NotEqual,
    In,
    Add,
    Subtract,
    Multiply,
    Divide,
    Remainder,
}

/// What a loop does with what its body gives for each item.
#[derive(Clone, Copy, Debug, PartialEq, Eq)]
pub enum Loop {
    /// Whether the predicate holds for all.
    All,
    /// Whether it holds for one at least.
    Exists,
    /// Whether it holds for one exactly.
    ExistsOne,
    /// The list of the items for which it holds.
    Filter,
    /// The list of what the transform gives.
    Map,
}

/// A key and the value under it.
#[derive(Drop)]
pub struct Entry<T> {
    pub key: T,
    pub value: T,
}

/// One level of an expression, over what stands for the expressions inside.
#[derive(Drop)]
pub enum Syntax<T> {
    Null,
    Bool(bool),
    Int(i64),
    Uint(u64),
    Text(Text),
    Name(Text),
    /// The field of a name.
    Select(Boxed<T>, Text),
    /// Whether there is the field of a name.
    Has(Boxed<T>, Text),
    Call(Text, Items<T>),
    /// What the method is called on, its name and its arguments.
    Method(Boxed<T>, Text, Items<T>),
    Index(Boxed<T>, Boxed<T>),
    List(Items<T>),
    Map(Items<Entry<T>>),
    Unary(UnaryOperator, Boxed<T>),
    Binary(BinaryOperator, Boxed<T>, Boxed<T>),
    And(Boxed<T>, Boxed<T>),
    Or(Boxed<T>, Boxed<T>),
    Conditional(Boxed<T>, Boxed<T>, Boxed<T>),
    /// A range, the name of its item, and the body that is evaluated for each.
    Loop(Loop, Boxed<T>, Text, Boxed<T>),
    /// A range, the name of its item, a predicate, and the transform of the items for which it holds.
    MapWhere(Boxed<T>, Text, Boxed<T>, Boxed<T>),
}

/// An expression and its place: the byte at which its operator, name, selector, opening bracket or `?` begins, else its
/// first token.
#[derive(Drop)]
pub struct Expr {
    pub place: usize,
    pub form: Syntax<Expr>,
}
