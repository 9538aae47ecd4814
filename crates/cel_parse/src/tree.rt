//! What the grammar derives: trees whose numbers have a sign and a magnitude, and whose macros are calls.

use base_containers::{Boxed, Items, Text};
use cel_lex::Infix;
use cel_value::{Entry, UnaryOperator};

/// What is between two operands.
#[derive(Clone, Copy)]
pub enum Joint {
    Infix(Infix),
    In,
}

/// A tree of the grammar. Each node has the byte at which its operator, name, selector, opening bracket or `?` begins,
/// else its first token. The word that begins at the place of a `Name`, `Call`, `Select` or `Method` is its name.
#[derive(Drop)]
pub enum Tree {
    Null {
        place: usize,
    },
    Truth {
        place: usize,
        value: bool,
    },
    Number {
        place: usize,
        is_negative: bool,
        magnitude: u64,
    },
    Unsigned {
        place: usize,
        value: u64,
    },
    Text {
        place: usize,
        value: Text,
    },
    Name {
        place: usize,
    },
    Call {
        place: usize,
        arguments: Items<Tree>,
    },
    Select {
        place: usize,
        operand: Boxed<Tree>,
    },
    Method {
        place: usize,
        operand: Boxed<Tree>,
        arguments: Items<Tree>,
    },
    Index {
        place: usize,
        operand: Boxed<Tree>,
        index: Boxed<Tree>,
    },
    List {
        place: usize,
        items: Items<Tree>,
    },
    Map {
        place: usize,
        entries: Items<Entry<Tree>>,
    },
    Unary {
        place: usize,
        operator: UnaryOperator,
        operand: Boxed<Tree>,
    },
    Binary {
        place: usize,
        joint: Joint,
        left: Boxed<Tree>,
        right: Boxed<Tree>,
    },
    Conditional {
        place: usize,
        test: Boxed<Tree>,
        yes: Boxed<Tree>,
        no: Boxed<Tree>,
    },
}
