//! Tokens.

use base_containers::Text;

/// An operator between two operands.
#[derive(Clone, Copy)]
pub enum Infix {
    Or,
    And,
    Less,
    AtMost,
    Greater,
    AtLeast,
    Equal,
    NotEqual,
    Add,
    Subtract,
    Multiply,
    Divide,
    Remainder,
}

/// What a token is.
#[derive(Drop)]
pub enum TokenKind {
    /// A number of at most 2^63.
    Int(u64),
    /// A number with the suffix `u` or `U`.
    Uint(u64),
    /// What a literal text stands for.
    Text(Text),
    /// A name: the bytes from the token's start to its end.
    Name,
    /// A word that is no name but may select a field.
    Reserved,
    True,
    False,
    Null,
    In,
    Open,
    Close,
    OpenBracket,
    CloseBracket,
    OpenBrace,
    CloseBrace,
    Dot,
    Comma,
    Question,
    Colon,
    Bang,
    Operator(Infix),
}

/// A token and the bytes at which it starts and ends.
#[derive(Drop)]
pub struct Token {
    pub kind: TokenKind,
    pub start: usize,
    pub end: usize,
}
