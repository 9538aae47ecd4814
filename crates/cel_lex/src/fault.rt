//! Why a text is not cut.

ghost use Rattle.std.specs.Prelude.{◌≡◌};
ghost use Rattle.cel_lex.specs.Names.{lex_fault_name};

use base_containers::Failed;
use thiserror::Error;

#[derive(Clone, Copy, Debug, PartialEq, Eq, Error)]
pub enum LexFaultKind {
    #[error("a character that begins no token")]
    BadChar = 1,
    #[error("a text that is not closed")]
    Unterminated = 2,
    #[error("a backslash that begins no escape")]
    BadEscape = 3,
    #[error("a number out of range")]
    IntRange = 4,
    #[error("a text that is too long")]
    TooLong = 5,
}

impl LexFaultKind {
    /// The name that is printed.
    pub fn name(&self) -> &'static str
        ensures { result.now ≡ lex_fault_name self.now }
    {
        match self {
            LexFaultKind::BadChar => "BadChar",
            LexFaultKind::Unterminated => "Unterminated",
            LexFaultKind::BadEscape => "BadEscape",
            LexFaultKind::IntRange => "IntRange",
            LexFaultKind::TooLong => "TooLong",
        }
    }
}

/// The first fault of a text, and the byte at which it is.
#[derive(Clone, Copy, Debug, PartialEq, Eq, Error)]
#[error("{kind} at {place}")]
pub struct LexFault {
    pub kind: LexFaultKind,
    pub place: usize,
}

/// Why no tokens are answered.
pub type LexError = Failed<LexFault>;
