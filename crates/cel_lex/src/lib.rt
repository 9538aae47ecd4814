//! The tokens of CEL texts.
//!
//! [`tokens`] answers the one cut of a text by longest match, white space and comments left out, or its first fault.
//! [`one_answer`] is the law that a text has one of the two, and only one. [`text_meaning`] is the law that the value of
//! a literal text is what its bytes and escapes spell one by one, and [`text_closing`] that its content ends at the first
//! closing quotes that no backslash escapes. [`keyword_at`] and [`is_reserved_word`] answer which words are no names.
#![tactic(auto)]

mod bytes;
mod content;
mod escape;
mod fault;
mod literal;
mod number;
mod piece;
mod scan;
mod symbol;
mod token;
mod word;

pub use content::text_meaning;
pub use fault::{LexError, LexFault, LexFaultKind};
pub use literal::text_closing;
pub use scan::{one_answer, tokens};
pub use token::{Infix, Token, TokenKind};
pub use word::{is_reserved_word, keyword_at};
