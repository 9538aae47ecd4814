//! The grammar of CEL, the trees that it derives, and the expressions of CEL texts.
//!
//! [`tree_of`] answers the one tree that the grammar derives from a text's tokens within the limits of depth, or why
//! there is none. [`word_at`] answers the word at a node's place: a tree holds no names.
//!
//! [`parse`] answers the expression of that tree, or why there is none within the limits. [`one_expression`] is the law that a text
//! has one of the two, and only one.
#![tactic(auto)]

mod descent;
mod expansion;
mod fault;
mod heads;
mod macros;
mod nodes;
mod parser;
mod tree;
mod word;

pub use descent::tree_of;
pub use fault::{ParseError, ParseFault};
pub use parser::{one_expression, parse};
pub use tree::{Joint, Tree};
pub use word::{is_has, word_at};
