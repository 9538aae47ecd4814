//! What a line of `tests/vectors/*_calls-*.jsonl` asks, how lines write types and values, and how they are shown.
//!
//! A line is a JSON document: `call` names a part of the libraries and, after a dot, what is asked of it; `with` has the texts
//! and numbers that the call is given beside its input, if it is given any; and `input` is a text. The answer is a text, which
//! is printed as a JSON string, a line each.
#![tactic(auto)]

mod asked;
mod question;
mod reviews;
mod showing;
mod types;

pub use asked::{Asked, unknown};
pub use question::{json, quoted, unreadable};
pub use reviews::request_in;
pub use showing::{put, put_type, shown, shown_type};
pub use types::{part_at, put_types, type_of, typed, types_of, value_at};
