//! Containers that contracts see as what they hold, JSON documents among them, failures, and lines of a reader.
//!
//! A tree of containers is plain data, and `≡` on it is equality of content: [`Text`] is seen as its bytes, [`TextMap`] as the list of
//! its entries by key, [`Items`] as a list, and [`Boxed`] and [`Shared`], which has several owners, as the value inside. [`Same::same`]
//! answers whether two things are the same, exactly if both are one and the same to contracts; it goes through what is shared, takes
//! no memory, and has no fault. Its impl for a type is beside the type.
//!
//! [`Failed`] is why a call that fails by memory or by a fault of its own gives no value.
//!
//! [`Document`] is a text that `serde_json` is known to read, and [`opened`] opens a text as a tape, if `serde_json`
//! reads it. [`Part`] is a place in an opened document, or in a tree of `serde_json`'s: all that looks into documents of both kinds
//! takes it. Contracts see both as `serde_json`'s data. If two members are under one name, the later is there. Members are in the
//! order of their names.
//!
//! [`LineReader::next`] puts the bytes of a reader's next line, without its line feed, into a list, and answers how the line
//! ended; a line of more than [`LONGEST_LINE`] bytes is not read whole. It stops at the end of the input, at the first read
//! that fails, and after [`MOST_READS`] reads. [`LineReader::next_pending`] takes a line that was read whole and is not handed on yet.
//! [`Counted`] passes reads, writes and flushes on and counts those that failed.
#![tactic(auto)]

mod acceptance;
mod contents;
mod counted;
mod document;
mod failed;
mod line_reader;
mod lines;
mod number;
mod part;
mod same;
mod shared;
mod text;
mod text_map;

pub use counted::Counted;
pub use document::{Document, opened};
pub use failed::Failed;
pub use line_reader::{LineReader, MOST_READS};
pub use lines::{Ending, LONGEST_LINE, LineError};
pub use number::{Number, number_in};
pub use part::Part;
pub use same::Same;
pub use shared::Shared;
pub use sqlite_items::{Boxed, Items};
pub use text::{Keyed, Text};
pub use text_map::{TextMap, is_in_key_order};
