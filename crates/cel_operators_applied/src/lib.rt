//! What operators make of their operands.
//!
//! [`on_one`] and [`on_two`] answer what an operator's row says of operands, with its charge, or nothing if it takes
//! others. Operands are lent, and what is answered is the caller's own: a part of an operand is a copy. An operand is taken
//! as one of a kind by [`truth`], [`whole`], [`characters`] and their like, [`alone`] and [`both`] give what is answered if
//! it is none, and [`map_of`] makes the map of a literal's entries. No stack and no image is known here.
#![tactic(auto)]

mod aggregates;
mod comparisons;
mod kinds;
mod lists;
mod maps;
mod numbers;
mod operate;
mod texts;
mod times;

pub use kinds::{alone, both, characters, entries, items, made, members, truth, whole};
pub use lists::{in_list, in_map, item_at, item_of_list, value_of_map};
pub use maps::{in_front, map_of};
pub use operate::{on_one, on_two};
pub use texts::tenths_in;
