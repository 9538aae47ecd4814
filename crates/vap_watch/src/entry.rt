//! What the history of a board is made of.

use std::collections::LinkedList;

/// A list that was put on the board, and whether it is told, which says that it is published. No value of this type is made.
pub struct Entry<X> {
    pub list: LinkedList<X>,
    pub is_told: bool,
}
