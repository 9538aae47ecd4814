//! What can be compared, and what holds such things.

ghost use Rattle.std.specs.Prelude.{◌≡◌, ◌↔◌, IsTrue};

use crate::shared::Shared;
use crate::text::{Keyed, Text};
use sqlite_items::Items;

/// What can be compared with another of its type.
pub trait Same {
    /// Whether both are the same.
    fn same(&self, other: &Self) -> bool
        ensures { IsTrue result ↔ (self.now ≡ other.now) };
}

impl Same for Text {
    fn same(&self, other: &Text) -> bool {
        self.as_str() == other.as_str()
    }
}

impl<T: Same> Same for Keyed<T> {
    fn same(&self, other: &Keyed<T>) -> bool {
        self.key.same(&other.key) && self.value.same(&other.value)
    }
}

impl<T: Same> Same for Option<T> {
    fn same(&self, other: &Option<T>) -> bool {
        match (self, other) {
            (Some(one), Some(another)) => one.same(another),
            (None, None) => true,
            _ => false,
        }
    }
}

impl<T: Same> Same for Shared<T> {
    fn same(&self, other: &Shared<T>) -> bool {
        self.get().same(other.get())
    }
}

impl<T: Same> Same for Items<T> {
    fn same(&self, other: &Items<T>) -> bool {
        same_list(self.as_slice(), other.as_slice())
    }
}

/// Whether two lists hold the same, item by item.
fn same_list<T: Same>(left: &[T], right: &[T]) -> bool
    ensures { IsTrue result ↔ (left.now ≡ right.now) }
{
    let mut rest = right;
    for item in left {
        match rest {
            [other, more @ ..] if item.same(other) => rest = more,
            _ => return false,
        }
    }
    rest.is_empty()
}
