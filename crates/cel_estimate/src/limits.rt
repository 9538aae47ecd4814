//! What types say of ranges.

ghost use Rattle.std.specs.Prelude.{◌≡◌};
ghost use Rattle.cel_estimate.specs.Estimate.{items_most};

use cel_check::most_items;
use cel_value::CelType;

/// The most items of a range of a type.
pub fn range_max(range: &CelType) -> u32
    ensures { result ≡ items_most range.now }
{
    most_items(range).unwrap_or(0)
}
