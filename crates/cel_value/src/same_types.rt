//! Whether two types are the same.

ghost use Rattle.std.specs.Prelude.{◌≡◌, ◌↔◌, IsTrue};

use crate::cel_type::{CelType, Field};
use base_containers::TextMap;

/// Whether two types are the same, with all their limits.
#[cycle(same_type)]
pub fn same_type(left: &CelType, right: &CelType) -> bool
    ensures { IsTrue result ↔ (left.now ≡ right.now) }
{
    match (left, right) {
        (CelType::Never, CelType::Never) => true,
        (CelType::Null, CelType::Null) => true,
        (CelType::Bool, CelType::Bool) => true,
        (CelType::Int, CelType::Int) => true,
        (CelType::Uint, CelType::Uint) => true,
        (CelType::Timestamp, CelType::Timestamp) => true,
        (CelType::Duration, CelType::Duration) => true,
        (CelType::Opaque, CelType::Opaque) => true,
        (CelType::Text { max: one }, CelType::Text { max: other }) => one == other,
        (
            CelType::List {
                max: one,
                plain: one_plain,
                item: one_item,
            },
            CelType::List {
                max: other,
                plain: other_plain,
                item: other_item,
            },
        ) => {
            one == other && one_plain == other_plain && same_type(one_item.get(), other_item.get())
        }
        (
            CelType::Map {
                max: one,
                key_max: one_key,
                item: one_item,
            },
            CelType::Map {
                max: other,
                key_max: other_key,
                item: other_item,
            },
        ) => one == other && one_key == other_key && same_type(one_item.get(), other_item.get()),
        (CelType::Object { fields: one }, CelType::Object { fields: other }) => {
            same_fields(one.get(), other.get())
        }
        (CelType::Nullable(one), CelType::Nullable(other)) => same_type(one.get(), other.get()),
        _ => false,
    }
}

#[cycle(same_type)]
fn same_fields(left: &TextMap<Field<CelType>>, right: &TextMap<Field<CelType>>) -> bool
    ensures { IsTrue result ↔ (left.now ≡ right.now) }
{
    let mut rest = right.as_slice();
    for field in left.as_slice() {
        match rest {
            [other, more @ ..] => {
                if field.key.as_str() != other.key.as_str()
                    || field.value.required != other.value.required
                    || !same_type(&field.value.cel_type, &other.value.cel_type)
                {
                    return false;
                }
                rest = more;
            }
            [] => return false,
        }
    }
    rest.is_empty()
}
