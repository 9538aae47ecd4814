//! Types.

use crate::cel_type::CelType;
use crate::same_types::same_type;
use base_containers::Same;

impl Same for CelType {
    fn same(&self, other: &CelType) -> bool {
        same_type(self, other)
    }
}
