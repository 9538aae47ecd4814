ghost use Rattle.std.specs.Prelude.{◌≡◌, IfOk, map};
ghost use Rattle.std.specs.Char.{to_ascii_lowercase, to_ascii_uppercase};
ghost use Rattle.std.specs.Str.{chars};
ghost use Rattle.cel_value.specs.Value.{code_points};

use base_containers::Text;
use std::alloc::{AllocError, Global};

/// The text with small letters in place of the capital letters of ASCII, and nothing else changed.
pub fn lower_ascii(alloc: Global, text: &str) -> Result<Text, AllocError>
    ensures exact { IfOk result (λ lower. lower ≡ map to_ascii_lowercase text.now) }
    ensures spelled { IfOk result (λ lower. chars lower ≡ map to_ascii_lowercase (chars text.now)) }
    ensures length { IfOk result (λ lower. code_points lower ≡ code_points text.now) }
{
    Ok(Text::from_string(text.to_ascii_lowercase(alloc)?))
}

/// The text with capital letters in place of the small letters of ASCII, and nothing else changed.
pub fn upper_ascii(alloc: Global, text: &str) -> Result<Text, AllocError>
    ensures exact { IfOk result (λ upper. upper ≡ map to_ascii_uppercase text.now) }
    ensures spelled { IfOk result (λ upper. chars upper ≡ map to_ascii_uppercase (chars text.now)) }
    ensures length { IfOk result (λ upper. code_points upper ≡ code_points text.now) }
{
    Ok(Text::from_string(text.to_ascii_uppercase(alloc)?))
}
