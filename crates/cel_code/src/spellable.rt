//! Which numbers, texts and types have a spelling.

ghost use Rattle.std.specs.Prelude.{◌≡◌, false};
ghost use Rattle.cel_code.specs.Spelling.{is_short, is_text, is_list, is_field, is_spellable};

use crate::types::comes_after;
use base_containers::TextMap;
use cel_value::{CelType, Field};

/// How many levels a type may have.
pub const MOST_LEVELS: u32 = 100;

/// Whether a number is spelt by four bytes.
pub fn is_short(number: usize) -> bool
    ensures { result ≡ is_short number }
{
    number < 4_294_967_296
}

/// Whether the length of a text is spelt by four bytes.
#[tactic(auto, using(crate::proofs::Texts::is_seen))]
pub fn is_text(text: &str) -> bool
    ensures { result ≡ is_text text.now }
{
    is_short(text.len())
}

/// Whether a type has a spelling, given that it may have so many levels.
#[cycle(spellable)]
pub fn is_spellable(cel_type: &CelType, depth: u32, in_nullable: bool) -> bool
    ensures { result ≡ is_spellable cel_type.now depth in_nullable }
{
    if depth == 0 {
        return false;
    }
    match cel_type {
        CelType::Never => !in_nullable,
        CelType::Null => !in_nullable,
        CelType::Bool => true,
        CelType::Int => true,
        CelType::Uint => true,
        CelType::Text { max } => is_short(*max as usize),
        CelType::List { max, item, .. } => {
            is_short(*max as usize) && is_spellable(item.get(), depth - 1, false)
        }
        CelType::Map { max, key_max, item } => {
            is_short(*max as usize)
                && is_short(*key_max as usize)
                && is_spellable(item.get(), depth - 1, false)
        }
        CelType::Object { fields } => are_spellable(fields.get(), depth - 1),
        CelType::Nullable(item) => !in_nullable && is_spellable(item.get(), depth - 1, true),
        CelType::Opaque => true,
        CelType::Timestamp => true,
        CelType::Duration => true,
    }
}

#[cycle(spellable)]
fn are_spellable(fields: &TextMap<Field<CelType>>, depth: u32) -> bool
    ensures { result ≡ is_list (is_field (λ t. is_spellable t depth false)) fields.now }
{
    let fields = fields.as_slice();
    if !is_short(fields.len()) {
        return false;
    }
    for (place, field) in fields.iter().enumerate() {
        let name = field.key.as_str();
        if !is_text(name)
            || !comes_after(&fields[..place], name)
            || !is_spellable(&field.value.cel_type, depth, false)
        {
            return false;
        }
    }
    true
}
