ghost use Rattle.std.specs.Prelude.{◌≡◌, option_copied, slice_get};
ghost use Rattle.cel_code.specs.Machine.{constant_text};
ghost use Rattle.cel_verify.specs.StackTypes.{constant_type, text_type};

use cel_code::Image;
use cel_value::{CelType, Value, code_points};

/// The type of a constant, if there is one and its value may be one: null, a truth value, a number or a text.
pub fn constant_type(image: &Image, number: usize) -> Option<CelType>
    ensures { result ≡ constant_type (slice_get image.now.constants number) }
{
    match image.constants.get(number) {
        Some(Value::Null) => Some(CelType::Null),
        Some(Value::Bool(_)) => Some(CelType::Bool),
        Some(Value::Int(_)) => Some(CelType::Int),
        Some(Value::Uint(_)) => Some(CelType::Uint),
        Some(Value::Text(text)) => text_type(text.as_str()),
        _ => None,
    }
}

// The type of a constant text, which has at most its own length.
fn text_type(text: &str) -> Option<CelType>
    ensures { result ≡ text_type text.now }
{
    match u32::try_from(code_points(text)) {
        Ok(max) => Some(CelType::Text { max }),
        Err(_) => None,
    }
}

/// The text that a constant is, if it is one.
pub fn constant_text(image: &Image, number: usize) -> Option<&str>
    ensures { option_copied result ≡ constant_text (slice_get image.now.constants number) }
{
    match image.constants.get(number) {
        Some(Value::Text(text)) => Some(text.as_str()),
        _ => None,
    }
}
