ghost use Rattle.std.specs.Prelude.{◌≡◌, ◌+◌, ◌-◌, ◌*◌, ◌++◌, length, sum_by, IfOk, IfSome, option_copied};
ghost use Rattle.std.specs.Str.{chars};
ghost use Rattle.cel_value.specs.Value.{code_points, length_of};
ghost use Rattle.cel_operators.specs.Joined.{text_of, joined};

use base_containers::Text;
use cel_value::Value;
use std::alloc::{AllocError, Global};

/// A text, and another after it.
pub fn concat(alloc: Global, left: &str, right: &str) -> Result<Text, AllocError>
    ensures exact { IfOk result (λ text. text ≡ left.now ++ right.now) }
    ensures spelled { IfOk result (λ text. chars text ≡ chars left.now ++ chars right.now) }
    ensures length { IfOk result (λ text. code_points text ≡ code_points left.now + code_points right.now) }
{
    let mut text = String::from_str(alloc, left)?;
    text.push_str(right)?;
    Ok(Text::from_string(text))
}

/// The texts that values are, in their order, with a separator between each two. Nothing if a value is no text.
pub fn joined(alloc: Global, parts: &[Value], separator: &str) -> Result<Option<Text>, AllocError>
    ensures exact { IfOk result (λ text. text ≡ joined separator.now parts.now) }
    ensures length { IfOk result (λ text. IfSome text (λ text.
        code_points text ≡ sum_by length_of parts.now + (length parts.now - 1) * code_points separator.now)) }
{
    let [first, rest @ ..] = parts else {
        return Ok(Some(Text::from_string(String::new(alloc))));
    };
    let Some(first) = text_in(first) else {
        return Ok(None);
    };
    let mut text = String::from_str(alloc, first)?;
    for part in rest {
        let Some(part) = text_in(part) else {
            return Ok(None);
        };
        text.push_str(separator)?;
        text.push_str(part)?;
    }
    Ok(Some(Text::from_string(text)))
}

/// The text that a value is, if it is one.
fn text_in(value: &Value) -> Option<&str>
    ensures { option_copied result ≡ text_of value.now }
{
    match value {
        Value::Text(text) => Some(text.as_str()),
        _ => None,
    }
}
