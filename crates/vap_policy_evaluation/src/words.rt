//! What is said of a failure.

ghost use Rattle.std.specs.Prelude.{◌≡◌, IfOk};
ghost use Rattle.vap_read.specs.PolicyForm.{has_break};
ghost use Rattle.vap_policy_evaluation.specs.Words.{condition_error, expression_error, is_blank, can_tell, written, told_or};

use base_containers::Text;
use cel_value::{CelError, Value};
use std::alloc::{AllocError, Global};

pub fn condition_error(alloc: Global, name: &Text, error: CelError) -> Result<Text, AllocError>
    ensures { IfOk result (λ text. text ≡ condition_error name.now error) }
{
    let name = name.as_str();
    let error = error.name();
    Ok(Text::from_string(format!(in alloc; "match condition '{name}' resulted in error: {error}")?))
}

pub fn expression_error(
    alloc: Global,
    expression: &Text,
    error: CelError,
) -> Result<Text, AllocError>
    ensures { IfOk result (λ text. text ≡ expression_error expression.now error) }
{
    let expression = expression.as_str();
    let error = error.name();
    Ok(Text::from_string(format!(in alloc;
        "expression '{expression}' resulted in error: {error}"
    )?))
}

fn is_blank(text: &[u8]) -> bool
    ensures { result ≡ is_blank text.now }
{
    for byte in text {
        if *byte != b' ' {
            return false;
        }
    }
    true
}

fn has_break(text: &[u8]) -> bool
    ensures { result ≡ has_break text.now }
{
    for byte in text {
        if *byte == b'\n' || *byte == b'\r' {
            return true;
        }
    }
    false
}

fn can_be_told(text: &Text) -> bool
    ensures { result ≡ can_tell text.now }
{
    let bytes = text.as_str().as_bytes();
    !is_blank(bytes) && !has_break(bytes)
}

/// The message that is written, or else the expression.
pub fn written(alloc: Global, expression: &Text, message: &Option<Text>) -> Result<Text, AllocError>
    ensures { IfOk result (λ text. text ≡ written expression.now message.now) }
{
    if let Some(text) = message {
        if text.as_str().len() > 0 {
            return text.copy();
        }
    }
    let expression = expression.as_str();
    Ok(Text::from_string(format!(in alloc; "failed expression: {expression}")?))
}

/// The text that an outcome is, if it can be reported, or else another.
pub fn told_or(outcome: Result<Value, CelError>, rest: Text) -> Text
    ensures { result ≡ told_or outcome rest }
{
    match outcome {
        Ok(Value::Text(text)) => { if can_be_told(&text) { text } else { rest } }
        _ => rest,
    }
}
