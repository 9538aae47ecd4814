//! What the questions of rows and their answers have in common.

use base_containers::Text;
use cel_value::{Value, to_json};
use serde_json::Value as Json;
use std::alloc::{AllocError, Global};

/// A JSON text's value. A text that is no JSON is as null, which is no question.
pub fn json(alloc: Global, text: &str) -> Result<Json, AllocError> {
    match Json::from_str(alloc, text) {
        Ok(json) => Ok(json),
        Err(error) if error.is_memory() => Err(AllocError),
        Err(_) => Ok(Json::Null),
    }
}

/// An answer as a JSON string.
pub fn quoted(alloc: Global, answer: String) -> Result<String, AllocError> {
    to_json(alloc, &Value::Text(Text::from_string(answer)))
}

/// What is answered to a question that cannot be read.
pub fn unreadable(alloc: Global) -> Result<String, AllocError> {
    String::from_str(alloc, "unreadable")
}
