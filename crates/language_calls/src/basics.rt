//! Containers, values, schemas, tokens, texts, patterns and names.

pub mod containers;
pub mod names;
pub mod patterns;
pub mod schemas;
pub mod texts;
pub mod tokens;
pub mod values;
