//! The literal texts that `matches` is given in a text's expression.

ghost use Rattle.std.specs.Prelude.{◌≡◌, ◌++◌, OnOk};
ghost use Rattle.cel_expression.specs.Patterns.{patterns_of};

use base_containers::Text;
use cel_check::gather_patterns;
use cel_parse::{ParseError, parse};
use std::alloc::{AllocError, Global};

/// Puts each literal text that `matches` is given in a text's expression after the texts that are there, from left to right.
pub fn gather_texts(alloc: Global, text: &str, texts: &mut Vec<Text>) -> Result<(), AllocError>
    ensures { OnOk result (texts.new.items ≡ texts.old.items ++ patterns_of text.now) }
{
    match parse(alloc, text) {
        Ok(expression) => gather_patterns(&expression, texts),
        Err(ParseError::Fault(_)) => Ok(()),
        Err(ParseError::OutOfMemory) => Err(AllocError),
    }
}
