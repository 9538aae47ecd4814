//! What a line asks.

use serde_json::Value as Json;
use std::alloc::{AllocError, Global};
use vap_match::{items_in, text_in};

/// What a line asks: a part of the libraries, the name of a call of that part, what the call is given beside its input, and
/// its input.
#[derive(Clone, Copy)]
pub struct Asked<'a> {
    pub part: &'a str,
    pub call: &'a str,
    pub with: &'a [Json],
    pub input: &'a str,
}

impl<'a> Asked<'a> {
    /// What a line asks. The text of a member that is absent is empty.
    pub fn of(line: &'a Json) -> Self {
        let (part, call) = text_in(line, "call").split_once('.').unwrap_or(("", ""));
        Asked {
            part,
            call,
            with: items_in(line, "with"),
            input: text_in(line, "input"),
        }
    }

    /// A text that the call is given beside its input, empty if there is none at this place.
    pub fn text(&self, place: usize) -> &'a str {
        match self.with.get(place) {
            Some(Json::String(text)) => text.as_str(),
            _ => "",
        }
    }

    /// A number that the call is given beside its input, 0 if there is none at this place.
    pub fn number(&self, place: usize) -> u64 {
        match self.with.get(place) {
            Some(json) => json.as_u64().unwrap_or(0),
            None => 0,
        }
    }
}

/// What is answered if there is no such call.
pub fn unknown(alloc: Global) -> Result<String, AllocError> {
    String::from_str(alloc, "no such call")
}
