//! How long texts may be.

ghost use Rattle.std.specs.Prelude.{◌≡◌};
ghost use Rattle.serde_json.specs.View.{view};
ghost use Rattle.vap_match.specs.TextLimits.{is_short, short_at};

use crate::parts::text_in;
use serde_json::Value as Json;

/// Whether a text has at most so many characters.
pub fn is_short(text: &str, limit: usize) -> bool
    ensures { result ≡ is_short limit text.now }
{
    text.len() <= limit || text.chars().count() <= limit
}

/// Whether the text of a member has at most so many characters; a member that is no text passes.
pub fn short_at(json: &Json, name: &str, limit: usize) -> bool
    ensures { result ≡ short_at limit name.now (view json.now) }
{
    is_short(text_in(json, name), limit)
}
