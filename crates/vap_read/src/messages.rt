//! What is said if a validation is false: one line.

ghost use Rattle.std.specs.Prelude.{◌≡◌, codes};
ghost use Rattle.serde_json.specs.View.{view, items_view};
ghost use Rattle.vap_match.specs.Forms.{all_items};
ghost use Rattle.vap_read.specs.PolicyForm.{list_in, has_break, is_message, has_message};

use serde_json::Value as Json;
use vap_match::{items_in, text_in};

fn has_break(text: &str) -> bool
    ensures { result ≡ has_break text.now }
{
    for byte in text.as_bytes() {
        if *byte == b'\n' || *byte == b'\r' {
            return true;
        }
    }
    false
}

fn is_message(expression: &str, message: &str) -> bool
    ensures { result ≡ is_message expression.now message.now }
{
    !has_break(message) && (!has_break(expression) || message != "")
}

fn each_has_message(items: &[Json]) -> bool
    ensures { result ≡ all_items has_message (items_view items.now) }
{
    for item in items {
        if !is_message(text_in(item, "expression"), text_in(item, "message")) {
            return false;
        }
    }
    true
}

/// Whether each validation of a policy has a message that is allowed.
pub fn have_messages(json: &Json) -> bool
    ensures { result ≡ all_items has_message (list_in (codes "validations") (view json.now)) }
{
    each_has_message(items_in(json, "validations"))
}
