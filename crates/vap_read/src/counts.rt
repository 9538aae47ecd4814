//! How many items the lists of a policy may have.

ghost use Rattle.std.specs.Prelude.{◌≡◌};
ghost use Rattle.serde_json.specs.View.{view};
ghost use Rattle.vap_read.specs.PolicyForm.{has_at_most, has_few};

use serde_json::Value as Json;
use vap_match::items_in;

fn has_at_most(json: &Json, name: &str, limit: usize) -> bool
    ensures { result ≡ has_at_most limit name.now (view json.now) }
{
    items_in(json, name).len() <= limit
}

/// Whether each list of a policy is within its limit.
pub fn has_few(json: &Json) -> bool
    ensures { result ≡ has_few (view json.now) }
{
    has_at_most(json, "matchConditions", 64)
        && has_at_most(json, "auditAnnotations", 20)
        && has_at_most(json, "variables", 128)
        && has_at_most(json, "validations", 128)
}
