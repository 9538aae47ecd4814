//! Which kind an apiVersion and a kind name.

ghost use Rattle.std.specs.Prelude.{◌≡◌, if◌then◌else◌, None};
ghost use Rattle.std.specs.Option.{option_copied};
ghost use Rattle.vap_read_objects.specs.Kinds.{kind_named};
ghost use Rattle.vap_read_objects.specs.Naming.{has_slash, kind_of_params, spelled};

use crate::kind::{Kind, find_kind};
use vap_read::ParamKind;

/// The kind of params that a policy names, if it is known or refused.
pub fn kind_of_params<'a>(kinds: &'a [Kind], params: &ParamKind) -> Option<&'a Kind>
    ensures { option_copied result ≡ kind_of_params kinds.now params.now }
{
    let text = params.api_version.as_str();
    match text.split_once('/') {
        Some((group, version)) => find_grouped(kinds, group, version, params.kind.as_str()),
        None => find_kind(kinds, "", text, params.kind.as_str()),
    }
}

/// The kind of a group and a version, which has no slash.
fn find_grouped<'a>(kinds: &'a [Kind], group: &str, version: &str, kind: &str) -> Option<&'a Kind>
    ensures { option_copied result
        ≡ (if has_slash version.now then None else kind_named group.now version.now kind.now kinds.now) }
{
    match version.split_once('/') {
        Some(_) => None,
        None => find_kind(kinds, group, version, kind),
    }
}

/// An apiVersion as objects spell it: without the slash of an empty group.
pub fn spelled(api_version: &str) -> &str
    ensures { result.now ≡ spelled api_version.now }
{
    match api_version.strip_prefix('/') {
        Some(version) => version,
        None => api_version,
    }
}
