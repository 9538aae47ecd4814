//! Whether a request is judged, and of which kind it is.

ghost use Rattle.std.specs.Prelude.{◌≡◌};
ghost use Rattle.std.specs.Option.{option_copied};
ghost use Rattle.vap_policy.specs.Places.{is_exempt, is_resource_of, kind_at};

use vap_match::{Admission, Resource};
use vap_read_objects::{Kind, find_kind};

/// Whether a request is on policies or bindings themselves, which are not judged.
pub fn is_exempt(resource: &Resource) -> bool
    ensures { result ≡ is_exempt resource.now }
{
    let name = resource.resource.as_str();
    resource.group.as_str() == "admissionregistration.k8s.io"
        && (name == "validatingadmissionpolicies" || name == "validatingadmissionpolicybindings")
}

fn is_resource_of(kind: &Kind, resource: &Resource) -> bool
    ensures { result ≡ is_resource_of kind.now resource.now }
{
    kind.object_type.is_some()
        && kind.group.as_str() == resource.group.as_str()
        && kind.version.as_str() == resource.version.as_str()
        && kind.plural.as_str() == resource.resource.as_str()
}

/// The known kind of a request, if the request is on its resource.
pub fn kind_at<'a>(kinds: &'a [Kind], request: &Admission) -> Option<&'a Kind>
    ensures { option_copied result ≡ kind_at kinds.now request.now }
{
    let asked = &request.kind;
    let kind = find_kind(
        kinds,
        asked.group.as_str(),
        asked.version.as_str(),
        asked.kind.as_str(),
    )?;
    if is_resource_of(kind, &request.resource) {
        Some(kind)
    } else {
        None
    }
}
