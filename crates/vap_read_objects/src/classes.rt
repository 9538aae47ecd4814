//! The classes of keys.

ghost use Rattle.std.specs.Prelude.{◌≡◌};
ghost use Rattle.vap_read.specs.Keys.{is_of};
ghost use Rattle.vap_read_objects.specs.Classes.{is_binding, is_policy, is_rule};

use crate::definition::is_definition;
use vap_read::Key;

/// Whether a key is one of this version and kind.
pub fn is_of(api_version: &str, kind: &str, key: &Key) -> bool
    ensures { result ≡ is_of api_version.now kind.now key.now }
{
    key.api_version.as_str() == api_version && key.kind.as_str() == kind
}

/// Whether a key is that of a policy.
pub fn is_policy(key: &Key) -> bool
    ensures { result ≡ is_policy key.now }
{
    is_of(
        "admissionregistration.k8s.io/v1",
        "ValidatingAdmissionPolicy",
        key,
    )
}

/// Whether a key is that of a binding.
pub fn is_binding(key: &Key) -> bool
    ensures { result ≡ is_binding key.now }
{
    is_of(
        "admissionregistration.k8s.io/v1",
        "ValidatingAdmissionPolicyBinding",
        key,
    )
}

/// Whether a key is that of a policy, a binding or a definition.
pub fn is_rule(key: &Key) -> bool
    ensures { result ≡ is_rule key.now }
{
    is_policy(key) || is_binding(key) || is_definition(key)
}
