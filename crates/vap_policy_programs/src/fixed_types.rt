//! The types of the names that have the same type at each kind.

ghost use Rattle.std.specs.Prelude.{◌≡◌};
ghost use Rattle.vap_read_objects.specs.FixedKinds.{namespace_type};
ghost use Rattle.vap_policy_programs.specs.RequestType.{request_type};

use crate::types::request_type;
use base_containers::Shared;
use cel_value::CelType;
use std::alloc::{AllocError, Global};
use std::marker::Model;
use vap_read_objects::namespace_type;

/// The types of the names that have the same type at each kind. They never change, so that contracts see nothing of them.
pub struct FixedTypes {
    request: CelType,
    namespace: Shared<CelType>,
}

impl Drop for FixedTypes {
    fn drop(self) {
        let FixedTypes {
            request: _request,
            namespace: _namespace,
        } = self;
    }
}

impl Model for FixedTypes {
    ghost use Rattle.std.specs.Prelude.{◌≡◌};
    ghost use Rattle.vap_read_objects.specs.FixedKinds.{namespace_type};
    ghost use Rattle.vap_policy_programs.specs.RequestType.{request_type};

    ghost Value = { Unit {0} };

    ghost view = { λ _. tt };

    ghost invariant = { λ t. (t.request ≡ request_type) × (t.namespace ≡ namespace_type) };
}

impl FixedTypes {
    /// Makes the types.
    pub fn new(alloc: Global) -> Result<FixedTypes, AllocError> {
        Ok(FixedTypes {
            request: request_type(alloc)?,
            namespace: Shared::new(alloc, namespace_type(alloc)?)?,
        })
    }

    /// The type of `request`.
    pub fn request(&self) -> &CelType
        ensures { result.now ≡ request_type }
    {
        &self.request
    }

    /// The type of a Namespace.
    pub fn namespace(&self) -> &Shared<CelType>
        ensures { result.now ≡ namespace_type }
    {
        &self.namespace
    }
}
