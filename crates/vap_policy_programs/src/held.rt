//! What the first names of a policy's expressions hold.

ghost use Rattle.std.specs.Prelude.{◌≡◌, IfOk, Some, codes, true};
ghost use Rattle.std.specs.Option.{option_copied};
ghost use Rattle.cel_value.specs.CelType.{fits};
ghost use Rattle.cel_value.specs.declared.cel_type.CelType as type;
ghost use Rattle.cel_operators.specs.Outcomes.{outcome_fits};
ghost use Rattle.vap_match.specs.Requests.{object_of, old_object_of};
ghost use Rattle.vap_read_objects.specs.FixedKinds.{namespace_type};
ghost use Rattle.vap_policy_programs.specs.Held.{IsHeldAt, held_at, held_namespace, namespace_value, old_outcome};
ghost use Rattle.vap_policy_programs.specs.Held.{value_at};

use crate::fixed_types::FixedTypes;
use crate::values::request_value;
use base_containers::Part;
use cel_value::{CelError, CelType, Value};
use std::alloc::{AllocError, Global};
use vap_match::{Admission, OpenRequest, is_cluster};
use vap_read::Object;
use vap_schema::{FitError, FitFault, fit};

/// What all names except `params` hold at a request.
pub struct Held {
    pub object: Value,
    pub old_object: Result<Value, CelError>,
    pub request: Value,
    /// The object of the request's namespace.
    pub namespace: Value,
}

impl Drop for Held {
    fn drop(self) {
        let Held {
            object: _object,
            old_object: _old_object,
            request: _request,
            namespace: _namespace,
        } = self;
    }
}

/// What a document is at a type, null if there is none.
fn value_at(
    alloc: Global,
    root: &str,
    cel_type: &CelType,
    document: Option<&Part<'_, '_>>,
) -> Result<Result<Value, FitFault>, AllocError>
    ensures exact { IfOk result (λ seen. seen ≡ value_at root.now cel_type.now (option_copied document.entry)) }
    ensures fits { IfOk result (λ seen. IfOk seen (λ v. fits v (type.Nullable cel_type.now) ≡ true)) }
{
    match document {
        None => Ok(Ok(Value::Null)),
        Some(document) => match fit(alloc, document, cel_type, root) {
            Ok(value) => Ok(Ok(value)),
            Err(FitError::Fault(fault)) => Ok(Err(fault)),
            Err(FitError::OutOfMemory) => Err(AllocError),
        },
    }
}

/// The object as it was; one that does not fit is an error.
fn old_outcome(
    alloc: Global,
    cel_type: &CelType,
    request: &OpenRequest<'_, '_, '_>,
) -> Result<Result<Value, CelError>, AllocError>
    ensures exact { IfOk result (λ outcome. outcome
        ≡ old_outcome (value_at (codes "oldObject") cel_type.now (old_object_of request.now.request.now.admission))) }
    ensures fits { IfOk result (λ outcome. outcome_fits (type.Nullable cel_type.now) (Some outcome) ≡ true) }
{
    match value_at(alloc, "oldObject", cel_type, request.old_object())? {
        Ok(value) => Ok(Ok(value)),
        Err(_) => Ok(Err(CelError::BadConversion)),
    }
}

fn held_namespace(alloc: Global, types: &FixedTypes, object: &Object) -> Result<Value, AllocError>
    ensures exact { IfOk result (λ v. v ≡ held_namespace (Some object.now)) }
    ensures fits { IfOk result (λ v. fits v (type.Nullable namespace_type) ≡ true) }
{
    let document = Part::of_tree(object.document.json());
    let cel_type = types.namespace().get();
    match value_at(alloc, "namespaceObject", cel_type, Some(&document))? {
        Ok(value) => Ok(value),
        Err(_) => Ok(Value::Null),
    }
}

/// The Namespace that a request is in, if it is in one and it is held.
fn namespace_value(
    alloc: Global,
    types: &FixedTypes,
    namespace: Option<&Object>,
    request: &Admission,
) -> Result<Value, AllocError>
    ensures exact { IfOk result (λ v. v ≡ namespace_value (option_copied namespace.entry) request.now) }
    ensures fits { IfOk result (λ v. fits v (type.Nullable namespace_type) ≡ true) }
{
    if is_cluster(request) {
        return Ok(Value::Null);
    }
    match namespace {
        Some(object) => held_namespace(alloc, types, object),
        None => Ok(Value::Null),
    }
}

/// What `object` holds at a request whose objects are of this type, or the fault of the object.
pub fn object_at(
    alloc: Global,
    cel_type: &CelType,
    request: &OpenRequest<'_, '_, '_>,
) -> Result<Result<Value, FitFault>, AllocError>
    ensures exact { IfOk result (λ seen. seen
        ≡ value_at (codes "object") cel_type.now (object_of request.now.request.now.admission)) }
    ensures fits { IfOk result (λ seen. IfOk seen (λ v. fits v (type.Nullable cel_type.now) ≡ true)) }
{
    value_at(alloc, "object", cel_type, request.object())
}

/// What all names except `params` hold at a request whose objects are of this type, or the fault of the object. The Namespace is
/// the one that has the name of the request's namespace, if it is held.
pub fn held_at(
    alloc: Global,
    types: &FixedTypes,
    namespace: Option<&Object>,
    cel_type: &CelType,
    request: &OpenRequest<'_, '_, '_>,
) -> Result<Result<Held, FitFault>, AllocError>
    ensures exact { IfOk result
        (λ held. held ≡ held_at (option_copied namespace.entry) cel_type.now request.now.request.now.admission) }
    ensures fits { IfOk result (λ held. IfOk held (IsHeldAt cel_type.now)) }
{
    match object_at(alloc, cel_type, request)? {
        Ok(object) => Ok(Ok(Held {
            object,
            old_object: old_outcome(alloc, cel_type, request)?,
            request: request_value(alloc, request.request)?,
            namespace: namespace_value(alloc, types, namespace, request.request.admission())?,
        })),
        Err(fault) => Ok(Err(fault)),
    }
}
