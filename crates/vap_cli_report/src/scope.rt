//! The names that the expressions of a policy see at a kind.

use base_containers::{Items, Keyed, Shared, Text};
use cel_value::CelType;
use std::alloc::{AllocError, Global};
use vap_policy_set::PolicySet;
use vap_read::PolicySpec;
use vap_read_objects::{Kind, kind_of_params};

/// Names with their types, in the order of their slots.
pub type Names = Shared<Items<Keyed<CelType>>>;

fn put_name(
    alloc: Global,
    name: &str,
    cel_type: &CelType,
    names: &mut Items<Keyed<CelType>>,
) -> Result<(), AllocError> {
    let key = Text::from_str(alloc, name)?;
    let value = cel_type.copy()?;
    names.push(Keyed { key, value })
}

/// A name of what may be null.
fn put_nullable(
    alloc: Global,
    name: &str,
    cel_type: &CelType,
    names: &mut Items<Keyed<CelType>>,
) -> Result<(), AllocError> {
    let inner = Shared::new(alloc, cel_type.copy()?)?;
    put_name(alloc, name, &CelType::Nullable(inner), names)
}

/// The type of the objects of a kind, unless its schema is refused.
pub fn object_type_of(kind: &Kind) -> Option<&CelType> {
    match &kind.object_type {
        Some(cel_type) => Some(cel_type),
        None => None,
    }
}

/// The type of a policy's params, if it names a kind of them that is known.
fn params_type<'a>(kinds: &'a [Kind], policy: &PolicySpec) -> Option<&'a CelType> {
    match &policy.param_kind {
        Some(params) => match kind_of_params(kinds, params) {
            Some(kind) => object_type_of(kind),
            None => None,
        },
        None => None,
    }
}

/// The names that each expression of a policy sees if the objects are of a type.
pub fn names_at(
    alloc: Global,
    set: &PolicySet,
    policy: &PolicySpec,
    object: &CelType,
) -> Result<Names, AllocError> {
    let fixed = set.fixed_types();
    let mut names = Items::new(alloc);
    put_nullable(alloc, "object", object, &mut names)?;
    put_nullable(alloc, "oldObject", object, &mut names)?;
    put_name(alloc, "request", fixed.request(), &mut names)?;
    match params_type(set.kinds(), policy) {
        Some(params) => put_nullable(alloc, "params", params, &mut names)?,
        None => put_name(alloc, "params", &CelType::Null, &mut names)?,
    }
    put_nullable(
        alloc,
        "namespaceObject",
        fixed.namespace().get(),
        &mut names,
    )?;
    Shared::new(alloc, names)
}

/// The names with one variable more.
pub fn with_variable(
    alloc: Global,
    names: &Names,
    name: &str,
    cel_type: &CelType,
) -> Result<Names, AllocError> {
    let mut more = Items::new(alloc);
    for known in names.get().as_slice() {
        put_name(alloc, known.key.as_str(), &known.value, &mut more)?;
    }
    let variable = format!(in alloc; "variables.{name}")?;
    put_name(alloc, variable.as_str(), cel_type, &mut more)?;
    Shared::new(alloc, more)
}
