//! Policies, bindings and definitions by their names.

ghost use Rattle.std.specs.Prelude.{◌≡◌, ◌++◌, IfOk, OnOk};
ghost use Rattle.vap_read_objects.specs.ByName.{Adds};
ghost use Rattle.vap_read_objects.specs.Listed.{policy_by, policies_in, binding_by, bindings_in};
ghost use Rattle.vap_read_objects.specs.Listed.{if_bound, bindings_of, definitions_in};

use crate::by_name::put_named;
use base_containers::{Items, Keyed, Shared};
use std::alloc::{AllocError, Global};
use vap_read::{Binding, Content, Key, Object, ObjectMap, Policy};

/// The version of policies and of bindings.
const POLICY_VERSION: &str = "admissionregistration.k8s.io/v1";

fn add_policy(
    key: &Key,
    object: &Object,
    policies: &mut Vec<Keyed<Policy>>,
) -> Result<(), AllocError>
    ensures { OnOk result (Adds (policy_by key.now.name object.now.content) policies.old.items policies.new.items) }
{
    match &object.content {
        Content::Policy(policy) => put_named(policies, key.name.copy()?, policy.copy()?),
        Content::Binding(_) => Ok(()),
        Content::Other => Ok(()),
    }
}

/// The policies by their names.
pub fn policies_in(alloc: Global, objects: &ObjectMap) -> Result<Items<Keyed<Policy>>, AllocError>
    ensures { IfOk result (λ policies. policies ≡ policies_in objects.now) }
{
    let mut policies = Vec::new(alloc);
    for (key, object) in objects.of_kind(alloc, POLICY_VERSION, "ValidatingAdmissionPolicy")? {
        add_policy(key, object.get(), &mut policies)?;
    }
    Ok(Items::from_vec(policies))
}

fn add_binding(
    key: &Key,
    object: &Object,
    bindings: &mut Vec<Keyed<Binding>>,
) -> Result<(), AllocError>
    ensures { OnOk result (Adds (binding_by key.now.name object.now.content) bindings.old.items bindings.new.items) }
{
    match &object.content {
        Content::Policy(_) => Ok(()),
        Content::Binding(binding) => put_named(bindings, key.name.copy()?, binding.copy()?),
        Content::Other => Ok(()),
    }
}

/// The bindings by their names.
pub fn bindings_in(alloc: Global, objects: &ObjectMap) -> Result<Items<Keyed<Binding>>, AllocError>
    ensures { IfOk result (λ bindings. bindings ≡ bindings_in objects.now) }
{
    let mut bindings = Vec::new(alloc);
    for (key, object) in objects.of_kind(
        alloc,
        POLICY_VERSION,
        "ValidatingAdmissionPolicyBinding",
    )? {
        add_binding(key, object.get(), &mut bindings)?;
    }
    Ok(Items::from_vec(bindings))
}

#[tactic(auto, unfolding(crate::specs::Listed::if_bound))]
fn add_if_bound(
    policy: &str,
    binding: &Keyed<Binding>,
    bound: &mut Vec<Keyed<Binding>>,
) -> Result<(), AllocError>
    ensures { OnOk result (bound.new.items ≡ bound.old.items ++ if_bound policy.now binding.now) }
{
    if binding.value.spec.get().policy_name.as_str() == policy {
        bound.push(Keyed {
            key: binding.key.copy()?,
            value: binding.value.copy()?,
        })?;
    }
    Ok(())
}

/// The bindings of the policy of a name, in their order.
pub fn bindings_of(
    alloc: Global,
    policy: &str,
    bindings: &[Keyed<Binding>],
) -> Result<Items<Keyed<Binding>>, AllocError>
    ensures { IfOk result (λ bound. bound ≡ bindings_of policy.now bindings.now) }
{
    let mut bound = Vec::new(alloc);
    for binding in bindings {
        add_if_bound(policy, binding, &mut bound)?;
    }
    Ok(Items::from_vec(bound))
}

/// The definitions of kinds by their names.
pub fn definitions_in(
    alloc: Global,
    objects: &ObjectMap,
) -> Result<Items<Keyed<Shared<Object>>>, AllocError>
    ensures { IfOk result (λ definitions. definitions ≡ definitions_in objects.now) }
{
    let mut definitions = Vec::new(alloc);
    for (key, object) in objects.of_kind(
        alloc,
        "apiextensions.k8s.io/v1",
        "CustomResourceDefinition",
    )? {
        put_named(&mut definitions, key.name.copy()?, object.share()?)?;
    }
    Ok(Items::from_vec(definitions))
}
