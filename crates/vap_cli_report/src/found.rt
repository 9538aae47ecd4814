//! What is found of policies at kinds.

ghost use Rattle.std.specs.Prelude.{◌≡◌, IfOk};
ghost use Rattle.vap_cli_report.specs.Reports.{told};

use crate::cause::{Cause, cause_of, no_cause};
use crate::charges::charges_of;
use crate::outcome::{Accepted, Elsewhere, Outcome, Refused};
use crate::scope::object_type_of;
use base_containers::{Items, Shared};
use cel_value::CelType;
use std::alloc::{AllocError, Global};
use vap_policy_programs::Pair;
use vap_policy_set::{BoundPolicy, KindPair, Misconfigured, PolicySet};
use vap_read_objects::{Kind, find_kind};

fn put_accepted(
    alloc: Global,
    bound: &BoundPolicy,
    pair: &KindPair,
    accepted: &mut Items<Accepted>,
) -> Result<(), AllocError> {
    match pair.made.get().pair() {
        Pair::Misconfigured(_) => Ok(()),
        Pair::Runs(programs) => {
            let policy = bound.name.copy()?;
            let group = pair.group.copy()?;
            let version = pair.version.copy()?;
            let kind = pair.kind.copy()?;
            let charges = charges_of(alloc, programs)?;
            accepted.push(Accepted {
                policy,
                group,
                version,
                kind,
                charges,
            })
        }
    }
}

fn put_accepted_of(
    alloc: Global,
    bound: &BoundPolicy,
    accepted: &mut Items<Accepted>,
) -> Result<(), AllocError> {
    for pair in bound.pairs.as_slice() {
        put_accepted(alloc, bound, pair, accepted)?;
    }
    Ok(())
}

/// The policies that are accepted, at each known kind that they name.
pub fn accepted_in(
    alloc: Global,
    policies: &[Shared<BoundPolicy>],
) -> Result<Items<Accepted>, AllocError> {
    let mut accepted = Items::new(alloc);
    for bound in policies {
        put_accepted_of(alloc, bound.get(), &mut accepted)?;
    }
    Ok(accepted)
}

fn is_at(pair: &KindPair, item: &Misconfigured) -> bool {
    pair.group.as_str() == item.group.as_str()
        && pair.version.as_str() == item.version.as_str()
        && pair.kind.as_str() == item.kind.as_str()
}

fn is_misconfigured(pair: &KindPair) -> bool {
    matches!(pair.made.get().pair(), Pair::Misconfigured(_))
}

fn is_misconfigured_at(bound: &BoundPolicy, item: &Misconfigured) -> bool {
    for pair in bound.pairs.as_slice() {
        if is_at(pair, item) && is_misconfigured(pair) {
            return true;
        }
    }
    false
}

/// The policy that an item of a set's report is about.
fn policy_of<'a>(
    policies: &'a [Shared<BoundPolicy>],
    item: &Misconfigured,
) -> Option<&'a BoundPolicy> {
    for bound in policies {
        let bound = bound.get();
        if bound.name.as_str() == item.policy.as_str() && is_misconfigured_at(bound, item) {
            return Some(bound);
        }
    }
    None
}

/// The type of the objects at the kind that an item of a set's report is about.
fn type_of<'a>(kinds: &'a [Kind], item: &Misconfigured) -> Option<&'a CelType> {
    let (group, version) = (item.group.as_str(), item.version.as_str());
    match find_kind(kinds, group, version, item.kind.as_str()) {
        Some(kind) => object_type_of(kind),
        None => None,
    }
}

fn cause_at(alloc: Global, set: &PolicySet, item: &Misconfigured) -> Result<Cause, AllocError> {
    match (policy_of(set.policies(), item), type_of(set.kinds(), item)) {
        (Some(bound), Some(object)) => {
            cause_of(alloc, set, bound.policy.spec.get(), object, item.fault)
        }
        // A set's report is about its own policies and kinds.
        _ => Ok(no_cause(alloc)),
    }
}

fn copied(item: &Misconfigured) -> Result<Misconfigured, AllocError>
    ensures { IfOk result (λ copy. copy ≡ item.now) }
{
    let policy = item.policy.copy()?;
    let group = item.group.copy()?;
    let version = item.version.copy()?;
    let kind = item.kind.copy()?;
    Ok(Misconfigured {
        policy,
        group,
        version,
        kind,
        fault: item.fault,
    })
}

fn refused_at(alloc: Global, set: &PolicySet, item: &Misconfigured) -> Result<Refused, AllocError>
    ensures { IfOk result (λ refused. refused.misconfigured ≡ item.now) }
{
    let misconfigured = copied(item)?;
    let cause = cause_at(alloc, set, item)?;
    Ok(Refused {
        misconfigured,
        cause,
    })
}

/// What is found where policies are misconfigured, in the order of a set's report.
pub fn causes_of(
    alloc: Global,
    set: &PolicySet,
    report: &[Misconfigured],
) -> Result<Items<Refused>, AllocError>
    ensures { IfOk result (λ refused. told refused ≡ report.now) }
{
    let mut refused = Items::new(alloc);
    for item in report {
        refused.push(refused_at(alloc, set, item)?)?;
    }
    Ok(refused)
}

/// What a policy is at the kinds that are not known.
fn outcome_of(alloc: Global, set: &PolicySet, bound: &BoundPolicy) -> Result<Outcome, AllocError> {
    match bound.other.get().pair() {
        Pair::Runs(programs) => Ok(Outcome::Accepted(charges_of(alloc, programs)?)),
        Pair::Misconfigured(fault) => {
            let policy = bound.policy.spec.get();
            let cause = cause_of(alloc, set, policy, &CelType::Opaque, *fault)?;
            Ok(Outcome::Refused(*fault, cause))
        }
    }
}

/// The policies that name no known kind.
pub fn elsewhere_in(alloc: Global, set: &PolicySet) -> Result<Items<Elsewhere>, AllocError> {
    let mut elsewhere = Items::new(alloc);
    for bound in set.policies() {
        let bound = bound.get();
        if bound.pairs.is_empty() {
            let policy = bound.name.copy()?;
            let outcome = outcome_of(alloc, set, bound)?;
            elsewhere.push(Elsewhere { policy, outcome })?;
        }
    }
    Ok(elsewhere)
}
