//! Where policies are misconfigured.

ghost use Rattle.std.specs.Prelude.{◌≡◌, ◌++◌, IfOk, OnOk};
ghost use Rattle.std.specs.Cmp.Lexicographic.{slice_cmp};
ghost use Rattle.std.specs.Ordering.{nat_cmp};
ghost use Rattle.vap_policy_set.specs.Sets.{misconfigured_at, misconfigured_in, report_cmp, IsReport};

use crate::bound::{BoundPolicy, KindPair};
use base_containers::{Items, Shared, Text};
use std::alloc::{AllocError, Global};
use std::cmp::Ordering;
use vap_policy_programs::{Pair, PairFault};

/// A policy that is misconfigured at a kind, and why.
#[derive(Drop)]
pub struct Misconfigured {
    pub policy: Text,
    pub group: Text,
    pub version: Text,
    pub kind: Text,
    pub fault: PairFault,
}

#[tactic(auto, unfolding(crate::specs::Sets::misconfigured_at))]
fn put_at(policy: &Text, pair: &KindPair, report: &mut Vec<Misconfigured>) -> Result<(), AllocError>
    ensures { OnOk result (report.new.items ≡ report.old.items ++ misconfigured_at policy.now pair.now) }
{
    match pair.made.get().pair() {
        Pair::Runs(_) => Ok(()),
        Pair::Misconfigured(fault) => {
            let policy = policy.copy()?;
            let group = pair.group.copy()?;
            let version = pair.version.copy()?;
            let kind = pair.kind.copy()?;
            report.push(Misconfigured {
                policy,
                group,
                version,
                kind,
                fault: *fault,
            })?;
            Ok(())
        }
    }
}

fn put_in(policy: &BoundPolicy, report: &mut Vec<Misconfigured>) -> Result<(), AllocError>
    ensures { OnOk result (report.new.items ≡ report.old.items ++ misconfigured_in policy.now) }
{
    for pair in policy.pairs.as_slice() {
        put_at(&policy.name, pair, report)?;
    }
    Ok(())
}

/// The order of texts, by their bytes.
pub fn order(left: &Text, right: &Text) -> Ordering
    ensures { result ≡ slice_cmp nat_cmp left.now right.now }
{
    left.as_str().cmp(right.as_str())
}

fn report_order(left: &Misconfigured, right: &Misconfigured) -> Ordering
    ensures { result ≡ report_cmp left.now right.now }
{
    order(&left.policy, &right.policy).then(order(&left.group, &right.group).then(order(
        &left.version,
        &right.version,
    ).then(order(&left.kind, &right.kind))))
}

/// Where policies are misconfigured: by the policy's name, by group, by version and by kind. Of two that are the same in these,
/// the one of the policy that comes first comes first.
pub fn report_of(
    alloc: Global,
    policies: &[Shared<BoundPolicy>],
) -> Result<Items<Misconfigured>, AllocError>
    ensures { IfOk result (IsReport policies.now) }
{
    let mut report = Vec::new(alloc);
    for policy in policies {
        put_in(policy.get(), &mut report)?;
    }
    report.sort_by(report_order)?;
    Ok(Items::from_vec(report))
}
