//! What policies are at each kind.

ghost use Rattle.std.specs.Prelude.{◌≡◌, ℕ, List, IfOk, IfSome, IsErrOf, IsTrue, map};
ghost use Rattle.std.specs.Option.{option_copied};
ghost use Rattle.vap_read_objects.specs.Listed.{bindings_of};
ghost use Rattle.vap_policy_set.specs.Changed.{KeepOthers};
ghost use Rattle.vap_policy_set.specs.Parts.{part_of};
ghost use Rattle.vap_policy_set.specs.Sets.{bound_of};
ghost use Rattle.vap_policy_set.specs.Still.{AreAt, AreBound, AreOldOf};
ghost use Rattle.vap_policy_set.specs.Unverified.{AreUnverified, error_of, HasUnverified};
ghost use Rattle.vap_policy_set.specs.declared.build_error.BuildFault.TheVariants as build_fault;
ghost use Rattle.base_containers.specs.declared.failed.Failed.TheVariants.{Fault};
ghost use Rattle.cel_expression.specs.declared.refusal.CompileFault.TheVariants.{Unverified};

use crate::bound::{BoundPolicy, KindPair};
use crate::build_error::{BuildError, BuildFault};
use crate::changes::Kept;
use crate::choice::Choice;
use crate::compiling::Compiling;
use crate::made::MadePair;
use crate::parts::part_of;
use crate::read_policy::{ReadPolicy, read_policy};
use base_containers::{Items, Keyed, Same, Shared};
use std::alloc::{AllocError, Global};
use vap_policy_programs::{CompileError, CompileFault};
use vap_read::{Binding, Policy};
use vap_read_objects::{Kind, bindings_of};

/// What policies are compiled with: the kinds, and what was compiled of them before.
#[derive(Clone, Copy)]
pub struct Workshop<'a> {
    pub alloc: Global,
    pub kinds: &'a [Kind],
    pub kept: &'a Kept<'a>,
}

/// Policies with what is read of them once, and what was bound of each before, if anything is kept.
#[derive(Drop)]
pub struct ReadPolicies<'a> {
    pub policies: Items<Keyed<Shared<ReadPolicy>>>,
    pub old: Vec<Option<&'a Shared<BoundPolicy>>>,
}

/// A policy with what is read of it once. It is read if nothing was bound of it.
fn read_once(
    alloc: Global,
    policy: &Policy,
    old: Option<&Shared<BoundPolicy>>,
) -> Result<Shared<ReadPolicy>, AllocError>
    requires { IfSome (option_copied old) (λ bound. bound.read ≡ policy.now) }
    ensures { IfOk result (λ read. read ≡ policy.now) }
{
    match old {
        Some(bound) => bound.get().read.share(),
        None => read_policy(alloc, policy),
    }
}

/// Policies with what is read of them once. Those that changed are read.
pub fn read_policies<'a>(
    alloc: Global,
    kept: &Kept<'a>,
    policies: &[Keyed<Policy>],
) -> Result<ReadPolicies<'a>, AllocError>
    requires others { KeepOthers kept.now.changed.now policies.now kept.now.policies.now }
    ensures policies { IfOk result (λ read. read.policies ≡ policies.now) }
    ensures old { IfOk result (λ read. AreOldOf kept.now.policies.now policies.now (map option_copied read.old.items)) }
{
    let mut all = Vec::new(alloc);
    let mut old = Vec::new(alloc);
    let mut rest = kept.policies;
    for policy in policies {
        let next = kept.next_old(rest, policy.key.as_str());
        rest = next.behind;
        all.push(Keyed {
            key: policy.key.copy()?,
            value: read_once(alloc, &policy.value, next.bound)?,
        })?;
        old.push(next.bound)?;
    }
    Ok(ReadPolicies {
        policies: Items::from_vec(all),
        old,
    })
}

/// Why a policy is not compiled.
fn unbuilt(
    policy: &Keyed<Shared<ReadPolicy>>,
    error: CompileError,
) -> Result<BuildError, AllocError>
    ensures { IfOk result (λ told. told ≡ error_of policy.now.key error) }
{
    match error {
        CompileError::Fault(CompileFault::Unverified { .. }) => {
            let policy = policy.key.copy()?;
            Ok(BuildError::Fault(BuildFault::Unverified { policy }))
        }
        CompileError::OutOfMemory => Ok(BuildError::OutOfMemory),
    }
}

/// A policy with its bindings, and what it is at each kind. Its own function, for the prover: each way out drops what is held there.
fn with_bindings(
    alloc: Global,
    policy: &Keyed<Shared<ReadPolicy>>,
    bindings: &[Keyed<Binding>],
    pairs: Items<KindPair>,
    other: Shared<MadePair>,
) -> Result<BoundPolicy, AllocError>
    ensures { IfOk result (λ p. p ≡ record {
      name = policy.now.key;
      policy = policy.now.value;
      read = policy.now.value;
      bindings = bindings_of policy.now.key bindings.now;
      pairs = pairs;
      other = other;
    }) }
{
    Ok(BoundPolicy {
        name: policy.key.copy()?,
        policy: policy.value.get().policy().copy()?,
        read: policy.value.share()?,
        bindings: bindings_of(alloc, policy.key.as_str(), bindings)?,
        pairs,
        other,
    })
}

/// What was bound of a policy before, if anything is kept, and whether it stands: whether the same would be bound now, or would be if
/// its bindings are what they were.
#[derive(Clone, Copy)]
struct Before<'a> {
    bound: Option<&'a Shared<BoundPolicy>>,
    stands: bool,
    stands_at_kinds: bool,
}

impl<'a> Before<'a> {
    fn policy(&self) -> Option<&'a BoundPolicy> {
        match self.bound {
            Some(bound) => Some(bound.get()),
            None => None,
        }
    }
}

impl Workshop<'_> {
    fn bound_of(
        &self,
        choice: &Choice,
        bindings: &[Keyed<Binding>],
        old: Option<&BoundPolicy>,
        policy: &Keyed<Shared<ReadPolicy>>,
    ) -> Result<BoundPolicy, CompileError>
        ensures bound { IfOk result (λ p. p ≡ bound_of choice.now self.now.kinds.now bindings.now policy.now) }
        ensures unverified { (at : ℕ) → IsErrOf result (Fault (Unverified at))
            → HasUnverified (part_of choice.now policy.now.value.spec) self.now.kinds.now policy.now.value.spec }
    {
        let read = policy.value.get();
        let refused = part_of(self.alloc, choice, read)?;
        let compiling = Compiling {
            alloc: self.alloc,
            fixed_types: self.kept.fixed_types.get(),
            refused: &refused,
            kinds: self.kinds,
            policy: &read.policy().spec,
            round: self.kept.round,
        };
        let pairs = compiling.pairs_of(old, self.kept)?;
        let other = compiling.other_of(self.kept.other(old))?;
        Ok(with_bindings(self.alloc, policy, bindings, pairs, other)?)
    }

    /// Whether a policy is bound to the bindings that there are of a name.
    fn has_bindings_of(
        &self,
        bound: &BoundPolicy,
        name: &str,
        bindings: &[Keyed<Binding>],
    ) -> Result<bool, AllocError>
        ensures { IfOk result (λ has. IsTrue has → bound.now.bindings ≡ bindings_of name.now bindings.now) }
    {
        let now = bindings_of(self.alloc, name, bindings)?;
        Ok(bound.bindings.same(&now))
    }

    /// The same, or what was bound of the policy before, if that stands.
    fn shared_of(
        &self,
        choice: &Choice,
        bindings: &[Keyed<Binding>],
        before: Before<'_>,
        policy: &Keyed<Shared<ReadPolicy>>,
    ) -> Result<Shared<BoundPolicy>, CompileError>
        requires stands { IsTrue before.stands
            → IfSome (option_copied before.bound) (λ p. p ≡ bound_of choice.now self.now.kinds.now bindings.now policy.now) }
        requires at_kinds { IsTrue before.stands_at_kinds
            → IfSome (option_copied before.bound) (λ p. p.bindings ≡ bindings_of policy.now.key bindings.now
            → p ≡ bound_of choice.now self.now.kinds.now bindings.now policy.now) }
        ensures bound { IfOk result (λ p. p ≡ bound_of choice.now self.now.kinds.now bindings.now policy.now) }
        ensures unverified { (at : ℕ) → IsErrOf result (Fault (Unverified at))
            → HasUnverified (part_of choice.now policy.now.value.spec) self.now.kinds.now policy.now.value.spec }
    {
        if let Some(bound) = before.bound {
            if before.stands {
                return Ok(bound.share()?);
            }
            let name = policy.key.as_str();
            if before.stands_at_kinds && self.has_bindings_of(bound.get(), name, bindings)? {
                return Ok(bound.share()?);
            }
        }
        let bound = self.bound_of(choice, bindings, before.policy(), policy)?;
        Ok(Shared::new(self.alloc, bound)?)
    }

    /// Policies with their bindings, and what each is at each kind.
    pub fn bound_policies(
        &self,
        choice: &Choice,
        bindings: &[Keyed<Binding>],
        read: &ReadPolicies<'_>,
    ) -> Result<Items<Shared<BoundPolicy>>, BuildError>
        requires old { AreOldOf self.now.kept.now.policies.now read.now.policies (map option_copied read.now.old.items) }
        requires still { IsTrue self.now.kept.now.is_still
            → AreBound self.now.kept.now.choice.now self.now.kinds.now bindings.now self.now.kept.now.policies.now }
        requires at_kinds { IsTrue self.now.kept.now.is_still_at_kinds
            → AreAt self.now.kept.now.choice.now self.now.kinds.now self.now.kept.now.policies.now }
        ensures bound { IfOk result (λ bound. bound ≡ map (bound_of choice.now self.now.kinds.now bindings.now) read.now.policies) }
        ensures unverified { (name : List ℕ) → IsErrOf result (Fault (build_fault.Unverified name))
            → AreUnverified choice.now self.now.kinds.now name read.now.policies }
    {
        let mut bound = Vec::new(self.alloc);
        let stands = self.kept.is_still_by(choice);
        let stands_at_kinds = self.kept.is_still_at_kinds_by(choice);
        let policies = read.policies.as_slice();
        for at in 0..policies.len() {
            let before = Before {
                bound: read.old[at],
                stands,
                stands_at_kinds,
            };
            match self.shared_of(choice, bindings, before, &policies[at]) {
                Ok(one) => bound.push(one)?,
                Err(error) => return Err(unbuilt(&policies[at], error)?),
            }
        }
        Ok(Items::from_vec(bound))
    }
}
