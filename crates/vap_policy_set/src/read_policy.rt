//! Policies with what is read of them once.

ghost use Rattle.std.specs.Prelude.{◌≡◌, IfOk};
ghost use Rattle.vap_policy_set.specs.Covering.{rules_are_wide, rules_of};
ghost use Rattle.vap_policy_set.specs.Patterns.{of_policy};
ghost use Rattle.vap_policy_set.specs.Places.{AreNamedBy};

use crate::covering::rules_are_wide;
use crate::places::{Place, named_places};
use crate::texts::texts_of;
use base_containers::{Items, Shared, Text};
use std::alloc::{AllocError, Global};
use std::marker::Model;
use vap_read::Policy;

/// A policy with what is read of it once: its own texts, which are the literal texts that `matches` is given in its expressions, and
/// what its rules may cover. Contracts see it as the policy.
pub struct ReadPolicy {
    policy: Policy,
    texts: Items<Text>,
    /// The places that its rules name, in order, each once.
    places: Items<Place>,
    /// Whether the rules may cover more than those.
    is_wide: bool,
}

impl Drop for ReadPolicy {
    fn drop(self) {
        let ReadPolicy {
            policy: _policy,
            texts: _texts,
            places: _places,
            is_wide: _is_wide,
        } = self;
    }
}

impl Model for ReadPolicy {
    ghost use Rattle.std.specs.Coded.{codes};
    ghost use Rattle.std.specs.Prelude.{◌≡◌};
    ghost use Rattle.vap_read.specs.contracts.policy.Policy as of_policies;
    ghost use Rattle.vap_read.specs.declared.policy.Policy.{Policy as PolicyOf};
    ghost use Rattle.vap_policy_set.specs.Covering.{rules_are_wide, rules_of};
    ghost use Rattle.vap_policy_set.specs.Patterns.{of_policy};
    ghost use Rattle.vap_policy_set.specs.Places.{AreNamedBy};

    ghost Value = { PolicyOf };

    ghost coded = { Prim.hlevel (codes, of_policies.the_row.coded) };

    ghost view = { λ r. r.policy };

    ghost invariant = { λ r. (r.texts ≡ of_policy r.policy.spec) × AreNamedBy (rules_of r.policy) r.places
        × (r.is_wide ≡ rules_are_wide (rules_of r.policy)) };
}

impl ReadPolicy {
    /// Reads what is read of a policy once.
    fn new(alloc: Global, policy: &Policy) -> Result<ReadPolicy, AllocError>
        ensures { IfOk result (λ read. read ≡ policy.now) }
    {
        let policy = policy.copy()?;
        let spec = policy.spec.get();
        let rules = spec.match_constraints.resource_rules.as_slice();
        let texts = texts_of(alloc, spec)?;
        let places = named_places(alloc, rules)?;
        let is_wide = rules_are_wide(rules);
        Ok(ReadPolicy {
            policy,
            texts,
            places,
            is_wide,
        })
    }

    /// The policy.
    pub fn policy(&self) -> &Policy
        ensures { result.now ≡ self.now }
    {
        &self.policy
    }

    /// Its own texts, in the order of its expressions.
    pub fn texts(&self) -> &[Text]
        ensures { result.now ≡ of_policy self.now.spec }
    {
        self.texts.as_slice()
    }

    /// The places that its rules name, in order, each once.
    pub(crate) fn places(&self) -> &[Place]
        ensures { AreNamedBy (rules_of self.now) result.now }
    {
        self.places.as_slice()
    }

    /// Whether its rules may cover more than those.
    pub(crate) fn is_wide(&self) -> bool
        ensures { result ≡ rules_are_wide (rules_of self.now) }
    {
        self.is_wide
    }
}

/// A policy with what is read of it once.
pub fn read_policy(alloc: Global, policy: &Policy) -> Result<Shared<ReadPolicy>, AllocError>
    ensures { IfOk result (λ read. read ≡ policy.now) }
{
    Shared::new(alloc, ReadPolicy::new(alloc, policy)?)
}
