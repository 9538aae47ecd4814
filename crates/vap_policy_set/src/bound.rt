//! Policies with their bindings, at each kind.

ghost use Rattle.std.specs.Prelude.{◌≡◌, Some};
ghost use Rattle.std.specs.Option.{option_copied};
ghost use Rattle.vap_policy_set.specs.Places.{AreNamedBy};
ghost use Rattle.vap_policy_set.specs.PolicyCovering.{IsReadOf, is_wide, may_cover, rules_in};
ghost use Rattle.vap_policy_set.specs.Sets.{is_pair_of, pair_in};

use crate::covering::rules_may_cover;
use crate::made::MadePair;
use crate::places::Place;
use crate::read_policy::ReadPolicy;
use base_containers::{Items, Keyed, Shared, Text};
use vap_policy_programs::Pair;
use vap_read::{Binding, Policy};
use vap_read_objects::Kind;

/// A policy at a kind.
pub struct KindPair {
    pub group: Text,
    pub version: Text,
    pub kind: Text,
    pub made: Shared<MadePair>,
}

impl Drop for KindPair {
    fn drop(self) {
        let KindPair {
            group: _group,
            version: _version,
            kind: _kind,
            made: _made,
        } = self;
    }
}

/// A policy with its bindings by name, and what it is at each kind.
pub struct BoundPolicy {
    pub name: Text,
    pub policy: Policy,
    /// The same with what is read of it once.
    pub read: Shared<ReadPolicy>,
    pub bindings: Items<Keyed<Binding>>,
    /// At the known kinds that it names.
    pub pairs: Items<KindPair>,
    /// At the kinds that are not known.
    pub other: Shared<MadePair>,
}

impl Drop for BoundPolicy {
    fn drop(self) {
        let BoundPolicy {
            name: _name,
            policy: _policy,
            read: _read,
            bindings: _bindings,
            pairs: _pairs,
            other: _other,
        } = self;
    }
}

fn is_pair_of(kind: &Kind, pair: &KindPair) -> bool
    ensures { result ≡ is_pair_of kind.now pair.now }
{
    kind.group.as_str() == pair.group.as_str()
        && kind.version.as_str() == pair.version.as_str()
        && kind.kind.as_str() == pair.kind.as_str()
}

impl BoundPolicy {
    /// Whether the policy may cover requests on this resource of this group.
    pub(crate) fn may_cover(&self, group: &str, resource: &str) -> bool
        ensures { result ≡ may_cover group.now resource.now self.now }
    {
        let spec = self.policy.spec.get();
        rules_may_cover(
            spec.match_constraints.resource_rules.as_slice(),
            group,
            resource,
        )
    }

    /// Whether the policy may cover more than the places that it names.
    pub(crate) fn is_wide(&self) -> bool
        requires read { IsReadOf self.now }
        ensures { result ≡ is_wide self.now }
    {
        self.read.get().is_wide()
    }

    /// The places that the policy names, in order, each once.
    pub(crate) fn places(&self) -> &[Place]
        requires read { IsReadOf self.now }
        ensures { AreNamedBy (rules_in self.now) result.now }
    {
        self.read.get().places()
    }

    /// What the policy is at the kind of a request, or at those that are not known. At a known kind that it does not name it is
    /// nothing.
    pub fn pair(&self, kind: Option<&Kind>) -> Option<&Pair>
        ensures { option_copied result ≡ pair_in self.now (option_copied kind.entry) }
    {
        match kind {
            Some(kind) => self.pair_at(kind),
            None => Some(self.other.get().pair()),
        }
    }

    /// What the policy was compiled to at a kind.
    pub fn made_at(&self, kind: &Kind) -> Option<&Shared<MadePair>> {
        for pair in self.pairs.as_slice() {
            if is_pair_of(kind, pair) {
                return Some(&pair.made);
            }
        }
        None
    }

    fn pair_at(&self, kind: &Kind) -> Option<&Pair>
        ensures { option_copied result ≡ pair_in self.now (Some kind.now) }
    {
        for pair in self.pairs.as_slice() {
            if is_pair_of(kind, pair) {
                return Some(pair.made.get().pair());
            }
        }
        None
    }
}
