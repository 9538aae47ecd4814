//! A policy, compiled at each kind.

ghost use Rattle.std.specs.Prelude.{◌≡◌, ℕ, IfOk, IsErrOf};
ghost use Rattle.base_containers.specs.declared.failed.Failed.TheVariants.{Fault};
ghost use Rattle.cel_expression.specs.declared.refusal.CompileFault.TheVariants.{Unverified};
ghost use Rattle.vap_policy_programs.specs.Expressions.{IsOneUnverified};
ghost use Rattle.vap_policy_set.specs.Kinds.{type_or_opaque};
ghost use Rattle.vap_policy_set.specs.Sets.{inputs_of, is_looked_at, kind_pair, other_of, pairs_of};
ghost use Rattle.vap_policy_set.specs.Unverified.{expressions_at, HasUnverified};

use crate::bound::{BoundPolicy, KindPair};
use crate::changes::Kept;
use crate::made::{MadePair, inputs_of};
use crate::params::is_named_by;
use base_containers::{Items, Shared, Text};
use cel_value::CelType;
use std::alloc::Global;
use vap_policy_programs::{CompileError, FixedTypes};
use vap_read::PolicySpec;
use vap_read_objects::Kind;

/// What a policy is compiled with, at whichever kind: the types that are the same at each, the texts of its own that are taken as
/// no patterns, the kinds, and what it says.
#[derive(Clone, Copy)]
pub struct Compiling<'a> {
    pub alloc: Global,
    pub fixed_types: &'a FixedTypes,
    pub refused: &'a Shared<Items<Text>>,
    pub kinds: &'a [Kind],
    pub policy: &'a Shared<PolicySpec>,
    /// The number of this making of a set; no answer depends on it.
    pub round: u64,
}

fn is_looked_at(policy: &PolicySpec, kind: &Kind) -> bool
    ensures { result ≡ is_looked_at policy.now kind.now }
{
    kind.object_type.is_some()
        && is_named_by(policy.match_constraints.resource_rules.as_slice(), kind)
}

impl Compiling<'_> {
    /// Compiles the policy for objects of this type, unless what was kept was compiled of the same.
    fn made_of(
        &self,
        cel_type: &Option<CelType>,
        old: Option<&Shared<MadePair>>,
    ) -> Result<Shared<MadePair>, CompileError>
        ensures made { IfOk result (λ m. m ≡ inputs_of self.now.refused.now self.now.kinds.now self.now.policy.now cel_type.now) }
        ensures unverified { (at : ℕ) → IsErrOf result (Fault (Unverified at)) → IsOneUnverified at
            (expressions_at self.now.refused.now self.now.kinds.now self.now.policy.now (type_or_opaque cel_type.now)) }
    {
        match old {
            Some(made)
                if made
                    .get()
                    .is_of(self.refused, self.kinds, self.policy, cel_type) => { Ok(made.share()?) }
            _ => {
                let inputs = inputs_of(
                    self.alloc,
                    self.refused,
                    self.kinds,
                    self.policy,
                    cel_type,
                )?;
                let made = MadePair::new(self.alloc, self.fixed_types, inputs, self.round)?;
                Ok(Shared::new(self.alloc, made)?)
            }
        }
    }

    fn kind_pair(
        &self,
        kind: &Kind,
        old: Option<&Shared<MadePair>>,
    ) -> Result<KindPair, CompileError>
        ensures pair { IfOk result (λ p. p ≡ kind_pair self.now.refused.now self.now.kinds.now self.now.policy.now kind.now) }
        ensures unverified { (at : ℕ) → IsErrOf result (Fault (Unverified at)) → IsOneUnverified at
            (expressions_at self.now.refused.now self.now.kinds.now self.now.policy.now (type_or_opaque kind.now.object_type)) }
    {
        let made = self.made_of(&kind.object_type, old)?;
        Ok(KindPair {
            group: kind.group.copy()?,
            version: kind.version.copy()?,
            kind: kind.kind.copy()?,
            made,
        })
    }

    /// The policy at the kinds where it is looked at.
    pub fn pairs_of(
        &self,
        old: Option<&BoundPolicy>,
        kept: &Kept<'_>,
    ) -> Result<Items<KindPair>, CompileError>
        ensures pairs { IfOk result (λ pairs. pairs ≡ pairs_of self.now.refused.now self.now.kinds.now self.now.policy.now) }
        ensures unverified { (at : ℕ) → IsErrOf result (Fault (Unverified at))
            → HasUnverified self.now.refused.now self.now.kinds.now self.now.policy.now }
    {
        let kinds = self.kinds;
        let mut pairs = Vec::new(self.alloc);
        for kind in kinds {
            if is_looked_at(self.policy.get(), kind) {
                pairs.push(self.kind_pair(kind, kept.pair(old, kind))?)?;
            }
        }
        Ok(Items::from_vec(pairs))
    }

    /// The policy at the kinds that are not known.
    pub fn other_of(&self, old: Option<&Shared<MadePair>>) -> Result<Shared<MadePair>, CompileError>
        ensures other { IfOk result (λ m. m ≡ other_of self.now.refused.now self.now.kinds.now self.now.policy.now) }
        ensures unverified { (at : ℕ) → IsErrOf result (Fault (Unverified at))
            → HasUnverified self.now.refused.now self.now.kinds.now self.now.policy.now }
    {
        self.made_of(&None, old)
    }
}
