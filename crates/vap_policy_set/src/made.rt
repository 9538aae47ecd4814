//! Policies at kinds, kept with what they were compiled of.

ghost use Rattle.std.specs.Prelude.{◌≡◌, ◌↔◌, ℕ, IfOk, IsErrOf, IsTrue};
ghost use Rattle.base_containers.specs.declared.failed.Failed.TheVariants.{Fault};
ghost use Rattle.cel_expression.specs.declared.refusal.CompileFault.TheVariants.{Unverified};
ghost use Rattle.vap_policy_programs.specs.Expressions.{expressions_of, IsOneUnverified};
ghost use Rattle.vap_policy_programs.specs.Scopes.{first_names};
ghost use Rattle.vap_policy_set.specs.Kinds.{types_at};
ghost use Rattle.vap_policy_set.specs.Made.{pair_made};
ghost use Rattle.vap_policy_set.specs.Sets.{inputs_of};

use crate::params::{is_object_type, is_params_type, object_type, params_type, types_at};
use base_containers::{Items, Same, Shared, Text};
use cel_value::CelType;
use std::alloc::{AllocError, Global};
use std::marker::Model;
use vap_policy_programs::{CompileError, FixedTypes, Pair, ParamsType, pair};
use vap_read::PolicySpec;
use vap_read_objects::Kind;

/// What a policy is compiled of at a kind: the texts of its own that are taken as no patterns, the type of the objects, what the
/// params are, and what it says.
pub struct Inputs {
    pub refused: Shared<Items<Text>>,
    pub cel_type: CelType,
    pub params: ParamsType,
    pub policy: Shared<PolicySpec>,
}

impl Drop for Inputs {
    fn drop(self) {
        let Inputs {
            refused: _refused,
            cel_type: _cel_type,
            params: _params,
            policy: _policy,
        } = self;
    }
}

/// A policy at a kind, compiled. Contracts see it as what it was compiled of.
pub struct MadePair {
    inputs: Inputs,
    pair: Pair,
    /// At which making of a set it was compiled; no answer depends on it.
    round: u64,
}

impl Drop for MadePair {
    fn drop(self) {
        let MadePair {
            inputs: _inputs,
            pair: _pair,
            round: _round,
        } = self;
    }
}

impl Model for MadePair {
    ghost use Rattle.std.specs.Coded.{codes};
    ghost use Rattle.std.specs.Prelude.{◌≡◌};
    ghost use Rattle.vap_policy_set.specs.contracts.made.Inputs as of_inputs;
    ghost use Rattle.vap_policy_set.specs.declared.made.Inputs.{Inputs as InputsOf};
    ghost use Rattle.vap_policy_set.specs.Made.{pair_made};

    ghost Value = { InputsOf };

    ghost coded = { Prim.hlevel (codes, of_inputs.the_row.coded) };

    ghost view = { λ m. m.inputs };

    ghost invariant = { λ m. m.pair ≡ pair_made m.inputs };
}

/// Compiles a policy at a kind.
fn compiled(alloc: Global, fixed: &FixedTypes, inputs: &Inputs) -> Result<Pair, CompileError>
    ensures pair { IfOk result (λ p. p ≡ pair_made inputs.now) }
    ensures unverified { (at : ℕ) → IsErrOf result (Fault (Unverified at)) → IsOneUnverified at
        (expressions_of inputs.now.refused (first_names (types_at inputs.now.cel_type) inputs.now.params) inputs.now.policy) }
{
    let types = types_at(alloc, fixed, &inputs.cel_type)?;
    pair(
        alloc,
        &inputs.refused,
        &types,
        &inputs.params,
        inputs.policy.get(),
    )
}

impl MadePair {
    /// Compiles a policy at a kind.
    pub fn new(
        alloc: Global,
        fixed: &FixedTypes,
        inputs: Inputs,
        round: u64,
    ) -> Result<MadePair, CompileError>
        ensures made { IfOk result (λ m. m ≡ inputs) }
        ensures unverified { (at : ℕ) → IsErrOf result (Fault (Unverified at)) → IsOneUnverified at
            (expressions_of inputs.refused (first_names (types_at inputs.cel_type) inputs.params) inputs.policy) }
    {
        let pair = compiled(alloc, fixed, &inputs)?;
        Ok(MadePair {
            inputs,
            pair,
            round,
        })
    }

    /// What the policy is at the kind.
    pub fn pair(&self) -> &Pair
        ensures { result.now ≡ pair_made self.now }
    {
        &self.pair
    }

    /// At which making of a set it was compiled.
    pub fn round(&self) -> u64 {
        self.round
    }

    /// Whether it was compiled of these.
    pub fn is_of(
        &self,
        refused: &Shared<Items<Text>>,
        kinds: &[Kind],
        policy: &Shared<PolicySpec>,
        cel_type: &Option<CelType>,
    ) -> bool
        ensures { IsTrue result ↔ (self.now ≡ inputs_of refused.now kinds.now policy.now cel_type.now) }
    {
        self.inputs.refused.same(refused)
            && is_object_type(&self.inputs.cel_type, cel_type)
            && is_params_type(&self.inputs.params, kinds, &policy.get().param_kind)
            && self.inputs.policy.same(policy)
    }
}

/// What a policy is compiled of if the objects are of a type.
pub fn inputs_of(
    alloc: Global,
    refused: &Shared<Items<Text>>,
    kinds: &[Kind],
    policy: &Shared<PolicySpec>,
    cel_type: &Option<CelType>,
) -> Result<Inputs, AllocError>
    ensures { IfOk result (λ i. i ≡ inputs_of refused.now kinds.now policy.now cel_type.now) }
{
    Ok(Inputs {
        refused: refused.share()?,
        cel_type: object_type(cel_type)?,
        params: params_type(alloc, kinds, &policy.get().param_kind)?,
        policy: policy.share()?,
    })
}
