//! What a set holds of policies, bindings and definitions.

ghost use Rattle.std.specs.Prelude.{◌≡◌, ℕ, List, [], IfOk, IsErrOf, IsTrue};
ghost use Rattle.base_containers.specs.declared.failed.Failed.TheVariants.{Fault};
ghost use Rattle.vap_read_objects.specs.Listed.{bindings_in, kinds_in, policies_in};
ghost use Rattle.vap_policy_set.specs.Changed.{KeepOthers};
ghost use Rattle.vap_policy_set.specs.Patterns.{IsChoiceFor, of_policies};
ghost use Rattle.vap_policy_set.specs.Sets.{no_choice, policies_by};
ghost use Rattle.vap_policy_set.specs.Still.{AreAt, AreBound};
ghost use Rattle.vap_policy_set.specs.Unverified.{IsUnverifiedIn};
ghost use Rattle.vap_policy_set.specs.declared.build_error.BuildFault.TheVariants.{Unverified};

use crate::build_error::BuildError;
use crate::changes::Kept;
use crate::choice::Choice;
use crate::definitions::{Definitions, no_definitions};
use crate::index::Index;
use crate::literal_patterns::{answers_for, choice_for};
use crate::policies::{Workshop, read_policies};
use base_containers::{Items, Keyed, Shared};
use cel_operators::Patterns;
use std::alloc::{AllocError, Global};
use vap_policy_programs::FixedTypes;
use vap_read::Policy;
use vap_read_objects::Objects;

/// What a set holds that is made of policies, bindings and definitions alone.
pub struct Rules {
    pub choice: Shared<Choice>,
    pub definitions: Shared<Definitions>,
    pub policies: Index,
    /// What was asked of texts so far; no answer depends on it.
    pub patterns: Shared<Patterns>,
    /// Made with a first set, and taken over by each that is made of it.
    pub fixed_types: Shared<FixedTypes>,
}

impl Drop for Rules {
    fn drop(self) {
        let Rules {
            choice: _choice,
            definitions: _definitions,
            policies: _policies,
            patterns: _patterns,
            fixed_types: _fixed_types,
        } = self;
    }
}

impl Rules {
    /// Those of no objects, by the choice that refuses nothing.
    pub fn empty(alloc: Global) -> Result<Rules, AllocError>
        ensures choice { IfOk result (λ r. r.choice ≡ no_choice) }
        ensures kinds { IfOk result (λ r. r.definitions.kinds ≡ kinds_in []) }
        ensures policies { IfOk result (λ r. r.policies ≡ []) }
    {
        let refusing_none = Shared::new(alloc, Choice::none(alloc)?)?;
        let definitions = no_definitions(alloc)?;
        let patterns = Shared::new(alloc, Patterns::new(alloc))?;
        let fixed_types = Shared::new(alloc, FixedTypes::new(alloc)?)?;
        let policies = Index::new(alloc, Items::from_vec(Vec::new(alloc)))?;
        Ok(Rules {
            choice: refusing_none,
            definitions,
            policies,
            patterns,
            fixed_types,
        })
    }
}

/// The rules among objects whose definitions and policies these are. Something may be kept of a set before.
pub fn rules_of(
    alloc: Global,
    objects: &Objects,
    definitions: &Shared<Definitions>,
    named: &[Keyed<Policy>],
    kept: &Kept<'_>,
) -> Result<Rules, BuildError>
    requires kinds { definitions.now.kinds ≡ kinds_in objects.now.objects }
    requires named { named.now ≡ policies_in objects.now.objects }
    requires still { IsTrue kept.now.is_still
        → AreBound kept.now.choice.now (kinds_in objects.now.objects) (bindings_in objects.now.objects) kept.now.policies.now }
    requires at_kinds { IsTrue kept.now.is_still_at_kinds
        → AreAt kept.now.choice.now (kinds_in objects.now.objects) kept.now.policies.now }
    requires others { KeepOthers kept.now.changed.now (policies_in objects.now.objects) kept.now.policies.now }
    ensures kinds { IfOk result (λ r. r.definitions.kinds ≡ kinds_in objects.now.objects) }
    ensures policies { IfOk result (λ r. r.policies ≡ policies_by r.choice objects.now) }
    ensures choice { IfOk result (λ r. IsChoiceFor (of_policies (policies_in objects.now.objects)) r.choice.refused) }
    ensures unverified { (name : List ℕ) → IsErrOf result (Fault (Unverified name)) → IsUnverifiedIn objects.now name }
{
    let bindings = objects.bindings(alloc)?;
    let read = read_policies(alloc, kept, named)?;
    let patterns = answers_for(alloc, kept.patterns, read.policies.as_slice())?;
    let choice = choice_for(alloc, patterns.get(), read.policies.as_slice())?;
    let choice = Shared::new(alloc, choice)?;
    let workshop = Workshop {
        alloc,
        kinds: definitions.get().kinds.as_slice(),
        kept,
    };
    let bound = workshop.bound_policies(choice.get(), bindings.as_slice(), &read)?;
    let definitions = definitions.share()?;
    let fixed_types = kept.fixed_types.share()?;
    // The index is made last, for the prover: each way out drops what is held there.
    let policies = Index::new(alloc, bound)?;
    Ok(Rules {
        choice,
        definitions,
        policies,
        patterns,
        fixed_types,
    })
}
