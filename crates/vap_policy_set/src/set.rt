//! Sets.

ghost use Rattle.std.specs.Prelude.{◌≡◌, ℕ, [], true, List, Some, IfOk, IsErrOf, IsTrue};
ghost use Rattle.std.specs.List.{All};
ghost use Rattle.std.specs.Option.{option_copied};
ghost use Rattle.base_containers.specs.declared.failed.Failed.TheVariants.{Fault};
ghost use Rattle.vap_read_objects.specs.After.{nothing};
ghost use Rattle.vap_read_objects.specs.Classes.{all_miss, is_rule};
ghost use Rattle.vap_read_objects.specs.Cluster.{Cluster};
ghost use Rattle.vap_read_objects.specs.Listed.{bindings_in, kinds_in, policies_in};
ghost use Rattle.vap_read_objects.specs.OfKind.{namespaces_in};
ghost use Rattle.vap_policy_set.specs.Changed.{KeepOthers};
ghost use Rattle.vap_policy_set.specs.Index.{AreEnough};
ghost use Rattle.vap_policy_set.specs.Patterns.{IsChoiceFor, of_policies};
ghost use Rattle.vap_policy_set.specs.Ready.{AreReady, AreReadyIn};
ghost use Rattle.vap_read_objects.specs.Reuse.{AreRefitted};
ghost use Rattle.vap_policy_set.specs.Reuse.{IsBefore};
ghost use Rattle.vap_policy_set.specs.Sets.{choice_in, holdings_of, kinds_of, namespace_in, no_choice, params_in, policies_of};
ghost use Rattle.vap_policy_set.specs.Sets.{IsOfObjects, IsReport};
ghost use Rattle.vap_policy_set.specs.Still.{AreAt, AreBound};
ghost use Rattle.vap_policy_set.specs.Unverified.{IsUnverifiedIn};
ghost use Rattle.vap_policy_set.specs.Whole.{AreWhole};
ghost use Rattle.vap_policy_set.specs.declared.build_error.BuildFault.TheVariants.{Unverified};

use crate::bound::BoundPolicy;
use crate::build_error::BuildError;
use crate::changed_policies::ChangedPolicies;
use crate::changes::{Changes, Kept};
use crate::choice::Choice;
use crate::counting::compiled_at;
use crate::definitions::{Definitions, definitions_after, definitions_of};
use crate::report::{Misconfigured, report_of};
use crate::reuse::{leaves_bound, namespaces_after};
use crate::rules::{Rules, rules_of};
use base_containers::{Items, Shared};
use cel_operators::Patterns;
use std::alloc::{AllocError, Global};
use std::marker::Model;
use vap_policy_programs::{FixedTypes, pairs_are_ready};
use vap_read::{Event, Object, ObjectMap, ParamKind};
use vap_read_objects::{
    Kind, KindParams, Objects, all_miss_definitions, all_miss_rules, all_params, find_params,
    namespace, params_after,
};

/// The policies among objects, compiled, with what judging needs of the other objects. Contracts see it as what it holds.
pub struct PolicySet {
    events: u64,
    rules: Shared<Rules>,
    params: Items<Shared<KindParams>>,
    namespaces: Shared<ObjectMap>,
    /// The number of its making; no answer depends on it.
    round: u64,
}

impl Drop for PolicySet {
    fn drop(self) {
        let PolicySet {
            events: _events,
            rules: _rules,
            params: _params,
            namespaces: _namespaces,
            round: _round,
        } = self;
    }
}

/// What there is already of a set that is being made: its definitions, some of its params, and its Namespaces.
struct Parts {
    definitions: Shared<Definitions>,
    params: Items<Shared<KindParams>>,
    namespaces: Shared<ObjectMap>,
}

impl Drop for Parts {
    fn drop(self) {
        let Parts {
            definitions: _definitions,
            params: _params,
            namespaces: _namespaces,
        } = self;
    }
}

impl Parts {
    /// Those of a set that is made of objects alone.
    fn of(alloc: Global, objects: &Objects) -> Result<Parts, AllocError>
        ensures kinds { IfOk result (λ parts. parts.definitions.kinds ≡ kinds_in objects.now.objects) }
        ensures params { IfOk result (λ parts. parts.params ≡ []) }
        ensures namespaces { IfOk result (λ parts. parts.namespaces ≡ namespaces_in objects.now.objects) }
    {
        Ok(Parts {
            definitions: definitions_of(alloc, objects)?,
            params: Items::from_vec(Vec::new(alloc)),
            namespaces: Shared::new(alloc, objects.namespaces(alloc)?)?,
        })
    }
}

impl Model for PolicySet {
    ghost use Rattle.std.specs.Coded.{codes};
    ghost use Rattle.vap_read_objects.specs.contracts.kind.Kind as of_kinds;
    ghost use Rattle.vap_read.specs.contracts.key.Key as of_keys;
    ghost use Rattle.vap_read.specs.contracts.object.Object as of_objects;
    ghost use Rattle.vap_policy_set.specs.contracts.bound.BoundPolicy as of_policies;
    ghost use Rattle.vap_policy_set.specs.contracts.choice.Choice as of_choices;
    ghost use Rattle.vap_read_objects.specs.contracts.kind_params.KindParams as of_params;
    ghost use Rattle.vap_policy_set.specs.Sets.{held_by, Holdings, IsChosen, IsOfObjects};

    ghost Value = { Holdings };

    ghost coded = { Prim.hlevel (
      codes,
      of_choices.the_row.coded,
      of_kinds.the_row.coded,
      of_policies.the_row.coded,
      of_params.the_row.coded,
      of_keys.the_row.coded,
      of_objects.the_row.coded,
    ) };

    ghost view = { λ s. held_by s.events s.rules s.params s.namespaces };

    ghost invariant = { λ s. IsOfObjects (held_by s.events s.rules s.params s.namespaces)
        × IsChosen (held_by s.events s.rules s.params s.namespaces) };
}

impl PolicySet {
    /// The set of no objects, by the choice that refuses nothing.
    pub fn empty(alloc: Global) -> Result<PolicySet, AllocError>
        ensures { IfOk result (λ set. set ≡ holdings_of nothing no_choice) }
    {
        let rules = Shared::new(alloc, Rules::empty(alloc)?)?;
        let namespaces = Shared::new(alloc, ObjectMap::new(alloc))?;
        Ok(PolicySet {
            events: 0,
            rules,
            params: Items::from_vec(Vec::new(alloc)),
            namespaces,
            round: 0,
        })
    }

    /// The set of objects, by the choice that refuses what `regex` refuses of the policies' patterns. It is refused if the
    /// verifier refuses what was compiled for a policy.
    pub fn build(alloc: Global, objects: &Objects) -> Result<PolicySet, BuildError>
        ensures is { IfOk result (λ set. set ≡ holdings_of objects.now set.choice) }
        ensures choice { IfOk result (λ set. IsChoiceFor (of_policies (policies_in objects.now.objects)) set.choice.refused) }
        ensures unverified { (name : List ℕ) → IsErrOf result (Fault (Unverified name)) → IsUnverifiedIn objects.now name }
    {
        let parts = Parts::of(alloc, objects)?;
        let patterns = Shared::new(alloc, Patterns::new(alloc))?;
        let choice = Choice::none(alloc)?;
        let fixed_types = Shared::new(alloc, FixedTypes::new(alloc)?)?;
        let changed = ChangedPolicies::all(alloc);
        let changes = Changes::none(alloc);
        let kept = Kept {
            policies: &[],
            is_still: false,
            is_still_at_kinds: false,
            choice: &choice,
            patterns: &patterns,
            fixed_types: &fixed_types,
            changed: &changed,
            changes: &changes,
            round: 0,
        };
        PolicySet::made(alloc, objects, &parts, &kept)
    }

    /// The set of the objects that events leave of those of this set, as [`PolicySet::build`] makes it. What they do not change
    /// is taken over: no policy is compiled again, no text is read again, and if they touch no policy, binding or definition,
    /// the cost does not depend on how many there are.
    pub fn advance(
        &self,
        alloc: Global,
        objects: &Objects,
        events: &[Event],
    ) -> Result<PolicySet, BuildError>
        requires before { IsBefore self.now events.now objects.now }
        ensures is { IfOk result (λ set. set ≡ holdings_of objects.now set.choice) }
        ensures choice { IfOk result (λ set. IsChoiceFor (of_policies (policies_in objects.now.objects)) set.choice.refused) }
        ensures unverified { (name : List ℕ) → IsErrOf result (Fault (Unverified name)) → IsUnverifiedIn objects.now name }
    {
        if all_miss_rules(events) {
            Ok(self.with_others(alloc, objects, events)?)
        } else {
            self.with_rules(alloc, objects, events)
        }
    }

    /// The set after events that touch no policy, binding or definition.
    fn with_others(
        &self,
        alloc: Global,
        objects: &Objects,
        events: &[Event],
    ) -> Result<PolicySet, AllocError>
        requires before { IsBefore self.now events.now objects.now }
        requires missed { all_miss is_rule events.now ≡ true }
        ensures is { IfOk result (λ set. set ≡ holdings_of objects.now set.choice) }
        ensures choice { IfOk result (λ set. IsChoiceFor (of_policies (policies_in objects.now.objects)) set.choice.refused) }
    {
        let params = params_after(alloc, self.params.as_slice(), objects, events)?;
        let namespaces = namespaces_after(alloc, &self.namespaces, objects, events)?;
        Ok(PolicySet {
            events: objects.events(),
            rules: self.rules.share()?,
            params,
            namespaces,
            round: self.round.wrapping_add(1),
        })
    }

    /// The set after events that may touch policies, bindings and definitions.
    fn with_rules(
        &self,
        alloc: Global,
        objects: &Objects,
        events: &[Event],
    ) -> Result<PolicySet, BuildError>
        requires before { IsBefore self.now events.now objects.now }
        ensures is { IfOk result (λ set. set ≡ holdings_of objects.now set.choice) }
        ensures choice { IfOk result (λ set. IsChoiceFor (of_policies (policies_in objects.now.objects)) set.choice.refused) }
        ensures unverified { (name : List ℕ) → IsErrOf result (Fault (Unverified name)) → IsUnverifiedIn objects.now name }
    {
        let rules = self.rules.get();
        let changed = self.changed_policies(alloc, events)?;
        let changes = Changes::of(alloc, &rules.definitions.get().entries, events)?;
        let kept = Kept {
            policies: self.policies(),
            is_still: self.is_still(events),
            is_still_at_kinds: self.is_still_at_kinds(events),
            choice: rules.choice.get(),
            patterns: &rules.patterns,
            fixed_types: &rules.fixed_types,
            changed: &changed,
            changes: &changes,
            round: self.round.wrapping_add(1),
        };
        let parts = self.parts_after(alloc, objects, events)?;
        PolicySet::made(alloc, objects, &parts, &kept)
    }

    /// Whether events leave all that policies are bound to as it was: the bindings and the kinds.
    fn is_still(&self, events: &[Event]) -> bool
        ensures { IsTrue result → (c : Cluster) → IsBefore self.now events.now c
            → AreBound (choice_in self.now) (kinds_in c.objects) (bindings_in c.objects) (policies_of self.now) }
    {
        leaves_bound(events)
    }

    /// Whether events leave the kinds as they were, and so what policies are at them.
    fn is_still_at_kinds(&self, events: &[Event]) -> bool
        ensures { IsTrue result → (c : Cluster) → IsBefore self.now events.now c
            → AreAt (choice_in self.now) (kinds_in c.objects) (policies_of self.now) }
    {
        all_miss_definitions(events)
    }

    /// The policies that events change: those of other names are what they were.
    fn changed_policies(
        &self,
        alloc: Global,
        events: &[Event],
    ) -> Result<ChangedPolicies, AllocError>
        ensures { IfOk result (λ changed. (c : Cluster) → IsBefore self.now events.now c
            → KeepOthers changed (policies_in c.objects) (policies_of self.now)) }
    {
        ChangedPolicies::of(alloc, events)
    }

    /// What there is already of the set after events: its definitions, its Namespaces, and the params of the kinds that policies
    /// named before.
    fn parts_after(
        &self,
        alloc: Global,
        objects: &Objects,
        events: &[Event],
    ) -> Result<Parts, AllocError>
        requires before { IsBefore self.now events.now objects.now }
        ensures kinds { IfOk result (λ parts. parts.definitions.kinds ≡ kinds_in objects.now.objects) }
        ensures params { IfOk result (λ parts. All (AreRefitted objects.now) parts.params) }
        ensures namespaces { IfOk result (λ parts. parts.namespaces ≡ namespaces_in objects.now.objects) }
    {
        let old = &self.rules.get().definitions;
        Ok(Parts {
            definitions: definitions_after(alloc, old, objects, events)?,
            params: params_after(alloc, self.params.as_slice(), objects, events)?,
            namespaces: namespaces_after(alloc, &self.namespaces, objects, events)?,
        })
    }

    /// The set of objects whose parts these are. Something may be kept of a set before.
    fn made(
        alloc: Global,
        objects: &Objects,
        parts: &Parts,
        kept: &Kept<'_>,
    ) -> Result<PolicySet, BuildError>
        requires kinds { parts.now.definitions.kinds ≡ kinds_in objects.now.objects }
        requires params { All (AreRefitted objects.now) parts.now.params }
        requires namespaces { parts.now.namespaces ≡ namespaces_in objects.now.objects }
        requires still { IsTrue kept.now.is_still → AreBound kept.now.choice.now (kinds_in objects.now.objects)
            (bindings_in objects.now.objects) kept.now.policies.now }
        requires at_kinds { IsTrue kept.now.is_still_at_kinds
            → AreAt kept.now.choice.now (kinds_in objects.now.objects) kept.now.policies.now }
        requires others { KeepOthers kept.now.changed.now (policies_in objects.now.objects) kept.now.policies.now }
        ensures is { IfOk result (λ set. set ≡ holdings_of objects.now set.choice) }
        ensures choice { IfOk result (λ set. IsChoiceFor (of_policies (policies_in objects.now.objects)) set.choice.refused) }
        ensures unverified { (name : List ℕ) → IsErrOf result (Fault (Unverified name)) → IsUnverifiedIn objects.now name }
    {
        let named = objects.policies(alloc)?;
        let kinds = parts.definitions.get().kinds.as_slice();
        let old = parts.params.as_slice();
        let params = all_params(alloc, kinds, objects, old, named.as_slice())?;
        let rules = rules_of(alloc, objects, &parts.definitions, named.as_slice(), kept)?;
        let rules = Shared::new(alloc, rules)?;
        let events = objects.events();
        Ok(PolicySet {
            events,
            rules,
            params,
            namespaces: parts.namespaces.share()?,
            round: kept.round,
        })
    }

    /// How many policies at kinds were compiled in making this set, including those at the kinds that are not known.
    pub fn compiled(&self) -> u64 {
        compiled_at(self.round, self.rules.get().policies.all())
    }

    /// How many events left the objects that the set is built of.
    pub fn events(&self) -> u64
        ensures { result ≡ self.now.events }
    {
        self.events
    }

    /// The choice that the set is built by.
    pub fn choice(&self) -> &Shared<Choice>
        ensures { result.now ≡ choice_in self.now }
    {
        &self.rules.get().choice
    }

    /// The types of names that are the same at each kind.
    pub fn fixed_types(&self) -> &FixedTypes {
        self.rules.get().fixed_types.get()
    }

    /// The kinds that are known or refused.
    pub fn kinds(&self) -> &[Kind]
        ensures exact { result.now ≡ kinds_of self.now }
        // A set is always of objects.
        ensures source { IsOfObjects self.now }
    {
        self.rules.get().definitions.get().kinds.as_slice()
    }

    /// The params of a kind, if a policy names it and it is known.
    pub fn params_of(&self, kind: &ParamKind) -> Option<&KindParams>
        ensures { option_copied result ≡ params_in self.now (Some kind.now) }
    {
        match find_params(self.params.as_slice(), kind) {
            Some(params) => Some(params.get()),
            None => None,
        }
    }

    /// The Namespace of a name.
    pub fn namespace(&self, alloc: Global, name: &str) -> Result<Option<&Object>, AllocError>
        ensures { IfOk result (λ found. option_copied found ≡ namespace_in name.now self.now) }
    {
        match namespace(alloc, name, self.namespaces.get())? {
            Some(object) => Ok(Some(object.get())),
            None => Ok(None),
        }
    }

    /// The policies by name, with what each is at each kind.
    pub fn policies(&self) -> &[Shared<BoundPolicy>]
        ensures exact { result.now ≡ policies_of self.now }
        // The params of the kind of each are held, and at each kind what runs may be run if names have their types there.
        ensures ready { AreReady self.now }
        // Each is something at each kind that it names.
        ensures whole { AreWhole self.now }
    {
        pairs_are_ready();
        self.rules.get().policies.all()
    }

    /// Some of the policies by name, among them all that may cover requests on a resource of a group.
    pub fn policies_on(&self, group: &str, resource: &str) -> &[Shared<BoundPolicy>]
        ensures enough { AreEnough group.now resource.now (policies_of self.now) result.now }
        ensures ready { AreReadyIn self.now result.now }
    {
        pairs_are_ready();
        self.rules.get().policies.on(group, resource)
    }

    /// Where policies are misconfigured, at the known kinds that they name: by policy, group, version and kind. Of two that are
    /// the same in these, of policies of one name, the one of the lesser namespace comes first.
    pub fn report(&self, alloc: Global) -> Result<Items<Misconfigured>, AllocError>
        ensures { IfOk result (IsReport (policies_of self.now)) }
    {
        report_of(alloc, self.rules.get().policies.all())
    }
}
