//! Which kinds events change, and what is kept of a set before them.

ghost use Rattle.std.specs.Prelude.{◌≡◌, IsTrue};
ghost use Rattle.std.specs.Option.{option_copied};
ghost use Rattle.vap_policy_set.specs.Changed.{IsNext};

use crate::bound::BoundPolicy;
use crate::changed_policies::ChangedPolicies;
use crate::choice::Choice;
use crate::made::MadePair;
use base_containers::{Same, Shared, Text};
use cel_operators::Patterns;
use serde_json::Value as Json;
use std::alloc::{AllocError, Global};
use vap_match::text_in;
use vap_policy_programs::FixedTypes;
use vap_read::{Event, Key, Object, ObjectMap, ParamKind};
use vap_read_objects::{Kind, is_definition};

/// A kind, in whichever version.
#[derive(Drop)]
struct KindName {
    group: Text,
    kind: Text,
}

/// The kinds whose definitions events put or take away. No answer depends on it. It only decides how often something is compiled.
#[derive(Drop)]
pub struct Changes {
    /// A List came, which may change all.
    all: bool,
    kinds: Vec<KindName>,
}

/// What is kept of a set that was made before, except for what events changed.
#[derive(Clone, Copy)]
pub struct Kept<'a> {
    pub policies: &'a [Shared<BoundPolicy>],
    /// Whether the policies are bound as they would be now, if the choice is the same.
    pub is_still: bool,
    /// Whether they would be but for their bindings.
    pub is_still_at_kinds: bool,
    pub choice: &'a Choice,
    pub patterns: &'a Shared<Patterns>,
    pub fixed_types: &'a Shared<FixedTypes>,
    /// The policies that events changed since.
    pub changed: &'a ChangedPolicies,
    pub changes: &'a Changes,
    /// The number of this making.
    pub round: u64,
}

/// The group of an apiVersion; the core group's name is empty.
fn group_in(api_version: &str) -> &str {
    match api_version.split_once('/') {
        Some((group, _)) => group,
        None => "",
    }
}

impl Changes {
    /// No changes.
    pub fn none(alloc: Global) -> Changes {
        Changes {
            all: false,
            kinds: Vec::new(alloc),
        }
    }

    /// The changes of events, if these definitions were there before.
    pub fn of(
        alloc: Global,
        definitions: &ObjectMap,
        events: &[Event],
    ) -> Result<Changes, AllocError> {
        let mut changes = Changes::none(alloc);
        for event in events {
            changes.add(alloc, definitions, event)?;
        }
        Ok(changes)
    }

    fn add(
        &mut self,
        alloc: Global,
        definitions: &ObjectMap,
        event: &Event,
    ) -> Result<(), AllocError> {
        match event {
            Event::Put(object) => self.add_put(alloc, definitions, object.get()),
            Event::Removed(key) => self.add_key(alloc, definitions, key.get()),
            Event::Passed => Ok(()),
            Event::Replaced(_) => {
                self.all = true;
                Ok(())
            }
        }
    }

    fn add_put(
        &mut self,
        alloc: Global,
        definitions: &ObjectMap,
        object: &Object,
    ) -> Result<(), AllocError> {
        self.add_key(alloc, definitions, &object.key)?;
        if is_definition(&object.key) {
            self.add_definition(alloc, object.document.json())?;
        }
        Ok(())
    }

    /// Adds the kind of the definition that is under a key.
    fn add_key(
        &mut self,
        alloc: Global,
        definitions: &ObjectMap,
        key: &Key,
    ) -> Result<(), AllocError> {
        if is_definition(key) {
            if let Some(object) = definitions.get(key) {
                self.add_definition(alloc, object.get().document.json())?;
            }
        }
        Ok(())
    }

    fn add_definition(&mut self, alloc: Global, document: &Json) -> Result<(), AllocError> {
        let Some(spec) = document.get("spec") else {
            return Ok(());
        };
        let Some(names) = spec.get("names") else {
            return Ok(());
        };
        let group = Text::from_str(alloc, text_in(spec, "group"))?;
        let kind = Text::from_str(alloc, text_in(names, "kind"))?;
        self.kinds.push(KindName { group, kind })?;
        Ok(())
    }

    /// Whether a definition of this kind was put or taken away.
    fn has_kind(&self, group: &str, kind: &str) -> bool {
        for changed in &self.kinds {
            if changed.group.as_str() == group && changed.kind.as_str() == kind {
                return true;
            }
        }
        self.all
    }

    fn has_params(&self, params: &Option<ParamKind>) -> bool {
        match params {
            Some(kind) => self.has_kind(group_in(kind.api_version.as_str()), kind.kind.as_str()),
            None => false,
        }
    }
}

/// What was bound before of the policy that comes next, if it is kept, and what was bound behind it.
#[derive(Clone, Copy)]
pub struct NextOld<'a> {
    pub bound: Option<&'a Shared<BoundPolicy>>,
    pub behind: &'a [Shared<BoundPolicy>],
}

impl<'a> Kept<'a> {
    /// Whether the policies are bound as they would be now, by this choice.
    pub fn is_still_by(&self, choice: &Choice) -> bool
        ensures { IsTrue result → IsTrue self.now.is_still × (self.now.choice.now ≡ choice.now) }
    {
        self.is_still && self.choice.same(choice)
    }

    /// Whether the policies are bound as they would be now but for their bindings, by this choice.
    pub fn is_still_at_kinds_by(&self, choice: &Choice) -> bool
        ensures { IsTrue result → IsTrue self.now.is_still_at_kinds × (self.now.choice.now ≡ choice.now) }
    {
        self.is_still_at_kinds && self.choice.same(choice)
    }

    /// What was bound before of the policy of this name, which comes next, unless an event put or removed one of its name. `rest` is
    /// what was bound of it and of those behind it, and of others that events changed.
    pub fn next_old(&self, rest: &'a [Shared<BoundPolicy>], name: &str) -> NextOld<'a>
        ensures { IsNext self.now.changed.now name.now rest.now (option_copied result.bound) result.behind.now }
    {
        if self.changed.has(name) {
            return NextOld {
                bound: None,
                behind: rest,
            };
        }
        for at in 0..rest.len() {
            let old = &rest[at];
            if !self.changed.has(old.get().name.as_str()) {
                return NextOld {
                    bound: Some(old),
                    behind: &rest[at + 1..],
                };
            }
        }
        NextOld {
            bound: None,
            behind: &[],
        }
    }

    /// What a policy was at a kind before, unless a definition of the kind changed, or one of the kind of its params.
    pub fn pair(
        &self,
        policy: Option<&'a BoundPolicy>,
        kind: &Kind,
    ) -> Option<&'a Shared<MadePair>> {
        match self.unless_params_changed(policy) {
            Some(policy)
                if !self
                    .changes
                    .has_kind(kind.group.as_str(), kind.kind.as_str()) => { policy.made_at(kind) }
            _ => None,
        }
    }

    /// What a policy was before at the kinds that are not known, unless a definition of the kind of its params changed.
    pub fn other(&self, policy: Option<&'a BoundPolicy>) -> Option<&'a Shared<MadePair>> {
        match self.unless_params_changed(policy) {
            Some(policy) => Some(&policy.other),
            None => None,
        }
    }

    fn unless_params_changed(&self, policy: Option<&'a BoundPolicy>) -> Option<&'a BoundPolicy> {
        match policy {
            Some(old) if !self.changes.has_params(&old.policy.spec.get().param_kind) => {
                Some(old)
            }
            _ => None,
        }
    }
}
