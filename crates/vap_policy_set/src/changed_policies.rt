//! Which policies events change.

ghost use Rattle.std.specs.Prelude.{◌≡◌, ◌++◌, true, IfOk, OnOk};
ghost use Rattle.vap_read_objects.specs.Classes.{is_one_of};
ghost use Rattle.vap_policy_set.specs.Changed.{HasTaken, MissOthers, has_changed, policy_name};

use base_containers::Text;
use std::alloc::{AllocError, Global};
use vap_read::{Event, Key};
use vap_read_objects::is_policy;

/// The policies that events put or take away, by name.
#[derive(Drop)]
pub struct ChangedPolicies {
    /// A List came, which may change all.
    pub all: bool,
    pub names: Vec<Text>,
}

fn is_one_of(names: &[Text], name: &str) -> bool
    ensures { result ≡ is_one_of names.now name.now }
{
    for other in names {
        if other.as_str() == name {
            return true;
        }
    }
    false
}

impl ChangedPolicies {
    /// All, whatever their names.
    pub fn all(alloc: Global) -> ChangedPolicies
        ensures { result.all ≡ true }
    {
        ChangedPolicies {
            all: true,
            names: Vec::new(alloc),
        }
    }

    /// Those of events.
    pub fn of(alloc: Global, events: &[Event]) -> Result<ChangedPolicies, AllocError>
        ensures { IfOk result (λ changed. MissOthers changed events.now) }
    {
        let mut changed = ChangedPolicies {
            all: false,
            names: Vec::new(alloc),
        };
        for event in events {
            changed.add(event)?;
        }
        Ok(changed)
    }

    fn add(&mut self, event: &Event) -> Result<(), AllocError>
        ensures { OnOk result (HasTaken event.now self.old self.new) }
    {
        match event {
            Event::Put(object) => self.add_key(&object.get().key),
            Event::Removed(key) => self.add_key(key.get()),
            Event::Passed => Ok(()),
            Event::Replaced(_) => {
                self.all = true;
                Ok(())
            }
        }
    }

    #[tactic(auto, unfolding(crate::specs::Changed::policy_name))]
    fn add_key(&mut self, key: &Key) -> Result<(), AllocError>
        ensures all { OnOk result (self.new.all ≡ self.old.all) }
        ensures names { OnOk result (self.new.names.items ≡ self.old.names.items ++ policy_name key.now) }
    {
        if is_policy(key) {
            self.names.push(key.name.copy()?)?;
        }
        Ok(())
    }

    /// Whether a policy of this name was put or taken away.
    pub fn has(&self, name: &str) -> bool
        ensures { result ≡ has_changed self.now name.now }
    {
        is_one_of(self.names.as_slice(), name) || self.all
    }
}
