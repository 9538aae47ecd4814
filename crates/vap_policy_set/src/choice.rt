//! Choices.

ghost use Rattle.std.specs.Prelude.{◌≡◌, IfOk};
ghost use Rattle.vap_policy_set.specs.Sets.{no_choice};

use base_containers::{Items, Same, Shared, Text};
use std::alloc::{AllocError, Global};

/// The texts that are taken as no patterns.
pub struct Choice {
    pub refused: Shared<Items<Text>>,
}

impl Drop for Choice {
    fn drop(self) {
        let Choice { refused: _refused } = self;
    }
}

impl Choice {
    /// The choice that refuses nothing.
    pub fn none(alloc: Global) -> Result<Choice, AllocError>
        ensures { IfOk result (λ choice. choice ≡ no_choice) }
    {
        Ok(Choice {
            refused: Shared::new(alloc, Items::from_vec(Vec::new(alloc)))?,
        })
    }
}

impl Same for Choice {
    fn same(&self, other: &Choice) -> bool {
        self.refused.same(&other.refused)
    }
}
