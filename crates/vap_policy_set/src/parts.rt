//! The part of a choice that a policy is read by.

ghost use Rattle.std.specs.Prelude.{◌≡◌, filter, IfOk};
ghost use Rattle.cel_operators.specs.PatternChoice.{refuses};
ghost use Rattle.vap_policy_set.specs.Parts.{part_of};

use crate::choice::Choice;
use crate::read_policy::ReadPolicy;
use base_containers::{Items, Shared, Text};
use std::alloc::{AllocError, Global};

/// Whether a text is one of these.
pub fn refuses(refused: &[Text], text: &str) -> bool
    ensures { result ≡ refuses refused.now text.now }
{
    for other in refused {
        if other.as_str() == text {
            return true;
        }
    }
    false
}

fn refused_in(alloc: Global, refused: &[Text], texts: &[Text]) -> Result<Items<Text>, AllocError>
    ensures { IfOk result (λ part. part ≡ filter (refuses refused.now) texts.now) }
{
    let mut part = Vec::new(alloc);
    for text in texts {
        if refuses(refused, text.as_str()) {
            part.push(text.copy()?)?;
        }
    }
    Ok(Items::from_vec(part))
}

/// Those of a policy's own texts that a choice refuses.
#[tactic(auto, unfolding(crate::specs::Parts::part_of))]
pub fn part_of(
    alloc: Global,
    choice: &Choice,
    policy: &ReadPolicy,
) -> Result<Shared<Items<Text>>, AllocError>
    ensures { IfOk result (λ part. part ≡ part_of choice.now policy.now.spec) }
{
    let refused = choice.refused.get().as_slice();
    Shared::new(alloc, refused_in(alloc, refused, policy.texts())?)
}
