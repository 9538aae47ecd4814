//! The choice for policies: whether `regex` refuses their own texts is asked once for each text.

ghost use Rattle.std.specs.Prelude.{◌≡◌, IfOk, IsSome, IsTrue, OnOk};
ghost use Rattle.cel_check.specs.PatternTexts.{AreAnswered};
ghost use Rattle.cel_operators.specs.PatternAnswers.{answer_in, choice_in};
ghost use Rattle.cel_operators.specs.PatternChoice.{refuses};
ghost use Rattle.vap_policy_set.specs.Parts.{refused_among};
ghost use Rattle.vap_policy_set.specs.Patterns.{AreAsked, IsChoiceFor, of_policies};

use crate::choice::Choice;
use crate::parts::refuses;
use crate::read_policy::ReadPolicy;
use base_containers::{Items, Keyed, Shared, Text};
use cel_expression::choice_of;
use cel_operators::Patterns;
use std::alloc::{AllocError, Global};

fn ask_texts(alloc: Global, texts: &[Text], patterns: &mut Patterns) -> Result<(), AllocError>
    ensures { OnOk result (AreAsked texts.now patterns.old patterns.new) }
{
    for text in texts {
        patterns.look_up(alloc, text.as_str())?;
    }
    Ok(())
}

/// Asks for each of the own texts of policies.
fn ask_policies(
    alloc: Global,
    policies: &[Keyed<Shared<ReadPolicy>>],
    patterns: &mut Patterns,
) -> Result<(), AllocError>
    ensures { OnOk result (AreAsked (of_policies policies.now) patterns.old patterns.new) }
{
    for policy in policies {
        ask_texts(alloc, policy.value.get().texts(), patterns)?;
    }
    Ok(())
}

fn is_answered(patterns: &Patterns, text: &str) -> bool
    ensures { IsTrue result → IsSome (answer_in patterns.now text.now) }
{
    patterns.is_answered(text)
}

/// Whether each text was answered.
fn are_answered(texts: &[Text], patterns: &Patterns) -> bool
    ensures { IsTrue result → AreAnswered patterns.now texts.now }
{
    for text in texts {
        if !is_answered(patterns, text.as_str()) {
            return false;
        }
    }
    true
}

/// Whether each of the own texts of policies was answered.
fn all_answered(policies: &[Keyed<Shared<ReadPolicy>>], patterns: &Patterns) -> bool
    ensures { IsTrue result → AreAnswered patterns.now (of_policies policies.now) }
{
    for policy in policies {
        if !are_answered(policy.value.get().texts(), patterns) {
            return false;
        }
    }
    true
}

/// The answers for the own texts of policies: those that are kept, with new ones where a text has none.
pub fn answers_for(
    alloc: Global,
    kept: &Shared<Patterns>,
    policies: &[Keyed<Shared<ReadPolicy>>],
) -> Result<Shared<Patterns>, AllocError>
    ensures { IfOk result (λ patterns. AreAnswered patterns (of_policies policies.now)) }
{
    if all_answered(policies, kept.get()) {
        return Ok(kept.share()?);
    }
    let mut patterns = kept.get().copy()?;
    ask_policies(alloc, policies, &mut patterns)?;
    Ok(Shared::new(alloc, patterns)?)
}

/// Whether a text is one of the own texts of policies.
fn is_own(policies: &[Keyed<Shared<ReadPolicy>>], text: &str) -> bool
    ensures { result ≡ refuses (of_policies policies.now) text.now }
{
    for policy in policies {
        if refuses(policy.value.get().texts(), text) {
            return true;
        }
    }
    false
}

fn refused_among(
    alloc: Global,
    policies: &[Keyed<Shared<ReadPolicy>>],
    refused: &[Text],
) -> Result<Items<Text>, AllocError>
    ensures { IfOk result (λ own. own ≡ refused_among (of_policies policies.now) refused.now) }
{
    let mut own = Vec::new(alloc);
    for text in refused {
        if is_own(policies, text.as_str()) {
            own.push(text.copy()?)?;
        }
    }
    Ok(Items::from_vec(own))
}

/// The choice for policies: those of their own texts that `regex` refused.
pub fn choice_for(
    alloc: Global,
    patterns: &Patterns,
    policies: &[Keyed<Shared<ReadPolicy>>],
) -> Result<Choice, AllocError>
    requires answered { AreAnswered patterns.now (of_policies policies.now) }
    ensures { IfOk result (λ choice. IsChoiceFor (of_policies policies.now) choice.refused) }
{
    let all = choice_of(alloc, patterns)?;
    let own = refused_among(alloc, policies, all.get().as_slice())?;
    Ok(Choice {
        refused: Shared::new(alloc, own)?,
    })
}
