//! Which texts are taken as no patterns: those that `regex` refuses.

ghost use Rattle.std.specs.Prelude.{◌≡◌, IfOk, OnOk};
ghost use Rattle.cel_operators.specs.PatternAnswers.{choice_in, AsksOnly, Grows, IsHonest};
ghost use Rattle.cel_check.specs.PatternTexts.{AreAnswered};
ghost use Rattle.cel_expression.specs.Patterns.{patterns_of};

use base_containers::{Items, Shared, Text};
use cel_check::ask;
use cel_operators::Patterns;
use cel_parse::{ParseError, parse};
use std::alloc::{AllocError, Global};

/// Asks for each literal text that `matches` is given in a text's expression whether it is a pattern, and for no other text.
pub fn ask_patterns(alloc: Global, text: &str, patterns: &mut Patterns) -> Result<(), AllocError>
    ensures answered { OnOk result (AreAnswered patterns.new (patterns_of text.now)) }
    ensures only { AsksOnly patterns.old patterns.new (patterns_of text.now) }
    ensures grows { Grows patterns.old patterns.new }
{
    match parse(alloc, text) {
        Ok(expression) => ask(alloc, &expression, patterns),
        Err(ParseError::Fault(_)) => Ok(()),
        Err(ParseError::OutOfMemory) => Err(AllocError),
    }
}

/// The texts that were refused, as a choice.
pub fn choice_of(alloc: Global, patterns: &Patterns) -> Result<Shared<Items<Text>>, AllocError>
    ensures refused { IfOk result (λ choice. choice ≡ choice_in patterns.now) }
    // These are the texts that were answered with no, and each that was answered with yes is a pattern.
    ensures honest { IsHonest patterns.now }
{
    let refused = patterns.choice();
    let mut texts = Items::new(alloc);
    for text in refused {
        texts.push(Text::from_str(alloc, text.as_str())?)?;
    }
    Shared::new(alloc, texts)
}
