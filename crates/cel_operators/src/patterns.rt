//! The answer of `regex` for each text that was asked.
ghost use Rattle.std.specs.Prelude.{◌≡◌, List, ℕ, [], ◌∷◌, true, false, map, string_bytes};
ghost use Rattle.std.specs.Prelude.{IfOk, OnOk, OnErr, IsSome, is_some, Some, None};
ghost use Rattle.cel_operators.specs.PatternAnswers.{answer_in, choice_in, AsksOnly, Grows, Honours, IsHonest};
ghost use Rattle.cel_operators.specs.PatternChoice.{then_answered, refuses};
ghost use Rattle.cel_operators.specs.PatternMeaning.{tree_of};

use crate::regexes::builds;
use std::alloc::{AllocError, Global};
use std::collections::BTreeMap;
use std::marker::Model;

/// Which texts `regex` builds, as far as it was asked; contracts see what was asked and answered. It is asked once for
/// each text.
pub struct Patterns {
    answers: BTreeMap<String, bool>,
    refused: Vec<String>,
}

impl Drop for Patterns {
    fn drop(self) {
        let Patterns {
            answers: _answers,
            refused: _refused,
        } = self;
    }
}

impl Model for Patterns {
    ghost use Rattle.cel_operators.specs.PatternAnswers.{Asked, IsHonest, told_by};

    ghost Value = { Asked };

    ghost view = { λ p. told_by p.answers p.refused.items };

    ghost invariant = { λ p. IsHonest (told_by p.answers p.refused.items) };
}

impl Patterns {
    /// It takes no memory until a text is asked for.
    pub fn new(alloc: Global) -> Patterns
        ensures none { (text : List ℕ) → answer_in result text ≡ None }
        ensures choice { choice_in result ≡ [] }
    {
        Patterns {
            answers: BTreeMap::new(alloc),
            refused: Vec::new(alloc),
        }
    }

    /// Whether `regex` builds the pattern. An answer stays, even if a call runs out of memory.
    pub fn look_up(&mut self, alloc: Global, text: &str) -> Result<bool, AllocError>
        ensures answered { IfOk result (λ built. answer_in self.new text.now ≡ Some built) }
        ensures is_pattern { IfOk result (λ built. built ≡ true → IsSome (tree_of text.now)) }
        ensures in_order { IfOk result (λ built. choice_in self.new ≡ then_answered (choice_in self.old) text.now built) }
        ensures grows { Grows self.old self.new }
        ensures only { AsksOnly self.old self.new (text.now ∷ []) }
        ensures err { OnErr result (choice_in self.new ≡ choice_in self.old) }
    {
        match self.answer(text) {
            Some(built) => Ok(built),
            None => self.ask(alloc, text),
        }
    }

    /// The answer for a text that was asked before.
    fn answer(&self, text: &str) -> Option<bool>
        ensures answer { result ≡ answer_in self.now text.now }
        ensures honest { IsHonest self.now }
    {
        self.answers.get(text).copied()
    }

    /// Whether a text was asked for.
    pub fn is_answered(&self, text: &str) -> bool
        ensures { result ≡ is_some (answer_in self.now text.now) }
    {
        self.answer(text).is_some()
    }

    /// Equal answers, in memory of their own.
    pub fn copy(&self) -> Result<Patterns, AllocError>
        ensures { IfOk result (λ patterns. patterns ≡ self.now) }
    {
        Ok(Patterns {
            answers: self.answers.clone()?,
            refused: self.refused.clone()?,
        })
    }

    /// Whether a text was asked for and refused.
    pub fn refuses(&self, text: &str) -> bool
        ensures { result ≡ refuses (choice_in self.now) text.now }
    {
        match self.answer(text) {
            Some(built) => !built,
            None => false,
        }
    }

    /// The refused texts, in the order in which they were asked for first. It is the choice that the answers make.
    pub fn choice(&self) -> &[String]
        ensures same { map string_bytes result.now ≡ choice_in self.now }
        ensures honours { Honours self.now (choice_in self.now) }
        ensures honest { IsHonest self.now }
    {
        self.refused.as_slice()
    }

    /// Asks `regex` about a text that is new. Not inlined, as it is rare and has large locals.
    #[cold]
    #[inline(never)]
    fn ask(&mut self, alloc: Global, text: &str) -> Result<bool, AllocError>
        requires new { answer_in self.old text.now ≡ None }
        ensures answered { IfOk result (λ built. answer_in self.new text.now ≡ Some built) }
        ensures is_pattern { IfOk result (λ built. built ≡ true → IsSome (tree_of text.now)) }
        ensures in_order { IfOk result (λ built. choice_in self.new ≡ then_answered (choice_in self.old) text.now built) }
        ensures grows { Grows self.old self.new }
        ensures only { AsksOnly self.old self.new (text.now ∷ []) }
        ensures err { OnErr result (choice_in self.new ≡ choice_in self.old) }
    {
        let built = builds(alloc, text)?;
        if built {
            self.keep_built(alloc, text)?;
        } else {
            self.keep_refused(alloc, text)?;
        }
        Ok(built)
    }

    fn keep_built(&mut self, alloc: Global, text: &str) -> Result<(), AllocError>
        requires new { answer_in self.old text.now ≡ None }
        requires is_pattern { IsSome (tree_of text.now) }
        ensures answered { OnOk result (answer_in self.new text.now ≡ Some true) }
        ensures choice { choice_in self.new ≡ choice_in self.old }
        ensures grows { Grows self.old self.new }
        ensures only { AsksOnly self.old self.new (text.now ∷ []) }
    {
        let key = String::from_str(alloc, text)?;
        self.answers.insert(key, true)?;
        Ok(())
    }

    fn keep_refused(&mut self, alloc: Global, text: &str) -> Result<(), AllocError>
        requires new { answer_in self.old text.now ≡ None }
        ensures answered { OnOk result (answer_in self.new text.now ≡ Some false) }
        ensures in_order { OnOk result (choice_in self.new ≡ then_answered (choice_in self.old) text.now false) }
        ensures grows { Grows self.old self.new }
        ensures only { AsksOnly self.old self.new (text.now ∷ []) }
        ensures err { OnErr result (choice_in self.new ≡ choice_in self.old) }
    {
        let key = String::from_str(alloc, text)?;
        let name = String::from_str(alloc, text)?;
        self.refused.reserve(1)?;
        self.answers.insert(key, false)?;
        self.refused.push_reserved(name);
        Ok(())
    }
}
