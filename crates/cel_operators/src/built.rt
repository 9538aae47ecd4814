//! A pattern beside the automaton that searches for it. Neither borrows the other, so both can be kept.
ghost use Rattle.std.specs.Prelude.{◌≡◌, IfOk, IfErr, IfSome, IsSome};
ghost use Rattle.regex.specs.Strings.{regex_pattern, regex_source};
ghost use Rattle.regex_dfa.specs.Search.{IsForwardFor};
ghost use Rattle.base_containers.specs.Failures.{IfFault};
ghost use Rattle.cel_operators.specs.PatternMeaning.{tree_of, is_found};
ghost use Rattle.cel_operators.specs.Building.{IsReason, AnswersText, FindsAlike};

use crate::Unbuilt;
use crate::regexes::{program_of, regex_of};
use regex::Regex;
use regex_dfa::{End, Forward};
use regex_meta::Program;
use std::alloc::{AllocError, Global};

/// A pattern that keeps what its searches have found out.
#[derive(Drop)]
pub struct Built {
    /// What the text means, and what searches if the automaton cannot.
    regex: Regex,
    /// The same text once more, and its automaton, which owns what it has worked out.
    program: Program,
    forward: Forward,
    ghost is_pattern: { IsSome (tree_of (regex_source regex)) },
    ghost answers: { AnswersText (regex_pattern regex) (regex_source regex) },
    ghost runs: { IsForwardFor forward program.dfa },
    ghost alike: { FindsAlike program (regex_pattern regex) },
}

impl Built {
    ghost use Rattle.cel_operators.specs.BuiltText.{built_text};

    pub fn new(alloc: Global, text: &str) -> Result<Built, Unbuilt>
        ensures text { IfOk result (λ b. built_text b ≡ text.now) }
        ensures refused { IfErr result (IfFault (IsReason text.now)) }
    {
        let regex = regex_of(alloc, text)?;
        let program = program_of(alloc, text)?;
        let forward = Forward::new(alloc, &program.dfa, false)?;
        Ok(Built {
            regex,
            program,
            forward,
        })
    }

    /// Whether the pattern is found anywhere in a text.
    pub fn finds(&mut self, alloc: Global, text: &str) -> Result<bool, AllocError>
        ensures found { IfOk result (λ found. found ≡ is_found (built_text self.old) text.now) }
        ensures same { built_text self.new ≡ built_text self.old }
    {
        match self.at_once(text) {
            Some(found) => Ok(found),
            None => self.slowly(alloc, text),
        }
    }

    /// The same by the automaton, if it can answer. It may give up; and since it sees bytes, not characters, a match
    /// that may be empty is not for it.
    fn at_once(&mut self, text: &str) -> Option<bool>
        ensures found { IfSome result (λ found. found ≡ is_found (built_text self.old) text.now) }
        ensures same { built_text self.new ≡ built_text self.old }
    {
        if self.program.min_len == 0 {
            return None;
        }
        let hay = text.as_bytes();
        match self
            .forward
            .find_end(&self.program.dfa, hay, 0, hay.len(), false, true)
        {
            End::At(_) => Some(true),
            End::NoMatch => Some(false),
            _ => None,
        }
    }

    /// The same by a matcher that is made for this call. Not inlined: a function pays at entry for the size of its
    /// locals, and a matcher is large.
    #[cold]
    #[inline(never)]
    fn slowly(&self, alloc: Global, text: &str) -> Result<bool, AllocError>
        ensures { IfOk result (λ found. found ≡ is_found (built_text self.now) text.now) }
    {
        let mut matcher = self.regex.matcher(alloc)?;
        Ok(matcher.is_match(text))
    }
}
