//! The loops that are open at an instruction.

ghost use Rattle.std.specs.Prelude.{◌≡◌, ◌+◌, ◌<◌, ◌^◌, ◌∷◌, [], List, OnOk, MatchOption, option_copied, length, slice_get, nat_le};
ghost use Rattle.cel_verify.specs.declared.open_loop.Open.{Open as OpenOf};
ghost use Rattle.cel_verify.specs.Sound.{below_all, in_innermost, still_open};

use crate::open_loop::Open;
use std::alloc::{AllocError, Global};
use std::marker::Model;

/// Open loops, which contracts see as a list with the innermost first.
#[derive(Drop)]
pub struct Opens {
    items: Vec<Open>,
    // How many operands are below them, down to the bottom of the stack.
    below: usize,
}

impl Model for Opens {
    ghost use Rattle.std.specs.Prelude.{◌≡◌, List, length, reverse};
    ghost use Rattle.std.specs.Coded.{codes};
    ghost use Rattle.cel_verify.specs.declared.open_loop.Open.{Open};
    ghost use Rattle.cel_verify.specs.contracts.open_loop.Open as open_loop;
    ghost use Rattle.cel_verify.specs.Sound.{below_all};

    ghost Value = { List Open };

    ghost coded = { Prim.hlevel (codes, open_loop.the_row.coded) };

    ghost view = { λ s. reverse s.items.items };

    ghost invariant = { λ s. s.below ≡ length (below_all (reverse s.items.items)) };
}

impl Opens {
    pub fn new(alloc: Global) -> Opens
        ensures { result ≡ [] }
    {
        Opens {
            items: Vec::new(alloc),
            below: 0,
        }
    }

    /// One more, the innermost.
    pub fn push(&mut self, begun: Open) -> Result<(), AllocError>
        requires room { length begun.below + length (below_all self.old) < 2 ^ 64 }
        ensures { OnOk result (self.new ≡ begun ∷ self.old) }
    {
        let below = self.below + begun.below.len();
        self.items.push(begun)?;
        self.below = below;
        Ok(())
    }

    /// Takes off the innermost.
    pub fn pop(&mut self) -> Option<Open>
        ensures { MatchOption result ((self.old ≡ []) × (self.new ≡ [])) (λ o. self.old ≡ o ∷ self.new) }
    {
        let Some(ended) = self.items.pop() else {
            return None;
        };
        let below = self.below - ended.below.len();
        self.below = below;
        Some(ended)
    }

    /// How many there are.
    pub fn len(&self) -> usize
        ensures { result ≡ length self.now }
    {
        self.items.len()
    }

    /// How many operands are below them, down to the bottom of the stack.
    pub fn below(&self) -> usize
        ensures { result ≡ length (below_all self.now) }
    {
        self.below
    }

    /// The innermost.
    pub fn innermost(&self) -> Option<&Open>
        ensures { MatchOption result (self.now ≡ []) (λ o. (outside : List OpenOf) × (self.now ≡ o.now ∷ outside)) }
    {
        self.get(0)
    }

    /// The one that has so many within it: the innermost has none.
    pub fn get(&self, within: usize) -> Option<&Open>
        ensures { option_copied result ≡ slice_get self.now within }
    {
        let count = self.items.len();
        if within >= count {
            return None;
        }
        self.items.as_slice().get(count - 1 - within)
    }
}

/// Takes off those that lead no further than an instruction, up to the first that does.
pub fn close_ended(opens: &mut Opens, at: usize)
    ensures { opens.new ≡ still_open at opens.old }
{
    while innermost_ends(opens, at) {
        opens.pop();
    }
}

// Whether there is an innermost one that leads no further than an instruction.
fn innermost_ends(opens: &Opens, at: usize) -> bool
    ensures { result ≡ in_innermost (λ o. nat_le o.exit at) opens.now }
{
    match opens.innermost() {
        Some(around) => around.exit <= at,
        None => false,
    }
}
