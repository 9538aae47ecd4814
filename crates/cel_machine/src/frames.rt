ghost use Rattle.std.specs.Prelude.{◌≡◌, ◌∷◌, [], List, None, Some, reverse, slice_get, option_copied, IfOk, MatchBool, MatchOption, OnOk};
ghost use Rattle.cel_operators.specs.Outcomes.{Outcome};
ghost use Rattle.cel_machine.specs.Follow.{advanced, next_in, passed_in, turned_in};

use crate::frame::Frame;
use crate::operand::Operand;
use crate::turns::{Turned, passes};
use cel_value::CelError;
use std::alloc::{AllocError, Global};
use std::marker::Model;

/// The open loops, which contracts see as a list with the innermost first.
#[derive(Drop)]
pub struct Frames<'a> {
    items: Vec<Frame<'a>>,
}

impl<'a> Model for Frames<'a> {
    ghost use Rattle.std.specs.Prelude.{List, reverse};
    ghost use Rattle.std.specs.Coded.{codes};
    ghost use Rattle.cel_value.specs.contracts.value.Value as cel_value;
    ghost use Rattle.cel_code.specs.Machine.{Frame as OpenLoop};

    ghost Value = { List OpenLoop };

    ghost coded = { Prim.hlevel (codes, cel_value.the_row.coded) };

    ghost view = { λ s. reverse s.items.items };
}

impl<'a> Frames<'a> {
    /// No open loop. This takes no memory.
    pub fn new(alloc: Global) -> Frames<'a>
        ensures { result ≡ [] }
    {
        Frames {
            items: Vec::new(alloc),
        }
    }

    /// Closes all loops.
    pub fn clear(&mut self)
        ensures { self.new ≡ [] }
    {
        self.items.clear();
    }

    /// One more open loop.
    pub fn push(&mut self, frame: Frame<'a>) -> Result<(), AllocError>
        ensures { OnOk result (self.new ≡ frame.entry ∷ self.old) }
    {
        self.items.push(frame)?;
        Ok(())
    }

    pub fn pop(&mut self) -> Option<Frame<'a>>
        ensures { MatchOption result ((self.old ≡ []) × (self.new ≡ []))
            (λ frame. self.old ≡ frame ∷ self.new) }
    {
        self.items.pop()
    }

    /// The innermost loop is at its next item, if there is one.
    pub fn advance(&mut self) -> bool
        ensures { MatchBool result (advanced self.old ≡ Some self.new) (advanced self.old ≡ None) }
    {
        let Some(frame) = self.items.last_mut() else {
            return false;
        };
        frame.advance()
    }

    /// Whether the innermost loop goes on from an item with what it has gathered, its body a predicate that gave this there.
    pub fn passes(&self, side: Option<Result<bool, CelError>>) -> bool
        ensures { result ≡ passed_in side self.now }
    {
        match self.items.last() {
            Some(frame) => passes(frame.mode(), side),
            None => false,
        }
    }

    /// The innermost loop's turn at its item, by what its body gave there.
    pub fn turn(
        &mut self,
        alloc: Global,
        x: Result<Operand<'_>, CelError>,
    ) -> Result<Turned, AllocError>
        ensures { IfOk result (λ t. (stack : List Outcome) → next_in (x.entry ∷ stack) self.old
            ≡ turned_in t stack self.new) }
    {
        let Some(frame) = self.items.last_mut() else {
            return Ok(Turned::IsStuck);
        };
        frame.turn(alloc, x)
    }

    /// The open loop by the number of loops between: 0 is the innermost.
    pub fn get(&self, number: usize) -> Option<&Frame<'a>>
        ensures { option_copied result ≡ slice_get self.now number }
    {
        if number == 0 {
            return self.items.last();
        }
        at_depth(&self.items, number)
    }
}

fn at_depth<'f, 'a>(frames: &'f [Frame<'a>], number: usize) -> Option<&'f Frame<'a>>
    ensures { option_copied result ≡ slice_get (reverse frames.now) number }
{
    match frames {
        [] => None,
        [rest @ .., frame] => {
            if number == 0 {
                Some(frame)
            } else {
                at_depth(rest, number - 1)
            }
        }
    }
}
