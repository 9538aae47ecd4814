//! Open loops.

ghost use Rattle.std.specs.Prelude.{◌≡◌, ◌+◌, ◌<◌, ◌^◌, [], length, IfOk, IfSome, MatchBool, Ok, Some};
ghost use Rattle.cel_value.specs.declared.value.Value as V;
ghost use Rattle.cel_operators.specs.Loops.{turn as turn_of, result_of as result_of_loop};
ghost use Rattle.cel_machine.specs.Ranges.{range_items, opened_over, taking, with_gathered};
ghost use Rattle.cel_machine.specs.Turns.{turn_by};

use crate::operand::Operand;
use crate::range::Range;
use crate::turns::{Turned, nothing_yet, result_of, turn};
use cel_operators::Accumulator;
use cel_value::{CelError, Loop, Value};
use std::alloc::{AllocError, Global};
use std::marker::Model;

/// An open loop, which contracts see as the definition has it.
#[derive(Drop)]
pub struct Frame<'a> {
    start: usize,
    exit: usize,
    mode: Loop,
    range: Range<'a>,
    /// How many items were taken. The loop is at the last of them, and at the first item before any was.
    taken: usize,
    gathered: Accumulator,
}

impl<'a> Model for Frame<'a> {
    ghost use Rattle.std.specs.Prelude.{◌+◌, ◌-◌, ◌<◌, ◌≤◌, ◌^◌, drop, length};
    ghost use Rattle.std.specs.Coded.{codes};
    ghost use Rattle.cel_value.specs.contracts.value.Value as cel_value;
    ghost use Rattle.cel_code.specs.Machine.{Frame as OpenLoop};

    ghost Value = { OpenLoop };

    ghost coded = { Prim.hlevel (codes, cel_value.the_row.coded) };

    // Below `Value`, since that file speaks of `Range`.
    ghost use Rattle.cel_machine.specs.Ranges.{range_items, item_at};

    ghost view = { λ f. record {
      start = f.start;
      exit = f.exit;
      mode = f.mode;
      item = item_at (range_items f.range) (f.taken - 1);
      left = drop f.taken (range_items f.range);
      gathered = f.gathered;
    } };

    ghost invariant = { λ f. (f.start + 1 < 2 ^ 64)
        × ((0 < length (range_items f.range)) × (f.taken ≤ length (range_items f.range))) };
}

impl<'a> Frame<'a> {
    /// A loop over a range that has items, at the first of them.
    pub fn new(alloc: Global, start: usize, exit: usize, mode: Loop, range: Range<'a>) -> Frame<'a>
        requires start { start + 1 < 2 ^ 64 }
        requires some { 0 < length (range_items range) }
        ensures { Some result ≡ opened_over start exit mode (range_items range.entry) }
    {
        Frame {
            start,
            exit,
            mode,
            range,
            taken: 0,
            gathered: nothing_yet(alloc),
        }
    }

    pub fn mode(&self) -> Loop
        ensures { result ≡ self.now.mode }
    {
        self.mode
    }

    /// Where it leads.
    pub fn exit(&self) -> usize
        ensures { result ≡ self.now.exit }
    {
        self.exit
    }

    /// Where it takes its items.
    pub fn again(&self) -> usize
        ensures { result ≡ self.now.start + 1 }
    {
        self.start + 1
    }

    /// Whether items are left.
    pub fn has_left(&self) -> bool
        ensures { MatchBool result (0 < length self.now.left) (self.now.left ≡ []) }
    {
        self.taken < self.range.len()
    }

    /// The item at which it is: lent on if it is lent, else copied.
    pub fn item(&self, alloc: Global) -> Result<Operand<'a>, AllocError>
        ensures { IfOk result (λ item. item ≡ self.now.item) }
    {
        self.range.item(alloc, self.taken.saturating_sub(1))
    }

    /// The item at which it is, if it is lent.
    pub fn lent_item(&self) -> Option<&'a Value>
        ensures { IfSome result (λ item. item.now ≡ self.now.item) }
    {
        self.range.lent_item(self.taken.saturating_sub(1))
    }

    /// On to the next item, if one is left.
    pub fn advance(&mut self) -> bool
        ensures { MatchBool result (taking self.old self.old.left ≡ Some self.new) (self.old.left ≡ []) }
    {
        if self.taken < self.range.len() {
            self.taken += 1;
            return true;
        }
        false
    }

    /// Its turn at the item, by what its body gave there.
    pub fn turn(
        &mut self,
        alloc: Global,
        x: Result<Operand<'_>, CelError>,
    ) -> Result<Turned, AllocError>
        ensures turned { IfOk result (λ t. turn_by t self.new.gathered
            ≡ turn_of self.old.mode self.old.item self.old.gathered (Some x.entry)) }
        ensures kept { self.new ≡ with_gathered self.new.gathered self.old }
    {
        turn(
            alloc,
            self.mode,
            &self.range,
            self.taken.saturating_sub(1),
            &mut self.gathered,
            x,
        )
    }

    /// What it makes of what it has gathered, if that is a truth value that it needs no tally for.
    pub fn truth(&self) -> Option<bool>
        ensures { IfSome result (λ holds. result_of_loop self.now.mode self.now.gathered ≡ Ok (V.Bool holds)) }
    {
        match (self.mode, &self.gathered.error) {
            (Loop::All, None) => Some(true),
            (Loop::Exists, None) => Some(false),
            _ => None,
        }
    }

    /// What it makes of what it has gathered.
    pub fn into_outcome(self) -> Result<Value, CelError>
        ensures { result ≡ result_of_loop self.entry.mode self.entry.gathered }
    {
        result_of(self.mode, self.gathered)
    }
}
