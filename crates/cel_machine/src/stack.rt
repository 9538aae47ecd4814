ghost use Rattle.std.specs.Prelude.{◌≡◌, ◌∷◌, ◌<◌, [], false, Ok, IfOk, IfSome, IsTrue, MatchOption, OnOk, length, option_map, reverse};
ghost use Rattle.cel_value.specs.declared.value.Value as V;
ghost use Rattle.cel_machine.specs.Follow.{below_top, below_two, top_of};
ghost use Rattle.cel_operators_applied.specs.Lent.{lent};
ghost use Rattle.cel_machine.specs.Room.{HasRoom};

use crate::operand::{Operand, read, set_lent, set_truth};
use cel_value::{CelError, Value};
use std::alloc::{AllocError, Global};
use std::marker::Model;

/// The operands, with room for so many. Contracts see them as a list with the top first, and the room.
#[derive(Drop)]
pub struct Stack<'a> {
    items: Vec<Result<Operand<'a>, CelError>>,
    room: usize,
}

impl<'a> Model for Stack<'a> {
    ghost use Rattle.std.specs.Prelude.{◌≤◌, reverse, vec_capacity};
    ghost use Rattle.std.specs.Coded.{codes};
    ghost use Rattle.cel_value.specs.contracts.value.Value as cel_value;
    ghost use Rattle.cel_machine.specs.Room.{Operands};

    ghost Value = { Operands };

    ghost coded = { Prim.hlevel (codes, cel_value.the_row.coded) };

    ghost view = { λ s. record { items = reverse s.items.items; room = s.room } };

    ghost invariant = { λ s. s.room ≤ vec_capacity s.items };
}

impl<'a> Stack<'a> {
    /// An empty stack without room. This takes no memory.
    pub fn new(alloc: Global) -> Stack<'a>
        ensures items { result.items ≡ [] }
        ensures room { result.room ≡ 0 }
    {
        Stack {
            items: Vec::new(alloc),
            room: 0,
        }
    }

    /// An empty stack with room for so many operands.
    pub fn with_room(alloc: Global, room: usize) -> Result<Stack<'a>, AllocError>
        ensures items { IfOk result (λ stack. stack.items ≡ []) }
        ensures room { IfOk result (λ stack. stack.room ≡ room) }
    {
        Ok(Stack {
            items: Vec::with_capacity(alloc, room)?,
            room,
        })
    }

    /// Lets go of the operands, and makes room for so many. It takes memory only where there was never that much room.
    pub fn make_room(&mut self, room: usize) -> Result<(), AllocError>
        ensures items { OnOk result (self.new.items ≡ []) }
        ensures room { OnOk result (self.new.room ≡ room) }
    {
        self.items.clear();
        self.items.reserve(room)?;
        self.room = room;
        Ok(())
    }

    /// One more operand, for which there is room: this takes no memory.
    pub fn push(&mut self, item: Result<Operand<'a>, CelError>)
        requires { HasRoom self.old }
        ensures items { self.new.items ≡ item.entry ∷ self.old.items }
        ensures room { self.new.room ≡ self.old.room }
    {
        self.items.push_reserved(item);
    }

    pub fn pop(&mut self) -> Option<Result<Operand<'a>, CelError>>
        ensures items { MatchOption result ((self.old.items ≡ []) × (self.new.items ≡ []))
            (λ x. self.old.items ≡ x ∷ self.new.items) }
        ensures room { self.new.room ≡ self.old.room }
    {
        self.items.pop()
    }

    /// Lets go of the top, if there is one.
    #[inline(always)]
    pub fn drop_top(&mut self)
        ensures items { self.new.items ≡ below_top self.old.items }
        ensures room { self.new.room ≡ self.old.room }
    {
        // (most are truth values or elsewhere, which is seen without looking up how a kind is let go)
        if let Some(Ok(operand)) = self.pop() {
            operand.let_go();
        }
    }

    /// The value on top, if it is lent.
    pub fn lent_top(&self) -> Option<&'a Value>
        ensures { IfSome result (λ value. self.now.items ≡ Ok value.now ∷ below_top self.now.items) }
    {
        match self.items.last() {
            Some(Ok(operand)) => operand.lent_value(),
            _ => None,
        }
    }

    /// An operand in place of the top: this takes no memory.
    #[inline(always)]
    pub fn put_over_top(&mut self, item: Result<Operand<'a>, CelError>)
        requires room { HasRoom self.old }
        ensures items { self.new.items ≡ item.entry ∷ below_top self.old.items }
        ensures room { self.new.room ≡ self.old.room }
    {
        self.drop_top();
        self.items.push_reserved(item);
    }

    /// A truth value in place of the top, which is changed where it is if it needs no memory.
    pub fn put_truth(&mut self, holds: bool)
        requires room { HasRoom self.old }
        ensures items { self.new.items ≡ Ok (V.Bool holds) ∷ below_top self.old.items }
        ensures room { self.new.room ≡ self.old.room }
    {
        if !self.set_truth(holds) {
            self.put_over_top(Ok(Operand::own(Value::Bool(holds))));
        }
    }

    // Makes the top a truth value where it is, if it needs no memory.
    fn set_truth(&mut self, holds: bool) -> bool
        ensures set { IsTrue result → self.new.items ≡ Ok (V.Bool holds) ∷ below_top self.old.items }
        ensures kept { result ≡ false → self.new.items ≡ self.old.items }
        ensures room { self.new.room ≡ self.old.room }
    {
        let Some(top) = self.items.last_mut() else {
            return false;
        };
        set_truth(top, holds)
    }

    /// A value that is elsewhere in place of the top. Where the top is one that is elsewhere, only its place is changed.
    #[inline(always)]
    pub fn put_lent(&mut self, value: &'a Value)
        requires room { HasRoom self.old }
        ensures items { self.new.items ≡ Ok value.now ∷ below_top self.old.items }
        ensures room { self.new.room ≡ self.old.room }
    {
        if !self.set_lent(value) {
            self.put_over_top(Ok(Operand::lent(value)));
        }
    }

    // Makes the top this value that is elsewhere, if it is one that is elsewhere.
    fn set_lent(&mut self, value: &'a Value) -> bool
        ensures set { IsTrue result → self.new.items ≡ Ok value.now ∷ below_top self.old.items }
        ensures kept { result ≡ false → self.new.items ≡ self.old.items }
        ensures room { self.new.room ≡ self.old.room }
    {
        let Some(top) = self.items.last_mut() else {
            return false;
        };
        set_lent(top, value)
    }

    /// An operand in place of the two on top: this takes no memory.
    pub fn put_over_two(&mut self, item: Result<Operand<'a>, CelError>)
        requires room { HasRoom self.old }
        ensures items { self.new.items ≡ item.entry ∷ below_two self.old.items }
        ensures room { self.new.room ≡ self.old.room }
    {
        self.drop_top();
        self.drop_top();
        self.items.push_reserved(item);
    }

    /// The operands, the bottom first.
    pub fn as_slice(&self) -> &[Result<Operand<'a>, CelError>]
        ensures { self.now.items ≡ reverse result.now }
    {
        self.items.as_slice()
    }

    pub fn top(&self) -> Option<Result<&Value, CelError>>
        ensures { option_map lent result ≡ top_of self.now.items }
    {
        match self.items.last() {
            Some(operand) => Some(read(operand)),
            None => None,
        }
    }
}
