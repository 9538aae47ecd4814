ghost use Rattle.std.specs.Prelude.{◌≡◌, ◌<◌, ◌∷◌, ◌++◌, [], OnOk, IfOk, MatchOption, length, reverse};
ghost use Rattle.cel_verify.specs.StackTypes.{all_assignable};

use cel_value::{CelType, assignable, copy_types};
use std::alloc::{AllocError, Global};
use std::marker::Model;

/// The types of the operands, which contracts see as a list with the top first.
#[derive(Drop)]
pub struct TypeStack {
    items: Vec<CelType>,
}

impl Model for TypeStack {
    ghost use Rattle.std.specs.Prelude.{reverse};
    ghost use Rattle.std.specs.Coded.{codes};
    ghost use Rattle.cel_value.specs.contracts.cel_type.CelType as cel_type;
    ghost use Rattle.cel_verify.specs.StackTypes.{StackTypes};

    ghost Value = { StackTypes };

    ghost coded = { Prim.hlevel (codes, cel_type.the_row.coded) };

    ghost view = { λ s. reverse s.items.items };
}

impl TypeStack {
    pub fn new(alloc: Global) -> TypeStack
        ensures { result ≡ [] }
    {
        TypeStack {
            items: Vec::new(alloc),
        }
    }

    /// The stack of these types, the bottom first.
    pub fn from_slice(alloc: Global, types: &[CelType]) -> Result<TypeStack, AllocError>
        ensures { IfOk result (λ s. s ≡ reverse types.now) }
    {
        Ok(TypeStack {
            items: copy_types(alloc, types)?,
        })
    }

    pub fn push(&mut self, cel_type: CelType) -> Result<(), AllocError>
        ensures { OnOk result (self.new ≡ cel_type ∷ self.old) }
    {
        self.items.push(cel_type)?;
        Ok(())
    }

    pub fn pop(&mut self) -> Option<CelType>
        ensures { MatchOption result ((self.old ≡ []) × (self.new ≡ [])) (λ t. self.old ≡ t ∷ self.new) }
    {
        self.items.pop()
    }

    pub fn len(&self) -> usize
        ensures { result ≡ length self.now }
    {
        self.items.len()
    }

    /// The types, the bottom first.
    pub fn as_slice(&self) -> &[CelType]
        ensures { self.now ≡ reverse result.now }
    {
        self.items.as_slice()
    }

    /// Whether what has these types may be used where the others are required, which are given with the bottom first.
    pub fn fits(&self, entry: &[CelType]) -> bool
        ensures { result ≡ all_assignable self.now (reverse entry.now) }
    {
        each_assignable(self.items.as_slice(), entry)
    }

    /// The same with a type more on top of these.
    pub fn fits_under(&self, top: &CelType, entry: &[CelType]) -> bool
        ensures { result ≡ all_assignable (top.now ∷ self.now) (reverse entry.now) }
    {
        let Some((below, t)) = last_of(entry) else {
            return false;
        };
        if !assignable(top, t) {
            return false;
        }
        self.fits(below)
    }
}

// The last of several types, and those before it.
fn last_of(types: &[CelType]) -> Option<(&[CelType], &CelType)>
    ensures { MatchOption result (length types.now < 1) (λ parts. types.now ≡ parts.0.now ++ parts.1.now ∷ []) }
{
    match types {
        [below @ .., t] => Some((below, t)),
        _ => None,
    }
}

fn each_assignable(from: &[CelType], to: &[CelType]) -> bool
    ensures { result ≡ all_assignable (reverse from.now) (reverse to.now) }
{
    if from.len() != to.len() {
        return false;
    }
    let mut left = from.len();
    while left > 0 {
        left -= 1;
        if !assignable(&from[left], &to[left]) {
            return false;
        }
    }
    true
}
