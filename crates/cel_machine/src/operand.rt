ghost use Rattle.std.specs.Prelude.{◌≡◌, false, Ok, IfOk, IfSome, IsTrue};
ghost use Rattle.cel_value.specs.declared.value.Value as V;
ghost use Rattle.cel_operators_applied.specs.Lent.{lent};
ghost use Rattle.cel_machine.specs.Operand.{content_of};

use cel_value::{CelError, Value};
use std::alloc::{AllocError, Global};
use std::marker::Model;

/// A value on the stack, which contracts see as the value: one that the slots or the constants lend, or one of the
/// run's own.
#[derive(Drop)]
pub struct Operand<'a> {
    held: Held<'a>,
}

/// Where the value of an operand is.
#[derive(Drop)]
pub(crate) enum Held<'a> {
    /// Among the constants or in a slot, or within what is there.
    Lent(&'a Value),
    /// On the stack.
    Own(Value),
}

impl<'a> Model for Operand<'a> {
    ghost use Rattle.cel_value.specs.declared.value.Value.{Value as CelValue};
    ghost use Rattle.cel_value.specs.contracts.value.Value as cel_value;

    ghost Value = { CelValue };

    ghost coded = { cel_value.the_row.coded };

    // Below `Value`, since that file speaks of `Held`.
    ghost use Rattle.cel_machine.specs.Operand.{content_of};

    ghost view = { λ o. content_of o.held };
}

impl<'a> Operand<'a> {
    /// A value that is elsewhere.
    pub fn lent(value: &'a Value) -> Operand<'a>
        ensures { result ≡ value.now }
    {
        Operand {
            held: Held::Lent(value),
        }
    }

    /// A value of the run's own.
    pub fn own(value: Value) -> Operand<'a>
        ensures { result ≡ value }
    {
        Operand {
            held: Held::Own(value),
        }
    }

    /// The value.
    pub fn get(&self) -> &Value
        ensures { result.now ≡ self.now }
    {
        match &self.held {
            Held::Lent(value) => value,
            Held::Own(value) => value,
        }
    }

    /// The value, if it is elsewhere.
    pub fn lent_value(&self) -> Option<&'a Value>
        ensures { IfSome result (λ value. value.now ≡ self.now) }
    {
        match &self.held {
            Held::Lent(value) => Some(*value),
            Held::Own(_) => None,
        }
    }

    /// The value, with where it is.
    pub(crate) fn into_held(self) -> Held<'a>
        ensures { content_of result ≡ self.entry }
    {
        self.held
    }

    /// Lets go of the value, which needs nothing if it is a truth value, an integer or elsewhere.
    #[inline(always)]
    pub(crate) fn let_go(self) {
        match self.held {
            Held::Lent(_) | Held::Own(Value::Bool(_) | Value::Int(_)) => {}
            Held::Own(value) => drop(value),
        }
    }

    /// The value, which is copied if it was lent.
    pub fn into_value(self, alloc: Global) -> Result<Value, AllocError>
        ensures { IfOk result (λ value. value ≡ self.entry) }
    {
        match self.held {
            Held::Lent(value) => value.copy(alloc),
            Held::Own(value) => Ok(value),
        }
    }
}

/// What an operator made, as an operand.
pub fn own<'a>(outcome: Result<Value, CelError>) -> Result<Operand<'a>, CelError>
    ensures { result ≡ outcome }
{
    match outcome {
        Ok(value) => Ok(Operand::own(value)),
        Err(error) => Err(error),
    }
}

/// Makes an operand this truth value where it is, if it needs no memory: it is a truth value of the run's own, or elsewhere.
pub(crate) fn set_truth(operand: &mut Result<Operand<'_>, CelError>, holds: bool) -> bool
    ensures set { IsTrue result → operand.new ≡ Ok (V.Bool holds) }
    ensures kept { result ≡ false → operand.new ≡ operand.old }
{
    let Ok(operand) = operand else {
        return false;
    };
    match &mut operand.held {
        Held::Own(Value::Bool(truth)) => {
            *truth = holds;
            true
        }
        Held::Own(_) => false,
        lent => {
            *lent = Held::Own(Value::Bool(holds));
            true
        }
    }
}

/// Makes an operand this value that is elsewhere, if it is one that is elsewhere.
pub(crate) fn set_lent<'a>(operand: &mut Result<Operand<'a>, CelError>, value: &'a Value) -> bool
    ensures set { IsTrue result → operand.new ≡ Ok value.now }
    ensures kept { result ≡ false → operand.new ≡ operand.old }
{
    match operand {
        Ok(
            Operand {
                held: Held::Lent(place),
            },
        ) => {
            *place = value;
            true
        }
        _ => false,
    }
}

/// An operand, as an operator reads it.
pub fn read<'b>(operand: &'b Result<Operand<'_>, CelError>) -> Result<&'b Value, CelError>
    ensures { lent result ≡ operand.now }
{
    match operand {
        Ok(operand) => Ok(operand.get()),
        Err(error) => Err(*error),
    }
}

/// An operand, as a run ends with it.
pub fn outcome_of(
    alloc: Global,
    operand: Result<Operand<'_>, CelError>,
) -> Result<Result<Value, CelError>, AllocError>
    ensures { IfOk result (λ outcome. outcome ≡ operand.entry) }
{
    match operand {
        Ok(operand) => Ok(Ok(operand.into_value(alloc)?)),
        Err(error) => Ok(Err(error)),
    }
}
