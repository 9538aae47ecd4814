ghost use Rattle.std.specs.Prelude.{◌≡◌, ◌++◌, Some, option_map, slice_get};
ghost use Rattle.cel_operators.specs.Outcomes.{outcome_fits, slots_fit as fits_slots};
ghost use Rattle.cel_operators_applied.specs.Lent.{lent, all_lent};

use cel_value::{CelError, CelType, Value, fits};
use cel_verify::Program;
use std::marker::Model;

/// What the slots of a program hold: values that are lent and errors, and after them what was made, values and errors too.
/// Contracts see one list of the values themselves and the errors.
#[derive(Drop)]
pub struct Slots<'a> {
    lent: &'a [Result<&'a Value, CelError>],
    made: &'a [Result<Value, CelError>],
}

impl<'a> Model for Slots<'a> {
    ghost use Rattle.std.specs.Prelude.{◌++◌, List};
    ghost use Rattle.std.specs.Coded.{codes};
    ghost use Rattle.cel_value.specs.contracts.value.Value as cel_value;
    ghost use Rattle.cel_operators.specs.Outcomes.{Outcome};
    ghost use Rattle.cel_operators_applied.specs.Lent.{all_lent};

    ghost Value = { List Outcome };

    ghost coded = { Prim.hlevel (codes, cel_value.the_row.coded) };

    ghost view = { λ s. all_lent s.lent.now ++ s.made.now };
}

impl<'a> Slots<'a> {
    /// What is lent, and after it what was made; nothing is copied. [`slots_fit`] is the test of what slots may hold.
    pub fn new(
        lent: &'a [Result<&'a Value, CelError>],
        made: &'a [Result<Value, CelError>],
    ) -> Slots<'a>
        ensures { result ≡ all_lent lent.now ++ made.now }
    {
        Slots { lent, made }
    }

    /// What the slot of this number holds, if there is one.
    pub fn get(&self, number: usize) -> Option<Result<&Value, CelError>>
        ensures { option_map lent result ≡ slice_get self.now number }
    {
        if number < self.lent.len() {
            return Some(self.lent[number]);
        }
        match self.made.get(number - self.lent.len()) {
            Some(Ok(value)) => Some(Ok(value)),
            Some(Err(error)) => Some(Err(*error)),
            None => None,
        }
    }

    // Whether the slot of this number holds an error, or a value of this type.
    fn is_of(&self, number: usize, cel_type: &CelType) -> bool
        ensures { result ≡ outcome_fits cel_type.now (slice_get self.now number) }
    {
        match self.get(number) {
            Some(Ok(value)) => fits(value, cel_type),
            Some(Err(_)) => true,
            None => false,
        }
    }
}

/// Whether slots hold as many values and errors as the program has slots, lent or made, and each value is of its slot's
/// type; an error fits every slot.
pub fn slots_fit(program: &Program, slots: &Slots<'_>) -> bool
    ensures { result ≡ fits_slots program.now.slots slots.now }
{
    each_fits(program.image().slots.as_slice(), slots)
}

fn each_fits(types: &[CelType], slots: &Slots<'_>) -> bool
    ensures { result ≡ fits_slots types.now slots.now }
{
    for (number, cel_type) in types.iter().enumerate() {
        if !slots.is_of(number, cel_type) {
            return false;
        }
    }
    slots.get(types.len()).is_none()
}
