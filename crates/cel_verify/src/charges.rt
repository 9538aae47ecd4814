//! The greatest charge of each instruction.

ghost use Rattle.std.specs.Prelude.{◌≡◌, ◌-◌, ◌^◌, min, Some, reverse, slice_get};
ghost use Rattle.cel_operators.specs.Operators.{row};
ghost use Rattle.cel_operators.specs.TextOperators.{row_with};
ghost use Rattle.cel_code.specs.Machine.{constant_text};
ghost use Rattle.cel_verify.specs.Paths.{text_charge, row_charge, charge_in};
ghost use Rattle.cel_verify.specs.Walked.{charge_on_one, charge_on_two};

use crate::constants::constant_text;
use crate::map_rule::map_charge;
use crate::type_stack::TypeStack;
use cel_code::{Image, Instr};
use cel_operators::{Operands, Operator, TextOperator, greatest_of_one, greatest_of_two};
use cel_value::CelType;

/// The greatest charge of an instruction at the types of the stack; nothing if it is not reached.
pub fn charge(image: &Image, instr: Instr, label: &Option<TypeStack>) -> u64
    ensures { result ≡ min (charge_in image.now.constants (Some instr) label.now) (2 ^ 64 - 1) }
{
    let Some(types) = label else {
        return 0;
    };
    match instr {
        Instr::Op(code) => match Operator::from_code(code) {
            Some(op) => operator_charge(op, types.as_slice()),
            None => 0,
        },
        Instr::WithText(op, number) => text_charge(image, op, number, types.as_slice()),
        Instr::List(count) => (count as u64).saturating_add(1),
        Instr::Map(count) => map_charge(count, types.as_slice()),
        Instr::AndTest(_) | Instr::OrTest(_) | Instr::Cond(_, _) => 1,
        Instr::Slot(_) | Instr::Local(_) | Instr::Loop(_, _) | Instr::Item => 1,
        _ => 0,
    }
}

fn operator_charge(op: Operator, types: &[CelType]) -> u64
    ensures { result ≡ min (row_charge (row op) (reverse types.now)) (2 ^ 64 - 1) }
{
    match op.operands() {
        Operands::One(_) => charge_on_one(op, types),
        Operands::Two(_, _) => charge_on_two(op, types),
    }
}

fn text_charge(image: &Image, op: TextOperator, number: usize, types: &[CelType]) -> u64
    ensures { result ≡ min (text_charge op (constant_text (slice_get image.now.constants number)) (reverse types.now)) (2 ^ 64 - 1) }
{
    match constant_text(image, number) {
        Some(text) => charge_with(op, text, types),
        None => 0,
    }
}

fn charge_with(op: TextOperator, text: &str, types: &[CelType]) -> u64
    ensures { result ≡ min (charge_on_one (row_with op text.now) (reverse types.now)) (2 ^ 64 - 1) }
{
    let [.., t] = types else {
        return 0;
    };
    op.greatest(text, t)
}

fn charge_on_one(op: Operator, types: &[CelType]) -> u64
    ensures { result ≡ min (charge_on_one (row op) (reverse types.now)) (2 ^ 64 - 1) }
{
    let [.., t] = types else {
        return 0;
    };
    greatest_of_one(op, t)
}

fn charge_on_two(op: Operator, types: &[CelType]) -> u64
    ensures { result ≡ min (charge_on_two (row op) (reverse types.now)) (2 ^ 64 - 1) }
{
    let [.., s, t] = types else {
        return 0;
    };
    greatest_of_two(op, s, t)
}
