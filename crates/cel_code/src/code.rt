//! Instructions and targets in lists.

ghost use Rattle.std.specs.Prelude.{◌≡◌, ◌∷◌, [], ◌++◌, OnOk, slice_get};
ghost use Rattle.base_containers.specs.Failures.{Gives};
ghost use Rattle.std.specs.Int.{w32};
ghost use Rattle.cel_code.specs.declared.fault.ReadFault.TheVariants.{BadOpcode};
ghost use Rattle.cel_code.specs.Spelling.{be32};
ghost use Rattle.cel_code.specs.Code.{instr, is_instr, target, is_target, place_after};
ghost use Rattle.cel_code.specs.Reading.{last_of, number_at, read_by};
ghost use Rattle.cel_code.specs.CodeReading.{instr_readers, instr_at, target_at};

use crate::fault::{ReadError, ReadFault};
use crate::fields::u32_at;
use crate::image::Target;
use crate::instr::Instr;
use crate::spellable::is_short;
use crate::spelt::{Spelt, is_list, list_of, put_list};
use crate::writing::put_number;
use cel_operators::TextOperator;
use std::alloc::{AllocError, Global};

impl Spelt for Target {
    ghost reader = { target_at };

    ghost spelling = { target };

    ghost fits = { is_target };

    fn read<'a>(
        alloc: Global,
        before: &[Target],
        bytes: &'a [u8],
    ) -> Result<(Target, &'a [u8]), ReadError> {
        let (at, rest) = usize_at(bytes)?;
        if !comes_after(before, at) {
            return Err(ReadError::Fault(ReadFault::BadTable));
        }
        let (types, rest) = list_of(alloc, rest)?;
        Ok((Target { at, types }, rest))
    }

    fn put(&self, out: &mut Vec<u8>) -> Result<(), AllocError> {
        put_number(out, self.at)?;
        put_list(out, self.types.as_slice())
    }

    fn is_spelt(&self, before: &[Target]) -> bool {
        is_short(self.at) && comes_after(before, self.at) && is_list(self.types.as_slice())
    }
}

// Whether a place comes after the last one, if there is any.
#[tactic(auto, using(crate::proofs::Loops::last_at))]
fn comes_after(targets: &[Target], at: usize) -> bool
    ensures { result ≡ place_after (last_of targets.now) at }
{
    match targets.last() {
        Some(target) => target.at < at,
        None => true,
    }
}

fn usize_at(bytes: &[u8]) -> Result<(usize, &[u8]), ReadError>
    ensures { Gives (λ x. (x.0, x.1.now)) result (number_at w32 bytes.now) }
{
    let (number, rest) = u32_at(bytes)?;
    Ok((number as usize, rest))
}

impl Spelt for Instr {
    ghost reader = { λ _. instr_at };

    ghost spelling = { instr };

    ghost fits = { λ _ i. is_instr i };

    fn read<'a>(
        _alloc: Global,
        _before: &[Instr],
        bytes: &'a [u8],
    ) -> Result<(Instr, &'a [u8]), ReadError> {
        instr_of(bytes)
    }

    fn put(&self, out: &mut Vec<u8>) -> Result<(), AllocError> {
        put_instr(out, *self)
    }

    fn is_spelt(&self, _before: &[Instr]) -> bool {
        is_instr(*self)
    }
}

#[tactic(auto, unfolding(crate::specs::CodeReading::instr_at))]
fn instr_of(bytes: &[u8]) -> Result<(Instr, &[u8]), ReadError>
    ensures { Gives (λ x. (x.0, x.1.now)) result (instr_at bytes.now) }
{
    match bytes {
        [] => Err(ReadError::Fault(ReadFault::Truncated)),
        [opcode, rest @ ..] => instr_behind(*opcode, rest),
    }
}

// The instruction after its opcode.
#[tactic(auto, using(crate::proofs::Behind::no_instr))]
fn instr_behind(opcode: u8, bytes: &[u8]) -> Result<(Instr, &[u8]), ReadError>
    ensures { Gives (λ x. (x.0, x.1.now)) result (read_by BadOpcode (slice_get instr_readers opcode) bytes.now) }
{
    match opcode {
        0x0A => return Ok((Instr::And, bytes)),
        0x0C => return Ok((Instr::Or, bytes)),
        0x10 => return Ok((Instr::Item, bytes)),
        0x11 => return Ok((Instr::When, bytes)),
        0x12 => return Ok((Instr::Next, bytes)),
        0x13 => return Ok((Instr::End, bytes)),
        0x0D => {
            let (other, rest) = usize_at(bytes)?;
            let (end, rest) = usize_at(rest)?;
            return Ok((Instr::Cond(other, end), rest));
        }
        0x0F => {
            let (kind, rest) = usize_at(bytes)?;
            let (end, rest) = usize_at(rest)?;
            return Ok((Instr::Loop(kind, end), rest));
        }
        0x14..=0xFF => return Err(ReadError::Fault(ReadFault::BadOpcode)),
        _ => {}
    }
    let (operand, rest) = usize_at(bytes)?;
    let instr = match opcode {
        0x00 => Instr::Const(operand),
        0x01 => Instr::Slot(operand),
        0x02 => Instr::Local(operand),
        0x03 => Instr::WithText(TextOperator::Select, operand),
        0x04 => Instr::WithText(TextOperator::Has, operand),
        0x05 => Instr::Op(operand),
        0x06 => Instr::WithText(TextOperator::Matches, operand),
        0x07 => Instr::List(operand),
        0x08 => Instr::Map(operand),
        0x09 => Instr::AndTest(operand),
        0x0B => Instr::OrTest(operand),
        _ => Instr::Jump(operand),
    };
    Ok((instr, rest))
}

fn put_instr(out: &mut Vec<u8>, code: Instr) -> Result<(), AllocError>
    ensures { OnOk result (out.new.items ≡ out.old.items ++ instr code) }
{
    match code {
        Instr::Const(constant) => put_one(out, 0x00, constant),
        Instr::Slot(slot) => put_one(out, 0x01, slot),
        Instr::Local(depth) => put_one(out, 0x02, depth),
        Instr::WithText(TextOperator::Select, text) => put_one(out, 0x03, text),
        Instr::WithText(TextOperator::Has, text) => put_one(out, 0x04, text),
        Instr::Op(operator) => put_one(out, 0x05, operator),
        Instr::WithText(TextOperator::Matches, text) => put_one(out, 0x06, text),
        Instr::List(count) => put_one(out, 0x07, count),
        Instr::Map(count) => put_one(out, 0x08, count),
        Instr::AndTest(target) => put_one(out, 0x09, target),
        Instr::And => put_bare(out, 0x0A),
        Instr::OrTest(target) => put_one(out, 0x0B, target),
        Instr::Or => put_bare(out, 0x0C),
        Instr::Cond(other, end) => put_two(out, 0x0D, other, end),
        Instr::Jump(target) => put_one(out, 0x0E, target),
        Instr::Loop(kind, end) => put_two(out, 0x0F, kind, end),
        Instr::Item => put_bare(out, 0x10),
        Instr::When => put_bare(out, 0x11),
        Instr::Next => put_bare(out, 0x12),
        Instr::End => put_bare(out, 0x13),
    }
}

fn put_bare(out: &mut Vec<u8>, opcode: u8) -> Result<(), AllocError>
    ensures { OnOk result (out.new.items ≡ out.old.items ++ opcode ∷ []) }
{
    out.push(opcode)?;
    Ok(())
}

fn put_one(out: &mut Vec<u8>, opcode: u8, operand: usize) -> Result<(), AllocError>
    ensures { OnOk result (out.new.items ≡ out.old.items ++ opcode ∷ be32 operand) }
{
    out.push(opcode)?;
    put_number(out, operand)
}

fn put_two(out: &mut Vec<u8>, opcode: u8, first: usize, second: usize) -> Result<(), AllocError>
    ensures { OnOk result (out.new.items ≡ out.old.items ++ opcode ∷ (be32 first ++ be32 second)) }
{
    put_one(out, opcode, first)?;
    put_number(out, second)
}

fn is_instr(instr: Instr) -> bool
    ensures { result ≡ is_instr instr }
{
    match instr {
        Instr::Const(operand)
        | Instr::Slot(operand)
        | Instr::Local(operand)
        | Instr::Op(operand)
        | Instr::WithText(_, operand)
        | Instr::List(operand)
        | Instr::Map(operand)
        | Instr::AndTest(operand)
        | Instr::OrTest(operand)
        | Instr::Jump(operand) => is_short(operand),
        Instr::Cond(other, end) => is_short(other) && is_short(end),
        Instr::Loop(kind, end) => is_short(kind) && is_short(end),
        Instr::And | Instr::Or | Instr::Item | Instr::When | Instr::Next | Instr::End => true,
    }
}
