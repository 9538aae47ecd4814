//! Instructions in words.

use cel_check::TextOperator;
use cel_code::Instr;
use std::alloc::AllocError;

/// An instruction: its name, and its operands.
pub fn put_instr(out: &mut String, instr: Instr) -> Result<(), AllocError> {
    out.push_str(name_of(instr))?;
    match instr {
        Instr::And | Instr::Or | Instr::Item | Instr::When | Instr::Next | Instr::End => Ok(()),
        Instr::Cond(first, second) | Instr::Loop(first, second) => {
            write!(out, " {first} {second}")
        }
        Instr::Const(operand)
        | Instr::Slot(operand)
        | Instr::Local(operand)
        | Instr::Op(operand)
        | Instr::WithText(_, operand)
        | Instr::List(operand)
        | Instr::Map(operand)
        | Instr::AndTest(operand)
        | Instr::OrTest(operand)
        | Instr::Jump(operand) => write!(out, " {operand}"),
    }
}

fn name_of(instr: Instr) -> &'static str {
    match instr {
        Instr::Const(_) => "CONST",
        Instr::Slot(_) => "SLOT",
        Instr::Local(_) => "LOCAL",
        Instr::WithText(TextOperator::Select, _) => "SELECT",
        Instr::WithText(TextOperator::Has, _) => "HAS",
        Instr::WithText(TextOperator::Matches, _) => "MATCHES",
        Instr::Op(_) => "OP",
        Instr::List(_) => "LIST",
        Instr::Map(_) => "MAP",
        Instr::AndTest(_) => "AND_TEST",
        Instr::And => "AND",
        Instr::OrTest(_) => "OR_TEST",
        Instr::Or => "OR",
        Instr::Cond(_, _) => "COND",
        Instr::Jump(_) => "JUMP",
        Instr::Loop(_, _) => "LOOP",
        Instr::Item => "ITEM",
        Instr::When => "WHEN",
        Instr::Next => "NEXT",
        Instr::End => "END",
    }
}
