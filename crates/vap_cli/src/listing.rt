//! What an image holds, a line for each thing.

use crate::mnemonics::put_instr;
use crate::types::{put_type, put_types};
use cel_code::{Image, Instr, Target};
use cel_value::{CelType, Value, to_json};
use std::alloc::{AllocError, Global};

/// Slots, constants, targets, the type of the outcome, what is declared, and the instructions.
pub fn listing(alloc: Global, image: &Image) -> Result<String, AllocError> {
    let mut out = String::new(alloc);
    put_slots(&mut out, image.slots.as_slice())?;
    put_constants(alloc, &mut out, image.constants.as_slice())?;
    put_targets(&mut out, image.targets.as_slice())?;
    put_result(&mut out, &image.result)?;
    put_declared(&mut out, image.declared)?;
    put_code(&mut out, image.code.as_slice())?;
    Ok(out)
}

fn put_slots(out: &mut String, slots: &[CelType]) -> Result<(), AllocError> {
    for (number, slot) in slots.iter().enumerate() {
        write!(out, "slot {number} ")?;
        put_type(out, slot)?;
        out.push_str("\n")?;
    }
    Ok(())
}

fn put_constants(alloc: Global, out: &mut String, constants: &[Value]) -> Result<(), AllocError> {
    for (number, constant) in constants.iter().enumerate() {
        let json = to_json(alloc, constant)?;
        write!(out, "constant {number} {}\n", json.as_str())?;
    }
    Ok(())
}

fn put_targets(out: &mut String, targets: &[Target]) -> Result<(), AllocError> {
    for target in targets {
        write!(out, "target {}", target.at)?;
        put_types(out, target.types.as_slice())?;
        out.push_str("\n")?;
    }
    Ok(())
}

fn put_result(out: &mut String, outcome: &CelType) -> Result<(), AllocError> {
    out.push_str("result ")?;
    put_type(out, outcome)?;
    out.push_str("\n")
}

fn put_declared(out: &mut String, declared: Option<u64>) -> Result<(), AllocError> {
    if let Some(most) = declared {
        write!(out, "declared {most}\n")?;
    }
    Ok(())
}

fn put_code(out: &mut String, code: &[Instr]) -> Result<(), AllocError> {
    for (number, instr) in code.iter().enumerate() {
        write!(out, "{number} ")?;
        put_instr(out, *instr)?;
        out.push_str("\n")?;
    }
    Ok(())
}
