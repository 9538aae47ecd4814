//! What is measured of code while it is walked over.

ghost use Rattle.std.specs.Prelude.{◌≡◌, Some, OnOk, reverse};
ghost use Rattle.cel_code.specs.declared.image.Image.{Image as ImageOf};
ghost use Rattle.cel_operators.specs.Wants.{limit_of};
ghost use Rattle.cel_operators.specs.declared.operands.Want.TheVariants.{Ranged};
ghost use Rattle.cel_verify.specs.Paths.{items_on_top, most_items as most_in};
ghost use Rattle.cel_verify.specs.Depths.{operands_of};
ghost use Rattle.cel_verify.specs.Walked.{AreMeasures, Measured, labelled};

use crate::charges::charge;
use crate::opens::Opens;
use crate::type_stack::TypeStack;
use cel_code::{Image, Instr};
use cel_operators::most_items;
use cel_value::CelType;
use std::alloc::{AllocError, Global};

/// What is measured of each instruction, and the greatest numbers of all of them.
#[derive(Drop)]
pub struct Measures {
    /// The greatest charge of each instruction.
    pub charges: Vec<u64>,
    /// How often the body of a loop counts that begins at an instruction: the most items of the range on top.
    pub times: Vec<u32>,
    /// The most operands at any instruction, over all open loops together.
    pub depth: usize,
    /// The most loops that are open at any instruction.
    pub nesting: usize,
}

impl Measures {
    /// Nothing is measured yet.
    pub fn new(alloc: Global) -> Measures
        ensures { (image : ImageOf) → AreMeasures image 0 result }
    {
        Measures {
            charges: Vec::new(alloc),
            times: Vec::new(alloc),
            depth: 0,
            nesting: 0,
        }
    }

    /// Measures the next instruction, at its label.
    pub fn add(
        &mut self,
        image: &Image,
        instr: Instr,
        label: &Option<TypeStack>,
        opens: &Opens,
    ) -> Result<(), AllocError>
        ensures { OnOk result (Measured image.now.constants instr (labelled label.now opens.now) self.old self.new) }
    {
        self.charges.push(charge(image, instr, label))?;
        self.times.push(times(label))?;
        let depth = operands(label).saturating_add(opens.below());
        self.depth = self.depth.max(depth);
        self.nesting = self.nesting.max(opens.len());
        Ok(())
    }
}

// How many operands there are above the innermost frame, if the instruction is reached.
fn operands(label: &Option<TypeStack>) -> usize
    ensures { result ≡ operands_of label.now }
{
    match label {
        Some(types) => types.len(),
        None => 0,
    }
}

// The most items of the range on top; nothing if there is none, or the instruction is not reached.
fn times(label: &Option<TypeStack>) -> u32
    ensures { result ≡ items_on_top label.now }
{
    match label {
        Some(types) => items_above(types.as_slice()),
        None => 0,
    }
}

fn items_above(types: &[CelType]) -> u32
    ensures { result ≡ items_on_top (Some (reverse types.now)) }
{
    let [.., top] = types else {
        return 0;
    };
    items_in(top)
}

fn items_in(cel_type: &CelType) -> u32
    ensures { result ≡ most_in (limit_of Ranged cel_type.now) }
{
    most_items(cel_type).unwrap_or(0)
}
