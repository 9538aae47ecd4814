ghost use Rattle.std.specs.Prelude.{◌∷◌, [], IfOk, length};
ghost use Rattle.cel_verify.specs.Sound.{jumps_of};
ghost use Rattle.cel_verify.specs.Arrivals.{AreFirsts, AreJumped, AreArrivals, Marks};

use crate::bodies::bodies;
use cel_code::{Image, Instr, Target};
use std::alloc::{AllocError, Global};

/// Where jumps arrive, and in which loops' bodies instructions are, found once for the whole code.
#[derive(Drop)]
pub struct Arrivals {
    /// For each instruction, and for one place after them, which target is its first; if it has none, how many
    /// targets there are.
    pub firsts: Vec<usize>,
    /// For each instruction, whether another jumps to it.
    pub jumped: Vec<bool>,
    /// For each instruction, the number of the loop whose body it is in.
    pub bodies: Vec<Option<usize>>,
}

impl Arrivals {
    /// Where jumps arrive in an image, and in which loops' bodies its instructions are.
    pub fn new(alloc: Global, image: &Image) -> Result<Arrivals, AllocError>
        ensures { IfOk result (λ arrivals. AreArrivals image.now arrivals) }
    {
        let code = image.code.as_slice();
        let firsts = first_targets(alloc, image.targets.as_slice(), code.len() + 1)?;
        let jumped = jumped_to(alloc, code)?;
        let bodies = bodies(alloc, code)?;
        Ok(Arrivals {
            firsts,
            jumped,
            bodies,
        })
    }
}

// The first target of each of so many instructions; from the last target on, since an earlier one goes before it.
fn first_targets(alloc: Global, targets: &[Target], count: usize) -> Result<Vec<usize>, AllocError>
    ensures { IfOk result (λ firsts. AreFirsts targets.now targets.now count firsts.items) }
{
    let mut firsts = vec![in alloc; targets.len(); count]?;
    let mut number = targets.len();
    while number > 0 {
        number -= 1;
        let at = targets[number].at;
        if at < count {
            firsts[at] = number;
        }
    }
    Ok(firsts)
}

// Which instructions are jumped to.
fn jumped_to(alloc: Global, code: &[Instr]) -> Result<Vec<bool>, AllocError>
    ensures { IfOk result (λ jumped. AreJumped code.now (length code.now) jumped.items) }
{
    let mut jumped = vec![in alloc; false; code.len()]?;
    let mut at = code.len();
    while at > 0 {
        at -= 1;
        mark_jumps(&mut jumped, code[at]);
    }
    Ok(jumped)
}

// Marks where an instruction jumps.
fn mark_jumps(jumped: &mut Vec<bool>, instr: Instr)
    ensures { Marks (jumps_of instr) jumped.old.items jumped.new.items }
{
    match instr {
        Instr::AndTest(to) | Instr::OrTest(to) | Instr::Jump(to) | Instr::Loop(_, to) => {
            mark(jumped, to);
        }
        Instr::Cond(if_false, if_error) => {
            mark(jumped, if_error);
            mark(jumped, if_false);
        }
        _ => {}
    }
}

fn mark(jumped: &mut Vec<bool>, to: usize)
    ensures { Marks (to ∷ []) jumped.old.items jumped.new.items }
{
    if to < jumped.len() {
        jumped[to] = true;
    }
}
