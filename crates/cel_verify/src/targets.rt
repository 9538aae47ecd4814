ghost use Rattle.std.specs.Prelude.{◌≡◌, ◌<◌, ◌≤◌, length, IsTrue};
ghost use Rattle.std.specs.List.{AllByRecursion};
ghost use Rattle.cel_verify.specs.Sound.{entry_in, is_named, is_target, every, jumps_of, is_wanted};
ghost use Rattle.cel_verify.specs.Arrivals.{AreArrivals};
ghost use Rattle.cel_verify.specs.Accepted.{misplaced_entry, misplaced};
ghost use Rattle.cel_verify.specs.Walked.{IsEntry};

use crate::arrivals::Arrivals;
use crate::constants::{constant_text, constant_type};
use cel_code::{Image, Instr, loop_kind};
use cel_operators::Operator;
use cel_value::CelType;

/// The types where jumps arrive at an instruction, or after the last one, the bottom first.
pub fn entry<'a>(image: &'a Image, arrivals: &Arrivals, at: usize) -> Option<&'a [CelType]>
    requires known { AreArrivals image.now arrivals.now }
    requires inside { at ≤ length image.now.code }
    ensures { IsEntry result (entry_in image.now.targets at) }
{
    match image.targets.get(arrivals.firsts[at]) {
        Some(target) => Some(target.types.as_slice()),
        None => None,
    }
}

/// Whether an instruction's constant, slot, operator or kind of loop is there.
pub fn has_name(image: &Image, instr: Instr) -> bool
    ensures { result ≡ is_named image.now instr }
{
    match instr {
        Instr::Const(number) => constant_type(image, number).is_some(),
        Instr::Slot(number) => image.slots.get(number).is_some(),
        Instr::Op(code) => Operator::from_code(code).is_some(),
        Instr::WithText(_, number) => constant_text(image, number).is_some(),
        Instr::Loop(number, _) => loop_kind(number).is_some(),
        _ => true,
    }
}

fn is_forward(image: &Image, arrivals: &Arrivals, at: usize, to: usize) -> bool
    requires known { AreArrivals image.now arrivals.now }
    ensures target { result ≡ is_target image.now at to }
    ensures inside { IsTrue result → to < length image.now.code }
{
    at < to && to < image.code.len() && entry(image, arrivals, to).is_some()
}

/// Whether an instruction's jumps go forward, to instructions that have types.
pub fn has_targets(image: &Image, arrivals: &Arrivals, at: usize, instr: Instr) -> bool
    requires known { AreArrivals image.now arrivals.now }
    ensures targets { result ≡ every (is_target image.now at) (jumps_of instr) }
    ensures inside { IsTrue result → AllByRecursion (λ to. to < length image.now.code) (jumps_of instr) }
{
    match instr {
        Instr::AndTest(to) | Instr::OrTest(to) | Instr::Jump(to) | Instr::Loop(_, to) => {
            is_forward(image, arrivals, at, to)
        }
        Instr::Cond(if_false, if_error) => {
            is_forward(image, arrivals, at, if_false) && is_forward(image, arrivals, at, if_error)
        }
        _ => true,
    }
}

/// Whether an instruction that has types is one to which an instruction jumps.
pub fn entry_is_wanted(image: &Image, arrivals: &Arrivals, at: usize) -> bool
    requires known { AreArrivals image.now arrivals.now }
    requires inside { at < length image.now.code }
    ensures { result ≡ is_wanted image.now at }
{
    entry(image, arrivals, at).is_none() || arrivals.jumped[at]
}

/// The number of the first entry that is out of its place.
pub fn first_misplaced(image: &Image) -> Option<usize>
    ensures { result ≡ misplaced_entry image.now }
{
    let count = image.code.len();
    let mut least = 0;
    for target in image.targets.as_slice() {
        if target.at < least || target.at >= count {
            return Some(target.at);
        }
        least = target.at + 1;
    }
    None
}
