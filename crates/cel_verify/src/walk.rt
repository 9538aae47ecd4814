ghost use Rattle.std.specs.Prelude.{◌≡◌, ◌+◌, ◌<◌, ◌≤◌, ◌^◌, ◌||◌, ◌∷◌, [], Some, Ok, Err, false, IsTrue, IfOk, MatchResult};
ghost use Rattle.std.specs.Prelude.{length, nat_lt, slice_get};
ghost use Rattle.std.specs.List.{AllByRecursion};
ghost use Rattle.base_containers.specs.Failures.{Fails};
ghost use Rattle.cel_verify.specs.Sound.{entry_in, jumps_of, max_depth as most_operands, max_loops as most_loops};
ghost use Rattle.cel_verify.specs.Arrivals.{AreArrivals};
ghost use Rattle.cel_verify.specs.Walked.{Advances, AllHold, AreMeasures, IsWalkFault, Arrives, Passes, TakesNone};
ghost use Rattle.cel_verify.specs.Walked.{entered, shallow};
ghost use Rattle.cel_verify.specs.Walked.{arrived, labelled, rule_here, typed_here};

use crate::arrivals::Arrivals;
use crate::fault::{Refusal, VerifyError, VerifyFault, VerifyRule};
use crate::loops::opened;
use crate::measures::Measures;
use crate::open_loop::Open;
use crate::opens::{Opens, close_ended};
use crate::placement::is_nested;
use crate::rules::typed;
use crate::targets::{entry, entry_is_wanted, has_name, has_targets};
use crate::type_stack::TypeStack;
use cel_code::{Image, Instr};
use std::alloc::Global;

const MAX_DEPTH: usize = 16_384;

const MAX_LOOPS: usize = 100;

/// Each instruction in turn.
pub fn walk(alloc: Global, image: &Image) -> Result<Measures, VerifyError>
    ensures rules { MatchResult result (λ _. AllHold image.now) (λ e. IsWalkFault image.now e) }
    ensures measures { IfOk result (λ measures. AreMeasures image.now (length image.now.code) measures) }
{
    let _len = image.code.len();
    let arrivals = Arrivals::new(alloc, image)?;
    let mut measures = Measures::new(alloc);
    let mut label = Some(TypeStack::new(alloc));
    let mut opens = Opens::new(alloc);
    let mut at = 0;
    while let Some(instr) = image.code.get(at) {
        measures.add(image, *instr, &label, &opens)?;
        match advance(alloc, image, &arrivals, *instr, at, label, &mut opens) {
            Ok(there) => label = there,
            Err(Refusal::Fault(rule)) => return Err(VerifyError::Fault(VerifyFault { rule, at })),
            Err(Refusal::OutOfMemory) => return Err(VerifyError::OutOfMemory),
        }
        at += 1;
    }
    Ok(measures)
}

// The rule of one instruction: the types above the innermost frame at the next one, if it is reached.
fn advance(
    alloc: Global,
    image: &Image,
    arrivals: &Arrivals,
    instr: Instr,
    at: usize,
    label: Option<TypeStack>,
    opens: &mut Opens,
) -> Result<Option<TypeStack>, Refusal>
    requires known { AreArrivals image.now arrivals.now }
    requires there { slice_get image.now.code at ≡ Some instr }
    requires inside { at < length image.now.code }
    requires room { at + 1 < 2 ^ 64 }
    ensures { MatchResult result
        (λ there. Advances image.now at (labelled label opens.old) (labelled there opens.new))
        (λ r. Fails r (rule_here image.now at (labelled label opens.old))) }
{
    if !has_name(image, instr) {
        return Err(Refusal::Fault(VerifyRule::BadConstant));
    }
    if !(entry_is_wanted(image, arrivals, at) && has_targets(image, arrivals, at, instr)) {
        return Err(Refusal::Fault(VerifyRule::BadTarget));
    }
    let Some(types) = label else {
        return Err(Refusal::Fault(VerifyRule::BadTarget));
    };
    if !is_nested(image, arrivals, at, instr, opens) {
        return Err(Refusal::Fault(VerifyRule::BadNesting));
    }
    let there = pass(alloc, image, arrivals, instr, at, types, opens)?;
    close_ended(opens, at + 1);
    Ok(there)
}

// What an instruction's rule asks of the types: those at the next one, if it is reached. A loop that it begins is open then.
fn pass(
    alloc: Global,
    image: &Image,
    arrivals: &Arrivals,
    instr: Instr,
    at: usize,
    types: TypeStack,
    opens: &mut Opens,
) -> Result<Option<TypeStack>, Refusal>
    requires known { AreArrivals image.now arrivals.now }
    requires inside { at < length image.now.code }
    requires room { at + 1 < 2 ^ 64 }
    requires jumps { AllByRecursion (λ to. to < length image.now.code) (jumps_of instr) }
    ensures { MatchResult result
        (λ there. Passes image.now at instr types opens.old there opens.new)
        (λ r. Fails r (typed_here image.now at instr types opens.old)) }
{
    match instr {
        Instr::Loop(number, exit) => {
            let begun = opened(alloc, image, arrivals, at, number, exit, types)?;
            enter(alloc, image, arrivals, at + 1, begun, opens)
        }
        _ => match typed(alloc, image, arrivals, instr, opens, types) {
            Ok(falls) => go_on(alloc, image, arrivals, at + 1, falls, opens),
            Err(Refusal::Fault(rule)) => {
                Err(Refusal::Fault(told_at(image, arrivals, at + 1, rule)))
            }
            Err(Refusal::OutOfMemory) => Err(Refusal::OutOfMemory),
        },
    }
}

// The rule that is reported in front of an instruction, if one is broken.
// What has a limit past the greatest is assignable to no entry.
fn told_at(image: &Image, arrivals: &Arrivals, to: usize, broken: VerifyRule) -> VerifyRule
    requires known { AreArrivals image.now arrivals.now }
    requires inside { to ≤ length image.now.code }
    ensures { entered (entry_in image.now.targets to) (Err broken) ≡ Err result }
{
    match broken {
        VerifyRule::OverBudget => match entry(image, arrivals, to) {
            Some(_) => VerifyRule::WrongKind,
            None => VerifyRule::OverBudget,
        },
        _ => broken,
    }
}

// The types at the first instruction of a loop's body: there are none. The loop is open then.
fn enter(
    alloc: Global,
    image: &Image,
    arrivals: &Arrivals,
    to: usize,
    begun: Open,
    opens: &mut Opens,
) -> Result<Option<TypeStack>, Refusal>
    requires known { AreArrivals image.now arrivals.now }
    requires inside { to ≤ length image.now.code }
    ensures { MatchResult result
        (λ there. Arrives image.now to (begun ∷ opens.old) (Some []) there × (opens.new ≡ begun ∷ opens.old))
        (λ r. Fails r (arrived image.now to (begun ∷ opens.old) (Ok (Some [])))) }
{
    if !takes_none(image, arrivals, to) {
        return Err(Refusal::Fault(VerifyRule::WrongKind));
    }
    let loops = opens.len().saturating_add(1);
    if is_too_much(begun.below.len(), opens.below(), loops) {
        return Err(Refusal::Fault(VerifyRule::TooDeep));
    }
    opens.push(begun)?;
    Ok(Some(TypeStack::new(alloc)))
}

// Whether a stack of no types may arrive at an instruction.
fn takes_none(image: &Image, arrivals: &Arrivals, to: usize) -> bool
    requires known { AreArrivals image.now arrivals.now }
    requires inside { to ≤ length image.now.code }
    ensures taken { IsTrue result → TakesNone (entry_in image.now.targets to) }
    ensures refused { result ≡ false → entered (entry_in image.now.targets to) (Ok (Some [])) ≡ Err VerifyRule.WrongKind }
{
    match entry(image, arrivals, to) {
        Some(types) => types.is_empty(),
        None => true,
    }
}

// The types at an instruction, if these go on to it.
fn go_on(
    alloc: Global,
    image: &Image,
    arrivals: &Arrivals,
    to: usize,
    falls: Option<TypeStack>,
    opens: &Opens,
) -> Result<Option<TypeStack>, Refusal>
    requires known { AreArrivals image.now arrivals.now }
    requires inside { to ≤ length image.now.code }
    ensures { MatchResult result
        (λ there. Arrives image.now to opens.now falls there)
        (λ r. Fails r (arrived image.now to opens.now (Ok falls))) }
{
    let Some(entry) = entry(image, arrivals, to) else {
        if is_too_deep(&falls, opens) {
            return Err(Refusal::Fault(VerifyRule::TooDeep));
        }
        return Ok(falls);
    };
    if let Some(types) = &falls
        && !types.fits(entry)
    {
        return Err(Refusal::Fault(VerifyRule::WrongKind));
    }
    if is_too_deep(&falls, opens) {
        return Err(Refusal::Fault(VerifyRule::TooDeep));
    }
    Ok(Some(TypeStack::from_slice(alloc, entry)?))
}

fn is_too_deep(falls: &Option<TypeStack>, opens: &Opens) -> bool
    ensures deep { IsTrue result → shallow opens.now (Ok falls.now) ≡ Err VerifyRule.TooDeep }
    ensures shallow { result ≡ false → shallow opens.now (Ok falls.now) ≡ Ok falls.now }
{
    match falls {
        Some(types) => is_too_much(types.len(), opens.below(), opens.len()),
        None => false,
    }
}

// Whether so many operands on so many others are more than the stack may have, or so many loops more than may be open.
fn is_too_much(operands: usize, below: usize, loops: usize) -> bool
    ensures { result ≡ (nat_lt most_operands (operands + below) || nat_lt most_loops loops) }
{
    is_more(operands, below) || loops > MAX_LOOPS
}

fn is_more(operands: usize, below: usize) -> bool
    ensures { result ≡ nat_lt most_operands (operands + below) }
{
    operands.saturating_add(below) > MAX_DEPTH
}
