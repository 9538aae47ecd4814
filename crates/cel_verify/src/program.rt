ghost use Rattle.std.specs.Prelude.{◌≡◌, ◌↔◌, ◌≤◌, ℕ, true, List, IsTrue, Some, Err, IfOk, IfErr, MatchOption, MatchResult, length};
ghost use Rattle.base_containers.specs.declared.failed.Failed.TheVariants as failed;
ghost use Rattle.cel_operators.specs.Outcomes.{Outcome, slots_fit};
ghost use Rattle.cel_verify.specs.Sound.{EndsOnce, IsSound, IsWalked, max_depth as most_operands, max_loops as most_loops};
ghost use Rattle.cel_verify.specs.Paths.{HasGreatest, IsRouteCharge, IsRouteLength, IsPathCost, IsPathSteps};
ghost use Rattle.cel_verify.specs.Typed.{RunsWithin};
ghost use Rattle.cel_verify.specs.Depths.{greatest_depth, greatest_nesting, NeverMore, NeverMoreLoops};
ghost use Rattle.cel_verify.specs.Walked.{AreMeasures};
ghost use Rattle.cel_verify.specs.Accepted.{IsCounted, IsWrongEnd, IsAccepted, IsRefused, AreBounds, AreCapped, fault, budget, is_over};

use crate::bounds::Bounds;
use crate::fault::{VerifyError, VerifyFault, VerifyRule};
use crate::measures::Measures;
use crate::sums::path_sum;
use crate::targets::first_misplaced;
use crate::walk::walk;
use cel_code::{Image, Instr};
use std::alloc::{AllocError, Global};
use std::marker::Model;

const MAX_COUNT: usize = 65_536;

const BUDGET: u64 = 10_000_000;

/// An image that was accepted.
pub struct Program {
    image: Image,
    bounds: Bounds,
}

impl Drop for Program {
    fn drop(self) {
        let Program {
            image: _image,
            bounds: _bounds,
        } = self;
    }
}

impl Model for Program {
    ghost use Rattle.std.specs.Coded.{codes};
    ghost use Rattle.cel_value.specs.contracts.cel_type.CelType as cel_type;
    ghost use Rattle.cel_value.specs.contracts.value.Value as cel_value;
    ghost use Rattle.cel_code.specs.declared.image.Image.{Image};
    ghost use Rattle.cel_verify.specs.Accepted.{IsAccepted, AreBounds};

    ghost Value = { Image };

    ghost coded = { Prim.hlevel (codes, cel_value.the_row.coded, cel_type.the_row.coded) };

    ghost view = { λ p. p.image };

    ghost invariant = { λ p. IsAccepted p.image × AreBounds p.image p.bounds };
}

impl Program {
    pub fn image(&self) -> &Image
        ensures image { result.now ≡ self.now }
        ensures accepted { IsAccepted self.now }
    {
        &self.image
    }

    /// The charge of the dearest route, 10,000,000 at most and no more than the image declares: no run charges more.
    pub fn cost_bound(&self) -> u64
        ensures cost { IsPathCost self.now result }
        ensures within { result ≤ budget }
        ensures declared { (most : ℕ) → self.now.declared ≡ Some most → (result ≤ most) × (most ≤ budget) }
    {
        self.bounds.cost
    }

    /// The instructions of the longest route: no run takes more steps.
    pub fn step_bound(&self) -> u64
        ensures steps { IsPathSteps self.now result }
    {
        self.bounds.steps
    }

    /// The most operands on the stack at any instruction, 16,384 at most: no run has more at a time.
    pub fn max_depth(&self) -> usize
        ensures depth { result ≡ greatest_depth self.now }
        ensures within { result ≤ most_operands }
        ensures never_more { (slots : List Outcome) → slots_fit self.now.slots slots ≡ true → NeverMore self.now slots result }
    {
        self.bounds.depth
    }

    /// The most loops that are open at any instruction, 100 at most: no run has more open at a time.
    pub fn loop_depth(&self) -> usize
        ensures depth { result ≡ greatest_nesting self.now }
        ensures within { result ≤ most_loops }
        ensures never_more { (slots : List Outcome) → slots_fit self.now.slots slots ≡ true → NeverMoreLoops self.now slots result }
    {
        self.bounds.nesting
    }
}

/// The program of an image, exactly if the image is accepted; otherwise the first fault, and the image.
///
/// An accepted image is labelled by the types of its stack and its open loops, its dearest route charges no more than the
/// budget, nor than the image declares, which is within the budget, and the machine is never stuck in it: each run ends within as
/// many steps as the longest route has.
pub fn verify(alloc: Global, image: Image) -> Result<Program, (VerifyError, Image)>
    ensures accepted { MatchResult result (λ p. (p ≡ image) × IsAccepted image) (λ e. IsRefused image e.0) }
    ensures back { IfErr result (λ e. e.1 ≡ image) }
    ensures walked { IsSound image ↔ IsWalked image }
    ensures dearest { IfOk result (λ p. HasGreatest (IsRouteCharge image)) }
    ensures longest { IfOk result (λ p. HasGreatest (IsRouteLength image)) }
    ensures runs { IfOk result (λ p. (slots : List Outcome) → slots_fit image.slots slots ≡ true → RunsWithin image slots) }
{
    match check(alloc, &image) {
        Ok(bounds) => Ok(Program { image, bounds }),
        Err(error) => Err((error, image)),
    }
}

// The bounds of an image that is accepted.
fn check(alloc: Global, image: &Image) -> Result<Bounds, VerifyError>
    ensures accepted { MatchResult result (λ _. IsAccepted image.now) (λ e. IsRefused image.now e) }
    ensures bounds { IfOk result (λ bounds. AreBounds image.now bounds) }
{
    if !is_counted(image) {
        return refuse(VerifyRule::TooDeep, 0);
    }
    if let Some(at) = wrong_end(image.code.as_slice()) {
        return refuse(VerifyRule::BadTarget, at);
    }
    let measures = walk(alloc, image)?;
    if let Some(at) = first_misplaced(image) {
        return refuse(VerifyRule::BadTarget, at);
    }
    let bounds = bounded(alloc, image, measures)?;
    if is_over(bounds.cost, image.declared) {
        return refuse(VerifyRule::OverBudget, image.code.len() - 1);
    }
    Ok(bounds)
}

// Whether a cost is over what is declared, or that is over the budget.
fn is_over(cost: u64, declared: Option<u64>) -> bool
    ensures { result ≡ is_over cost declared }
{
    match declared {
        None => cost > BUDGET,
        Some(most) => cost > most || most > BUDGET,
    }
}

// The bounds of a sound image, each up to the greatest number.
fn bounded(alloc: Global, image: &Image, measures: Measures) -> Result<Bounds, AllocError>
    requires sound { IsSound image.now }
    requires measured { AreMeasures image.now (length image.now.code) measures }
    ensures { IfOk result (λ bounds. AreCapped image.now bounds) }
{
    let Measures {
        charges,
        times,
        depth,
        nesting,
    } = measures;
    let ones = vec![in alloc; 1; image.code.len()]?;
    Ok(Bounds {
        cost: path_sum(image, charges, times.as_slice()),
        steps: path_sum(image, ones, times.as_slice()),
        depth,
        nesting,
    })
}

fn refuse(rule: VerifyRule, at: usize) -> Result<Bounds, VerifyError>
    ensures { result ≡ Err (failed.Fault (fault rule at)) }
{
    Err(VerifyError::Fault(VerifyFault { rule, at }))
}

// Whether each list of the image is within the limit of counts.
fn is_counted(image: &Image) -> bool
    ensures { IsTrue result ↔ IsCounted image.now }
{
    image.code.len() <= MAX_COUNT
        && image.constants.len() <= MAX_COUNT
        && image.slots.len() <= MAX_COUNT
        && image.targets.len() <= MAX_COUNT
}

// Where an END is that is not the last instruction, or where it is missed.
fn wrong_end(code: &[Instr]) -> Option<usize>
    ensures { MatchOption result (EndsOnce code.now) (λ at. IsWrongEnd code.now at) }
{
    for at in 0..code.len() {
        if matches!(code[at], Instr::End) {
            return if at + 1 == code.len() { None } else { Some(at) };
        }
    }
    Some(code.len().saturating_sub(1))
}
