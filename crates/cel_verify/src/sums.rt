//! The greatest sums over the routes through code.

ghost use Rattle.std.specs.Prelude.{◌≡◌, ℕ, ◌+◌, ◌-◌, ◌<◌, ◌^◌, min, length, slice_index};
ghost use Rattle.cel_verify.specs.Sound.{IsSound};
ghost use Rattle.cel_verify.specs.Paths.{goes_to, IsRouteSum};
ghost use Rattle.cel_verify.specs.Walked.{AreTimes, AreWeights, IsCapped, behind, rounds_of, greatest};

use cel_code::{Image, Instr};

/// The greatest sum of the weights of a route from the first instruction on, with a loop's body counted so many times, or
/// the greatest number if it is more.
pub fn path_sum(image: &Image, weights: Vec<u64>, times: &[u32]) -> u64
    requires sound { IsSound image.now }
    requires weighed { length weights.items ≡ length image.now.code }
    requires timed { AreTimes image.now (length image.now.code) times.now }
    ensures { (weigh : ℕ → ℕ) → AreWeights weigh (length image.now.code) weights.items
        → IsCapped (IsRouteSum image.now weigh) result }
{
    let mut sums = weights;
    let mut at = image.code.len();
    while at > 0 {
        at -= 1;
        let Some(instr) = image.code.get(at) else {
            unreachable!();
        };
        let rest = sum_behind(sums.as_slice(), times[at], *instr, at);
        sums[at] = sums[at].saturating_add(rest);
    }
    sum_at(sums.as_slice(), 0)
}

// The greatest sum of what comes after an instruction: the rounds of its body, if it begins a loop, and where it goes then.
fn sum_behind(sums: &[u64], times: u32, instr: Instr, at: usize) -> u64
    requires { at + 1 < 2 ^ 64 }
    ensures { result ≡ min (behind sums.now times instr at) (2 ^ 64 - 1) }
{
    let body = rounds(instr, times).saturating_mul(sum_at(sums, at + 1));
    body.saturating_add(greatest_at(sums, instr, at))
}

// How often what comes after an instruction counts as the body of a loop.
fn rounds(instr: Instr, times: u32) -> u64
    ensures { result ≡ rounds_of instr times }
{
    match instr {
        Instr::Loop(_, _) => u64::from(times),
        _ => 0,
    }
}

// The greatest sum of where an instruction may go in the body that it is in.
fn greatest_at(sums: &[u64], instr: Instr, at: usize) -> u64
    requires { at + 1 < 2 ^ 64 }
    ensures { result ≡ greatest (λ t. slice_index sums.now t) (goes_to instr at) }
{
    match instr {
        Instr::AndTest(to) | Instr::OrTest(to) => sum_at(sums, to).max(sum_at(sums, at + 1)),
        Instr::Cond(if_false, if_error) => sum_at(sums, at + 1)
            .max(sum_at(sums, if_false))
            .max(sum_at(sums, if_error)),
        Instr::Jump(to) | Instr::Loop(_, to) => sum_at(sums, to),
        Instr::Next | Instr::End => 0,
        Instr::Const(_)
        | Instr::Slot(_)
        | Instr::Local(_)
        | Instr::Op(_)
        | Instr::WithText(_, _)
        | Instr::List(_)
        | Instr::Map(_)
        | Instr::And
        | Instr::Or
        | Instr::Item
        | Instr::When => sum_at(sums, at + 1),
    }
}

fn sum_at(sums: &[u64], at: usize) -> u64
    ensures { result ≡ slice_index sums.now at }
{
    match sums.get(at) {
        Some(sum) => *sum,
        None => 0,
    }
}
