//! Where instructions of loops may be, and how far jumps may go among loops.

ghost use Rattle.std.specs.Prelude.{◌≡◌, ◌+◌, ◌-◌, ◌<◌, ◌^◌, ◌&&◌, None, length, nat_eq, nat_lt, slice_get, slice_index_or};
ghost use Rattle.std.specs.List.{AllByRecursion};
ghost use Rattle.cel_verify.specs.Bodies.{same_loop, is_item as begins_body, is_next as ends_body};
ghost use Rattle.cel_verify.specs.Sound.{every, jumps_of, in_innermost, is_map as maps, is_placed, is_nested};
ghost use Rattle.cel_verify.specs.Arrivals.{AreArrivals};

use crate::arrivals::Arrivals;
use crate::bodies::{body_at, instr_at};
use crate::opens::Opens;
use cel_code::{Image, Instr};
use cel_value::Loop;

/// Whether an instruction is where it may be, and its jumps stay in the body that it is in.
pub fn is_nested(image: &Image, arrivals: &Arrivals, at: usize, instr: Instr, opens: &Opens) -> bool
    requires known { AreArrivals image.now arrivals.now }
    requires inside { at < length image.now.code }
    requires room { at + 1 < 2 ^ 64 }
    requires jumps { AllByRecursion (λ to. to < length image.now.code) (jumps_of instr) }
    ensures { result ≡ is_nested image.now at instr opens.now }
{
    if !is_placed(image, at, instr, opens) {
        return false;
    }
    has_near_jumps(arrivals.bodies.as_slice(), at, instr)
}

// Whether an instruction's jumps stay in the body that it is in.
fn has_near_jumps(bodies: &[Option<usize>], at: usize, instr: Instr) -> bool
    ensures { result ≡ every (λ to. same_loop (slice_index_or bodies.now at None) (slice_index_or bodies.now to None)) (jumps_of instr) }
{
    match instr {
        Instr::AndTest(to) | Instr::OrTest(to) | Instr::Jump(to) | Instr::Loop(_, to) => {
            has_same_body(bodies, at, to)
        }
        Instr::Cond(if_false, if_error) => {
            has_same_body(bodies, at, if_false) && has_same_body(bodies, at, if_error)
        }
        _ => true,
    }
}

fn has_same_body(bodies: &[Option<usize>], at: usize, to: usize) -> bool
    ensures { result ≡ same_loop (slice_index_or bodies.now at None) (slice_index_or bodies.now to None) }
{
    is_same_loop(body_at(bodies, at), body_at(bodies, to))
}

fn is_same_loop(left: Option<usize>, right: Option<usize>) -> bool
    ensures { result ≡ same_loop left right }
{
    match (left, right) {
        (None, None) => true,
        (Some(start), Some(other)) => start == other,
        _ => false,
    }
}

// Whether an instruction of loops is where it may be.
fn is_placed(image: &Image, at: usize, instr: Instr, opens: &Opens) -> bool
    requires room { at + 1 < 2 ^ 64 }
    ensures { result ≡ is_placed image.now at instr opens.now }
{
    match instr {
        Instr::Loop(_, exit) => is_framed(image.code.as_slice(), at, exit),
        Instr::Item => is_first(opens, at),
        Instr::When => is_in_map(opens),
        Instr::Next => is_last(opens, at),
        _ => true,
    }
}

// Whether a loop's ITEM is right after it, and its NEXT where it ends, which is after ITEM.
fn is_framed(code: &[Instr], at: usize, exit: usize) -> bool
    requires room { at + 1 < 2 ^ 64 }
    ensures { result ≡ (begins_body (slice_get code.now (at + 1)) && (ends_body (slice_get code.now (exit - 1)) && nat_lt (at + 2) exit)) }
{
    is_item(instr_at(code, at + 1))
        && (is_next(instr_at(code, exit.saturating_sub(1))) && is_room(at, exit))
}

fn is_item(instr: Option<Instr>) -> bool
    ensures { result ≡ begins_body instr }
{
    matches!(instr, Some(Instr::Item))
}

fn is_next(instr: Option<Instr>) -> bool
    ensures { result ≡ ends_body instr }
{
    matches!(instr, Some(Instr::Next))
}

// Whether there are at least two instructions between.
fn is_room(at: usize, exit: usize) -> bool
    ensures { result ≡ nat_lt (at + 2) exit }
{
    exit.saturating_sub(2) > at
}

// Whether an instruction is the first of the innermost loop's body.
fn is_first(opens: &Opens, at: usize) -> bool
    ensures { result ≡ in_innermost (λ o. nat_eq at (o.start + 1)) opens.now }
{
    match opens.innermost() {
        Some(around) => is_behind(at, around.start),
        None => false,
    }
}

fn is_behind(at: usize, start: usize) -> bool
    ensures { result ≡ nat_eq at (start + 1) }
{
    at.saturating_sub(start) == 1
}

fn is_in_map(opens: &Opens) -> bool
    ensures { result ≡ in_innermost (λ o. maps o.mode) opens.now }
{
    match opens.innermost() {
        Some(around) => is_map(around.mode),
        None => false,
    }
}

fn is_map(mode: Loop) -> bool
    ensures { result ≡ maps mode }
{
    matches!(mode, Loop::Map)
}

// Whether an instruction is the last of the innermost loop's body.
fn is_last(opens: &Opens, at: usize) -> bool
    ensures { result ≡ in_innermost (λ o. nat_eq o.exit (at + 1)) opens.now }
{
    match opens.innermost() {
        Some(around) => is_behind(around.exit, at),
        None => false,
    }
}
