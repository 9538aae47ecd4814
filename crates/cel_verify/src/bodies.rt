//! In which loops' bodies instructions are.

ghost use Rattle.std.specs.Prelude.{◌≡◌, ◌+◌, ◌<◌, ◌^◌, None, length, slice_get, slice_index_or, IfOk};
ghost use Rattle.cel_verify.specs.Bodies.{innermost, leads_behind as is_behind};
ghost use Rattle.cel_verify.specs.Arrivals.{AreBodies};

use cel_code::Instr;
use std::alloc::{AllocError, Global};

/// For each instruction, the number of the loop whose body it is in: the last one before it that leads past it.
pub fn bodies(alloc: Global, code: &[Instr]) -> Result<Vec<Option<usize>>, AllocError>
    ensures { IfOk result (λ bodies. AreBodies code.now (length code.now) bodies.items) }
{
    let mut bodies = Vec::new(alloc);
    let mut body = None;
    for at in 0..code.len() {
        bodies.push(body)?;
        body = next_body(code, bodies.as_slice(), at);
    }
    Ok(bodies)
}

// The loop whose body the instruction after one is in. It is that one itself, or the first that leads so far of the
// loops around it: what ends between an instruction and a loop around it ends before the next instruction too.
fn next_body(code: &[Instr], bodies: &[Option<usize>], at: usize) -> Option<usize>
    requires room { at + 1 < 2 ^ 64 }
    requires known { AreBodies code.now (at + 1) bodies.now }
    ensures { result ≡ innermost code.now (at + 1) }
{
    let mut start = at;
    while !leads_behind(code, start, at + 1) {
        let Some(outside) = body_at(bodies, start) else {
            return None;
        };
        start = outside;
    }
    Some(start)
}

// Whether an instruction begins a loop that leads past another.
fn leads_behind(code: &[Instr], start: usize, at: usize) -> bool
    ensures { result ≡ is_behind (slice_get code.now start) at }
{
    match instr_at(code, start) {
        Some(Instr::Loop(_, exit)) => at < exit,
        _ => false,
    }
}

/// The loop that is found for an instruction, if there is one.
pub fn body_at(bodies: &[Option<usize>], at: usize) -> Option<usize>
    ensures { result ≡ slice_index_or bodies.now at None }
{
    match bodies.get(at) {
        Some(body) => *body,
        None => None,
    }
}

/// The instruction of a number, if there is one.
pub fn instr_at(code: &[Instr], at: usize) -> Option<Instr>
    ensures { result ≡ slice_get code.now at }
{
    code.get(at).copied()
}
