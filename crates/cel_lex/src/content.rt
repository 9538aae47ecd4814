//! What a text stands for.

ghost use Rattle.std.specs.Prelude.{◌≡◌, ◌↔◌, ◌≤◌, ℕ, List, IfOk, Ok, Err, length};
ghost use Rattle.cel_lex.specs.Escapes.{meaning_of};
ghost use Rattle.cel_lex.specs.Spelling.{Spells, FirstBad};

use crate::bytes::{Class, run_len};
use crate::escape::escape;
use base_containers::Text;
use std::alloc::{AllocError, Global};

/// The text that bytes with escapes stand for, or how far in the first bad escape is.
pub fn content(alloc: Global, body: &str) -> Result<Result<Text, usize>, AllocError>
    requires { length body.now ≤ 16384 }
    ensures { IfOk result (λ r. r ≡ meaning_of 0 body.now) }
{
    let bytes = body.as_bytes();
    let mut out = String::new(alloc);
    let mut place = 0;
    while place < bytes.len() {
        let rest = &bytes[place + 1..];
        if bytes[place] == 92 {
            let Some((character, count)) = escape(rest) else {
                return Ok(Err(place));
            };
            out.push(character)?;
            place += 1 + count;
        } else {
            let count = 1 + run_len(Class::Plain, rest);
            out.push_str(&body[place..place + count])?;
            place += count;
        }
    }
    Ok(Ok(Text::from_string(out)))
}

/// What a text stands for is what its parts spell one by one, and its bad escape is the first.
pub fn text_meaning()
    ensures value { (body value : List ℕ) → meaning_of 0 body ≡ Ok value ↔ Spells body value }
    ensures bad { (body : List ℕ) (place : ℕ) → meaning_of 0 body ≡ Err place ↔ FirstBad body place }
{}
