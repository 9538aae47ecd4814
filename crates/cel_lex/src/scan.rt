//! The tokens of a whole text.

ghost use Rattle.std.specs.Prelude.{◌≡◌, ◌≤◌, ℕ, List, length, IfOk, IsErrOf};
ghost use Rattle.cel_lex.specs.declared.token.Token.{Token};
ghost use Rattle.cel_lex.specs.declared.fault.LexFault.{LexFault};
ghost use Rattle.base_containers.specs.declared.failed.Failed.TheVariants as failed;
ghost use Rattle.cel_lex.specs.Lexis.{IsCut, Refuses};
ghost use Rattle.cel_lex.specs.Together.{IsTogether};
ghost use Rattle.cel_lex.specs.Total.{HasAnswer};

use crate::fault::{LexError, LexFault, LexFaultKind};
use crate::piece::{Piece, longest};
use crate::token::Token;
use std::alloc::Global;

fn fault(kind: LexFaultKind, place: usize) -> LexError
    ensures { result ≡ failed.Fault (record { kind = kind; place = place }) }
{
    LexError::Fault(LexFault { kind, place })
}

/// The tokens of a text, white space and comments left out.
pub fn tokens(alloc: Global, text: &str) -> Result<Vec<Token>, LexError>
    // The text is cut into the tokens that are answered.
    ensures cut { IfOk result (λ v. IsCut text.now v.items) }
    // The pieces of these tokens, put together with what lies between them, are the text.
    ensures together { IfOk result (λ v. IsTogether 0 text.now v.items) }
    // The fault that is answered is the first.
    ensures fault { (f : LexFault) → IsErrOf result (failed.Fault f) → Refuses text.now f }
{
    if text.len() > 16384 {
        return Err(fault(LexFaultKind::TooLong, 0));
    }
    let mut out = Vec::new(alloc);
    let mut place = 0;
    while place < text.len() {
        let Some((length, piece)) = longest(alloc, text, place)? else {
            return Err(fault(LexFaultKind::BadChar, place));
        };
        match piece {
            Piece::Blank => {}
            Piece::Faulty(found) => return Err(fault(found.kind, place + found.place)),
            Piece::Token(kind) => out.push(Token {
                kind,
                start: place,
                end: place + length,
            })?,
        }
        place += length;
    }
    Ok(out)
}

/// A text has one cut or one first fault, and not both.
pub fn one_answer()
    ensures cuts { (bytes : List ℕ) (ts us : List Token) → IsCut bytes ts → IsCut bytes us → ts ≡ us }
    ensures faults { (bytes : List ℕ) (f g : LexFault) → Refuses bytes f → Refuses bytes g → f ≡ g }
    ensures either { (bytes : List ℕ) (ts : List Token) (f : LexFault) → IsCut bytes ts → Refuses bytes f → ⊥ }
    ensures some { (bytes : List ℕ) → HasAnswer bytes }
{}
