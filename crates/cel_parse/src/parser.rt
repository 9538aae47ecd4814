//! The expression of a text.

ghost use Rattle.std.specs.Prelude.{◌≡◌, ◌≤◌, ◌↔◌, ℕ, List, Ok, Err, IfOk, IfErr, IsErrOf};
ghost use Rattle.cel_lex.specs.declared.fault.LexFault.{LexFault};
ghost use Rattle.cel_lex.specs.Lexis.{IsCut};
ghost use Rattle.cel_value.specs.declared.expr.Expr.{Expr};
ghost use Rattle.cel_parse.specs.declared.fault.ParseFault.{ParseFault};
ghost use Rattle.cel_parse.specs.declared.fault.ParseFault.TheVariants.{Lex, Unexpected, BadMacro};
ghost use Rattle.base_containers.specs.declared.failed.Failed.TheVariants as failed;
ghost use Rattle.cel_parse.specs.Views.{same, Fails, Gives};
ghost use Rattle.cel_value.specs.Sizes.{depth_of, nodes_of};
ghost use Rattle.cel_parse.specs.Parsed.{parsed};
ghost use Rattle.cel_parse.specs.Parsing.{IsParsed, IsRefused, IsAsDeep};
ghost use Rattle.cel_parse.specs.Total.{IsAnswered};

use crate::descent::tree_of;
use crate::expansion::expand;
use crate::fault::{ParseError, ParseFault};
use crate::macros::first_wrong;
use base_containers::Failed;
use cel_lex::{Token, tokens};
use cel_value::Expr;
use std::alloc::Global;

// The tokens of a text, or why it has no expression.
fn tokens_in(alloc: Global, text: &str) -> Result<Vec<Token>, ParseError>
    ensures cut { IfOk result (λ v. IsCut text.now v.items) }
    ensures fault { IfErr result (λ e. Fails e (parsed text.now)) }
{
    tokens(alloc, text).map_err(Failed::widened)
}

// The expression of a text, or its fault, by a function of the text.
fn read(alloc: Global, text: &str) -> Result<Expr, ParseError>
    ensures { Gives same result (parsed text.now) }
{
    let cut = tokens_in(alloc, text)?;
    let boxed = tree_of(alloc, text, cut.as_slice())?;
    let tree = boxed.get();
    if let Some(place) = first_wrong(text, tree) {
        return Err(ParseError::Fault(ParseFault::BadMacro { place }));
    }
    Ok(expand(alloc, text, tree)?.into_inner())
}

/// The expression that a text spells.
pub fn parse(alloc: Global, text: &str) -> Result<Expr, ParseError>
    // The text spells the expression that is answered.
    ensures parsed { IfOk result (λ e. IsParsed text.now e) }
    // A text is refused only for the fault that is answered.
    ensures refused { (f : ParseFault) → IsErrOf result (failed.Fault f) → IsRefused text.now f }
    // The answer is a function of the text, so its fault is one, even where the grammar leaves a choice.
    ensures read { Gives same result (parsed text.now) }
    // The expression is as deep as the text's tree is counted, which is 100 at most.
    ensures depth { IfOk result (λ e. IsAsDeep text.now e) }
    ensures shallow { IfOk result (λ e. depth_of e ≤ 100) }
    // It has no more nodes than a text has bytes.
    ensures small { IfOk result (λ e. nodes_of e ≤ 16384) }
{
    read(alloc, text)
}

/// A text spells one expression or is refused, and not both. If a character, a number or a macro refuses it, nothing
/// else does, and no token is unexpected except one. What [`parse`] answers as a function of the text is the expression
/// that the text spells, or a fault for which it is refused.
pub fn one_expression()
    ensures expressions { (text : List ℕ) (a b : Expr) → IsParsed text a → IsParsed text b → a ≡ b }
    ensures either { (text : List ℕ) (e : Expr) (f : ParseFault) → IsParsed text e → IsRefused text f → ⊥ }
    ensures lexing { (text : List ℕ) (f : LexFault) (g : ParseFault) → IsRefused text (Lex f) → IsRefused text g → g ≡ Lex f }
    ensures places { (text : List ℕ) (p q : ℕ) → IsRefused text (Unexpected p) → IsRefused text (Unexpected q) → p ≡ q }
    ensures macros { (text : List ℕ) (p : ℕ) (g : ParseFault)
        → IsRefused text (BadMacro p) → IsRefused text g → g ≡ BadMacro p }
    ensures some { (text : List ℕ) → IsAnswered text }
    ensures spelled { (text : List ℕ) (e : Expr) → IsParsed text e ↔ (parsed text ≡ Ok e) }
    ensures told { (text : List ℕ) (f : ParseFault) → parsed text ≡ Err f → IsRefused text f }
{}
