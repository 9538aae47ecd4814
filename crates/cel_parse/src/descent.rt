//! Reading tokens from left to right, without left recursion.

ghost use Rattle.std.specs.Prelude.{◌≡◌, ◌≤◌, length, IfOk, IsErrOf};
ghost use Rattle.cel_parse.specs.declared.fault.ParseFault.{ParseFault};
ghost use Rattle.base_containers.specs.declared.failed.Failed.TheVariants as failed;
ghost use Rattle.cel_parse.specs.Trees.{IsTree, HasNoTree};
ghost use Rattle.cel_parse.specs.Views.{seen, same, Gives};
ghost use Rattle.cel_parse.specs.Descent.{primary, suffixed, member, nots_at, minuses_at, unary_at, operators};
ghost use Rattle.cel_parse.specs.Descent.{conditional_at, expression, items, entry, entries, all_of};

use crate::fault::{ParseError, ParseFault};
use crate::heads::{
    Closer, Step, Suffix, bang_at, colon_at, joining_at, lone_at, minus_at, opening_at,
    question_at, selector_at, step_at, suffix_at, unexpected_at,
};
use crate::nodes::{
    Taken, both, called, entered, indexed, leaf, listed, literal_of, mapped, method, negative,
    opened, selected, signed, three, within,
};
use crate::tree::Tree;
use base_containers::{Boxed, Items};
use cel_lex::{Token, TokenKind};
use cel_value::{Entry, UnaryOperator};
use std::alloc::Global;

#[cycle(descent)]
#[tactic(auto, unfolding(crate::specs::Descent::expression))]
fn read_expression<'a>(
    alloc: Global,
    source: &str,
    brackets: u32,
    tokens: &'a [Token],
) -> Result<Taken<'a, Boxed<Tree>>, ParseError>
    ensures { Gives seen result (expression source.now brackets tokens.now) }
{
    if brackets == 0 {
        return Err(ParseError::Fault(ParseFault::TooDeep));
    }
    read_conditional(alloc, source, brackets - 1, 100, tokens)
}

#[cycle(descent)]
#[tactic(auto, unfolding(crate::specs::Descent::conditional_at))]
fn read_conditional<'a>(
    alloc: Global,
    source: &str,
    brackets: u32,
    turns: u32,
    tokens: &'a [Token],
) -> Result<Taken<'a, Boxed<Tree>>, ParseError>
    requires { turns ≤ 100 }
    ensures { Gives seen result (conditional_at (expression source.now brackets) source.now brackets turns tokens.now) }
{
    if turns == 0 {
        return Err(ParseError::Fault(ParseFault::TooDeep));
    }
    let test = read_operators(alloc, source, brackets, 5, tokens)?;
    let Some((place, after)) = question_at(test.rest) else {
        return Ok(test);
    };
    let yes = read_operators(alloc, source, brackets, 5, after)?;
    let Some((_, after)) = colon_at(yes.rest) else {
        return Err(unexpected_at(source, yes.rest));
    };
    let no = read_conditional(alloc, source, brackets, turns - 1, after);
    three(alloc, place, test, yes, no)
}

#[cycle(descent)]
#[tactic(auto, unfolding(crate::specs::Descent::operators))]
fn read_operators<'a>(
    alloc: Global,
    source: &str,
    brackets: u32,
    level: u32,
    tokens: &'a [Token],
) -> Result<Taken<'a, Boxed<Tree>>, ParseError>
    requires { level ≤ 5 }
    ensures { Gives seen result (operators (expression source.now brackets) source.now brackets level tokens.now) }
{
    if level == 0 {
        return read_unary(alloc, source, brackets, tokens);
    }
    let mut left = read_operators(alloc, source, brackets, level - 1, tokens)?;
    for _turn in 0..100u32 {
        let Some((joint, place, after)) = joining_at(level, left.rest) else {
            return Ok(left);
        };
        let right = read_operators(alloc, source, brackets, level - 1, after);
        left = both(alloc, joint, place, left, right)?;
    }
    Err(ParseError::Fault(ParseFault::TooDeep))
}

// How many signs may be in a row.
fn most_signs() -> u32
    ensures { result ≡ 100 }
{
    100
}

#[cycle(descent)]
#[tactic(auto, unfolding(crate::specs::Descent::unary_at))]
fn read_unary<'a>(
    alloc: Global,
    source: &str,
    brackets: u32,
    tokens: &'a [Token],
) -> Result<Taken<'a, Boxed<Tree>>, ParseError>
    ensures { Gives seen result (unary_at (expression source.now brackets) source.now brackets tokens.now) }
{
    if let Some((place, after)) = bang_at(tokens) {
        let operand = read_nots(alloc, source, brackets, most_signs(), after);
        return signed(alloc, place, UnaryOperator::Not, operand);
    }
    if let Some((place, after)) = minus_at(tokens) {
        return read_minuses(alloc, source, brackets, most_signs(), place, after);
    }
    read_member(alloc, source, brackets, tokens)
}

#[cycle(descent)]
#[tactic(auto, unfolding(crate::specs::Descent::nots_at))]
fn read_nots<'a>(
    alloc: Global,
    source: &str,
    brackets: u32,
    turns: u32,
    tokens: &'a [Token],
) -> Result<Taken<'a, Boxed<Tree>>, ParseError>
    requires { turns ≤ 100 }
    ensures { Gives seen result (nots_at (expression source.now brackets) source.now brackets turns tokens.now) }
{
    if turns == 0 {
        return Err(ParseError::Fault(ParseFault::TooDeep));
    }
    if let Some((place, after)) = bang_at(tokens) {
        let operand = read_nots(alloc, source, brackets, turns - 1, after);
        return signed(alloc, place, UnaryOperator::Not, operand);
    }
    read_member(alloc, source, brackets, tokens)
}

#[cycle(descent)]
#[tactic(auto, unfolding(crate::specs::Descent::minuses_at))]
fn read_minuses<'a>(
    alloc: Global,
    source: &str,
    brackets: u32,
    turns: u32,
    place: usize,
    tokens: &'a [Token],
) -> Result<Taken<'a, Boxed<Tree>>, ParseError>
    requires { turns ≤ 100 }
    ensures { Gives seen result (minuses_at (expression source.now brackets) source.now brackets turns place tokens.now) }
{
    if turns == 0 {
        return Err(ParseError::Fault(ParseFault::TooDeep));
    }
    if let Some((next, after)) = minus_at(tokens) {
        let operand = read_minuses(alloc, source, brackets, turns - 1, next, after);
        return signed(alloc, place, UnaryOperator::Negate, operand);
    }
    if let Some((magnitude, rest)) = lone_at(tokens) {
        return negative(alloc, place, magnitude, rest);
    }
    let operand = read_member(alloc, source, brackets, tokens);
    signed(alloc, place, UnaryOperator::Negate, operand)
}

#[cycle(descent)]
#[tactic(auto, unfolding(crate::specs::Descent::member))]
fn read_member<'a>(
    alloc: Global,
    source: &str,
    brackets: u32,
    tokens: &'a [Token],
) -> Result<Taken<'a, Boxed<Tree>>, ParseError>
    ensures { Gives seen result (member (expression source.now brackets) source.now brackets tokens.now) }
{
    let mut left = read_primary(alloc, source, brackets, tokens)?;
    for _turn in 0..100u32 {
        let Some((suffix, place, after)) = suffix_at(left.rest) else {
            return Ok(left);
        };
        left = read_suffix(alloc, source, brackets, suffix, place, left, after)?;
    }
    Err(ParseError::Fault(ParseFault::TooDeep))
}

// A member with what goes on it, after the first token of that.
#[cycle(descent)]
#[tactic(auto, unfolding(crate::specs::Descent::suffixed))]
fn read_suffix<'a>(
    alloc: Global,
    source: &str,
    brackets: u32,
    suffix: Suffix,
    place: usize,
    left: Taken<'a, Boxed<Tree>>,
    tokens: &'a [Token],
) -> Result<Taken<'a, Boxed<Tree>>, ParseError>
    ensures { Gives seen result (suffixed (expression source.now brackets) source.now brackets suffix place (seen left.entry) tokens.now) }
{
    if matches!(suffix, Suffix::Index) {
        let index = read_expression(alloc, source, brackets, tokens);
        return indexed(alloc, source, place, left, index);
    }
    let Some((selector, after)) = selector_at(tokens) else {
        return Err(unexpected_at(source, tokens));
    };
    let Some((_, inside)) = opening_at(after) else {
        return selected(alloc, selector, left, after);
    };
    let arguments = read_items(alloc, source, brackets, Closer::Parenthesis, inside);
    method(alloc, selector, left, arguments)
}

#[cycle(descent)]
#[tactic(auto, unfolding(crate::specs::Descent::primary))]
fn read_primary<'a>(
    alloc: Global,
    source: &str,
    brackets: u32,
    tokens: &'a [Token],
) -> Result<Taken<'a, Boxed<Tree>>, ParseError>
    ensures { Gives seen result (primary (expression source.now brackets) source.now brackets tokens.now) }
{
    let [first, rest @ ..] = tokens else {
        return Err(unexpected_at(source, tokens));
    };
    let place = first.start;
    if let Some(what) = literal_of(first)? {
        return leaf(alloc, what, rest);
    }
    match first.kind {
        TokenKind::Name => {
            let Some((_, inside)) = opening_at(rest) else {
                return leaf(alloc, Tree::Name { place }, rest);
            };
            let arguments = read_items(alloc, source, brackets, Closer::Parenthesis, inside);
            called(alloc, source, place, arguments)
        }
        TokenKind::Open => {
            let inside = read_expression(alloc, source, brackets, rest);
            within(source, inside)
        }
        TokenKind::OpenBracket => {
            let items = read_items(alloc, source, brackets, Closer::Bracket, rest);
            listed(alloc, place, items)
        }
        TokenKind::OpenBrace => {
            let entries = read_entries(alloc, source, brackets, rest);
            mapped(alloc, place, entries)
        }
        _ => Err(unexpected_at(source, tokens)),
    }
}

// Expressions between commas, and what closes them. There are at most as many as a text has bytes.
#[cycle(descent)]
#[tactic(auto, unfolding(crate::specs::Descent::items))]
fn read_items<'a>(
    alloc: Global,
    source: &str,
    brackets: u32,
    closer: Closer,
    tokens: &'a [Token],
) -> Result<Taken<'a, Items<Tree>>, ParseError>
    ensures { Gives seen result (items (expression source.now brackets) source.now brackets closer tokens.now) }
{
    let mut items = Items::new(alloc);
    let mut deepest = 0;
    if let Some((_, rest)) = opened(source, brackets, closer, tokens)? {
        return Ok(Taken {
            what: items,
            depth: deepest,
            rest,
        });
    }
    let mut ahead = tokens;
    for _turn in 0..16384u32 {
        let Taken { what, depth, rest } = read_expression(alloc, source, brackets, ahead)?;
        items.push(what.into_inner())?;
        deepest = deepest.max(depth);
        match step_at(source, closer, rest)? {
            Step::End(rest) => {
                return Ok(Taken {
                    what: items,
                    depth: deepest,
                    rest,
                });
            }
            Step::More(rest) => ahead = rest,
        }
    }
    Err(ParseError::Fault(ParseFault::TooDeep))
}

// A key, a colon and a value.
#[cycle(descent)]
#[tactic(auto, unfolding(crate::specs::Descent::entry))]
fn read_entry<'a>(
    alloc: Global,
    source: &str,
    brackets: u32,
    tokens: &'a [Token],
) -> Result<Taken<'a, Entry<Tree>>, ParseError>
    ensures { Gives seen result (entry (expression source.now brackets) source.now tokens.now) }
{
    let key = read_expression(alloc, source, brackets, tokens)?;
    let Some((_, after)) = colon_at(key.rest) else {
        return Err(unexpected_at(source, key.rest));
    };
    let value = read_expression(alloc, source, brackets, after);
    entered(key, value)
}

// Entries between commas, and the brace that closes them. There are at most as many as a text has bytes.
#[cycle(descent)]
#[tactic(auto, unfolding(crate::specs::Descent::entries))]
fn read_entries<'a>(
    alloc: Global,
    source: &str,
    brackets: u32,
    tokens: &'a [Token],
) -> Result<Taken<'a, Items<Entry<Tree>>>, ParseError>
    ensures { Gives seen result (entries (expression source.now brackets) source.now brackets tokens.now) }
{
    let mut entries = Items::new(alloc);
    let mut deepest = 0;
    if let Some((_, rest)) = opened(source, brackets, Closer::Brace, tokens)? {
        return Ok(Taken {
            what: entries,
            depth: deepest,
            rest,
        });
    }
    let mut ahead = tokens;
    for _turn in 0..16384u32 {
        let Taken { what, depth, rest } = read_entry(alloc, source, brackets, ahead)?;
        entries.push(what)?;
        deepest = deepest.max(depth);
        match step_at(source, Closer::Brace, rest)? {
            Step::End(rest) => {
                return Ok(Taken {
                    what: entries,
                    depth: deepest,
                    rest,
                });
            }
            Step::More(rest) => ahead = rest,
        }
    }
    Err(ParseError::Fault(ParseFault::TooDeep))
}

// The tree of all the tokens of a text.
#[tactic(auto, unfolding(crate::specs::Descent::all_of))]
fn read_all(alloc: Global, source: &str, tokens: &[Token]) -> Result<Boxed<Tree>, ParseError>
    ensures { Gives same result (all_of source.now tokens.now) }
{
    let Taken {
        what,
        depth: _,
        rest,
    } = read_expression(alloc, source, 101, tokens)?;
    match rest {
        [] => Ok(what),
        [first, ..] => Err(ParseError::Fault(ParseFault::Unexpected { place: first.start })),
    }
}

/// The tree that the grammar derives from the tokens of a text.
pub fn tree_of(alloc: Global, source: &str, tokens: &[Token]) -> Result<Boxed<Tree>, ParseError>
    requires few { length tokens.now ≤ 16384 }
    ensures tree { IfOk result (λ e. IsTree source.now tokens.now e) }
    ensures refused { (f : ParseFault) → IsErrOf result (failed.Fault f) → HasNoTree source.now tokens.now f }
    // The answer is that of reading from left to right, which is a function of the tokens.
    ensures read { Gives same result (all_of source.now tokens.now) }
{
    read_all(alloc, source, tokens)
}
