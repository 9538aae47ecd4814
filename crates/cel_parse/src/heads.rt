//! The tokens that come first.

ghost use Rattle.std.specs.Prelude.{◌≡◌, length};
ghost use Rattle.base_containers.specs.declared.failed.Failed.TheVariants as failed;
ghost use Rattle.cel_parse.specs.declared.fault.ParseFault.TheVariants.{Unexpected};
ghost use Rattle.cel_parse.specs.Grammar.{looseness, closes, takes_comma, is_selector, place_at};
ghost use Rattle.cel_parse.specs.Views.{same, seen_head, seen_operator, seen_step, Gives};
ghost use Rattle.cel_parse.specs.Descent.{head_if, is_bang, is_open, is_comma, is_question, is_colon, is_minus};
ghost use Rattle.cel_parse.specs.Descent.{number_at, lone_at, joint_at, operator_at, suffix_at, end_at, spare_comma_at, step_at};

use crate::fault::{ParseError, ParseFault};
use crate::tree::Joint;
use cel_lex::{Infix, Token, TokenKind};

/// What closes a list of expressions or entries, or an expression in brackets.
#[derive(Clone, Copy)]
pub enum Closer {
    Parenthesis,
    Bracket,
    Brace,
}

/// What goes on a member.
#[derive(Clone, Copy)]
pub enum Suffix {
    Selector,
    Index,
}

/// What follows an item: the end of the list, or one more item.
pub enum Step<'a> {
    End(&'a [Token]),
    More(&'a [Token]),
}

pub fn bang_at(tokens: &[Token]) -> Option<(usize, &[Token])>
    ensures { seen_head result ≡ head_if is_bang tokens.now }
{
    match tokens {
        [
            Token {
                kind: TokenKind::Bang,
                start,
                ..
            },
            rest @ ..,
        ] => Some((*start, rest)),
        _ => None,
    }
}

pub fn opening_at(tokens: &[Token]) -> Option<(usize, &[Token])>
    ensures { seen_head result ≡ head_if is_open tokens.now }
{
    match tokens {
        [
            Token {
                kind: TokenKind::Open,
                start,
                ..
            },
            rest @ ..,
        ] => Some((*start, rest)),
        _ => None,
    }
}

fn comma_at(tokens: &[Token]) -> Option<(usize, &[Token])>
    ensures { seen_head result ≡ head_if is_comma tokens.now }
{
    match tokens {
        [
            Token {
                kind: TokenKind::Comma,
                start,
                ..
            },
            rest @ ..,
        ] => Some((*start, rest)),
        _ => None,
    }
}

pub fn question_at(tokens: &[Token]) -> Option<(usize, &[Token])>
    ensures { seen_head result ≡ head_if is_question tokens.now }
{
    match tokens {
        [
            Token {
                kind: TokenKind::Question,
                start,
                ..
            },
            rest @ ..,
        ] => Some((*start, rest)),
        _ => None,
    }
}

pub fn colon_at(tokens: &[Token]) -> Option<(usize, &[Token])>
    ensures { seen_head result ≡ head_if is_colon tokens.now }
{
    match tokens {
        [
            Token {
                kind: TokenKind::Colon,
                start,
                ..
            },
            rest @ ..,
        ] => Some((*start, rest)),
        _ => None,
    }
}

pub fn minus_at(tokens: &[Token]) -> Option<(usize, &[Token])>
    ensures { seen_head result ≡ head_if is_minus tokens.now }
{
    match tokens {
        [
            Token {
                kind: TokenKind::Operator(Infix::Subtract),
                start,
                ..
            },
            rest @ ..,
        ] => Some((*start, rest)),
        _ => None,
    }
}

pub fn selector_at(tokens: &[Token]) -> Option<(usize, &[Token])>
    ensures { seen_head result ≡ head_if is_selector tokens.now }
{
    match tokens {
        [
            Token {
                kind: TokenKind::Name | TokenKind::Reserved,
                start,
                ..
            },
            rest @ ..,
        ] => Some((*start, rest)),
        _ => None,
    }
}

fn is_closing(closer: Closer, kind: &TokenKind) -> bool
    ensures { result ≡ closes closer kind.now }
{
    match closer {
        Closer::Parenthesis => matches!(kind, TokenKind::Close),
        Closer::Bracket => matches!(kind, TokenKind::CloseBracket),
        Closer::Brace => matches!(kind, TokenKind::CloseBrace),
    }
}

pub fn closing_at(closer: Closer, tokens: &[Token]) -> Option<(usize, &[Token])>
    ensures { seen_head result ≡ head_if (closes closer) tokens.now }
{
    match tokens {
        [first, rest @ ..] => {
            if is_closing(closer, &first.kind) {
                Some((first.start, rest))
            } else {
                None
            }
        }
        [] => None,
    }
}

fn allows_comma(closer: Closer) -> bool
    ensures { result ≡ takes_comma closer }
{
    match closer {
        Closer::Parenthesis => false,
        Closer::Bracket | Closer::Brace => true,
    }
}

/// A comma, if there may be one in front of what closes.
pub fn spare_comma_at(closer: Closer, tokens: &[Token]) -> Option<(usize, &[Token])>
    ensures { seen_head result ≡ spare_comma_at closer tokens.now }
{
    if allows_comma(closer) {
        comma_at(tokens)
    } else {
        None
    }
}

/// What closes, and the comma in front of it, if there is one and may be one.
pub fn end_at(closer: Closer, tokens: &[Token]) -> Option<(usize, &[Token])>
    ensures { seen_head result ≡ end_at closer tokens.now }
{
    if let Some(end) = closing_at(closer, tokens) {
        return Some(end);
    }
    match spare_comma_at(closer, tokens) {
        Some((_, after)) => closing_at(closer, after),
        None => None,
    }
}

/// What follows an item.
pub fn step_at<'a>(
    source: &str,
    closer: Closer,
    tokens: &'a [Token],
) -> Result<Step<'a>, ParseError>
    ensures { Gives seen_step result (step_at source.now closer tokens.now) }
{
    if let Some((_, rest)) = end_at(closer, tokens) {
        return Ok(Step::End(rest));
    }
    match comma_at(tokens) {
        Some((_, rest)) => Ok(Step::More(rest)),
        None => Err(unexpected_at(source, tokens)),
    }
}

fn int_at(tokens: &[Token]) -> Option<(u64, &[Token])>
    ensures { seen_head result ≡ number_at tokens.now }
{
    match tokens {
        [
            Token {
                kind: TokenKind::Int(magnitude),
                ..
            },
            rest @ ..,
        ] => Some((*magnitude, rest)),
        _ => None,
    }
}

pub fn suffix_at(tokens: &[Token]) -> Option<(Suffix, usize, &[Token])>
    ensures { seen_operator result ≡ suffix_at tokens.now }
{
    match tokens {
        [
            Token {
                kind: TokenKind::Dot,
                start,
                ..
            },
            rest @ ..,
        ] => Some((Suffix::Selector, *start, rest)),
        [
            Token {
                kind: TokenKind::OpenBracket,
                start,
                ..
            },
            rest @ ..,
        ] => Some((Suffix::Index, *start, rest)),
        _ => None,
    }
}

/// A number that nothing goes on.
pub fn lone_at(tokens: &[Token]) -> Option<(u64, &[Token])>
    ensures { seen_head result ≡ lone_at tokens.now }
{
    let (magnitude, rest) = int_at(tokens)?;
    match suffix_at(rest) {
        Some(_) => None,
        None => Some((magnitude, rest)),
    }
}

fn looseness_of(joint: Joint) -> u32
    ensures { result ≡ looseness joint }
{
    match joint {
        Joint::Infix(Infix::Or) => 5,
        Joint::Infix(Infix::And) => 4,
        Joint::Infix(
            Infix::Less
            | Infix::AtMost
            | Infix::Greater
            | Infix::AtLeast
            | Infix::Equal
            | Infix::NotEqual,
        )
        | Joint::In => 3,
        Joint::Infix(Infix::Add | Infix::Subtract) => 2,
        Joint::Infix(Infix::Multiply | Infix::Divide | Infix::Remainder) => 1,
    }
}

fn joint_at(tokens: &[Token]) -> Option<(Joint, usize, &[Token])>
    ensures { seen_operator result ≡ joint_at tokens.now }
{
    match tokens {
        [
            Token {
                kind: TokenKind::Operator(operator),
                start,
                ..
            },
            rest @ ..,
        ] => Some((Joint::Infix(*operator), *start, rest)),
        [
            Token {
                kind: TokenKind::In,
                start,
                ..
            },
            rest @ ..,
        ] => Some((Joint::In, *start, rest)),
        _ => None,
    }
}

pub fn joining_at(level: u32, tokens: &[Token]) -> Option<(Joint, usize, &[Token])>
    ensures { seen_operator result ≡ operator_at level tokens.now }
{
    let (joint, place, rest) = joint_at(tokens)?;
    if looseness_of(joint) == level {
        Some((joint, place, rest))
    } else {
        None
    }
}

pub fn unexpected_at(source: &str, tokens: &[Token]) -> ParseError
    ensures { result ≡ failed.Fault (Unexpected (place_at (length source.now) tokens.now)) }
{
    match tokens {
        [] => ParseError::Fault(ParseFault::Unexpected {
            place: source.len(),
        }),
        [first, ..] => ParseError::Fault(ParseFault::Unexpected { place: first.start }),
    }
}
