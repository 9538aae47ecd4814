//! Trees that grow by a node, within the limit of depth.

ghost use Rattle.std.specs.Prelude.{◌≡◌, ℕ, true, List, IfOk, Ok};
ghost use Rattle.cel_parse.specs.declared.tree.Tree.TheVariants.{Number};
ghost use Rattle.cel_parse.specs.declared.heads.Closer.TheVariants.{Parenthesis};
ghost use Rattle.cel_parse.specs.Limits.{measure, is_test};
ghost use Rattle.cel_parse.specs.Views.{seen, seen_head, Gives, Carries};
ghost use Rattle.cel_parse.specs.Descent.{node, leaf, literal_of, closed, wrapped, joined, picked, listed, mapped};
ghost use Rattle.cel_parse.specs.Descent.{called, selected, method, indexed_behind, entered_behind, opened};

use crate::fault::{ParseError, ParseFault};
use crate::heads::{Closer, closing_at, end_at, spare_comma_at, unexpected_at};
use crate::tree::{Joint, Tree};
use crate::word::is_has;
use base_containers::{Boxed, Items};
use cel_lex::{Token, TokenKind};
use cel_value::{Entry, UnaryOperator};
use std::alloc::{AllocError, Global};

/// What was read, how deep it is, and the tokens after it.
#[derive(Drop)]
pub struct Taken<'a, T> {
    pub what: T,
    pub depth: u32,
    pub rest: &'a [Token],
}

// A node, unless it is too deep. It is held in a box, so that letting it go is one call.
#[tactic(auto, unfolding(crate::specs::Descent::node))]
fn grown<'a>(
    alloc: Global,
    what: Tree,
    below: u32,
    rest: &'a [Token],
) -> Result<Taken<'a, Boxed<Tree>>, ParseError>
    ensures { Gives seen result (node what below rest.now) }
{
    let what = Boxed::new(alloc, what)?;
    let is_too_deep = below >= 100;
    if is_too_deep {
        return Err(ParseError::Fault(ParseFault::TooDeep));
    }
    Ok(Taken {
        what,
        depth: below + 1,
        rest,
    })
}

// A node of a depth that is within the limit.
fn at_depth<'a>(
    alloc: Global,
    what: Tree,
    depth: u32,
    rest: &'a [Token],
) -> Result<Taken<'a, Boxed<Tree>>, ParseError>
    ensures { Gives seen result (Ok (record { what = what; deep = depth; rest = rest.now })) }
{
    let what = Boxed::new(alloc, what)?;
    Ok(Taken { what, depth, rest })
}

/// A node with nothing below it.
pub fn leaf<'a>(
    alloc: Global,
    what: Tree,
    rest: &'a [Token],
) -> Result<Taken<'a, Boxed<Tree>>, ParseError>
    ensures { Gives seen result (leaf what rest.now) }
{
    at_depth(alloc, what, 1, rest)
}

/// A number with the minus in front of it.
pub fn negative<'a>(
    alloc: Global,
    place: usize,
    magnitude: u64,
    rest: &'a [Token],
) -> Result<Taken<'a, Boxed<Tree>>, ParseError>
    ensures { Gives seen result (leaf (Number place true magnitude) rest.now) }
{
    let what = Tree::Number {
        place,
        is_negative: true,
        magnitude,
    };
    leaf(alloc, what, rest)
}

/// The literal that a token is, if it is one.
pub fn literal_of(token: &Token) -> Result<Option<Tree>, AllocError>
    ensures { IfOk result (λ o. o ≡ literal_of token.now) }
{
    let place = token.start;
    Ok(match &token.kind {
        TokenKind::Null => Some(Tree::Null { place }),
        TokenKind::True => Some(Tree::Truth { place, value: true }),
        TokenKind::False => Some(Tree::Truth {
            place,
            value: false,
        }),
        TokenKind::Int(magnitude) => Some(Tree::Number {
            place,
            is_negative: false,
            magnitude: *magnitude,
        }),
        TokenKind::Uint(value) => Some(Tree::Unsigned {
            place,
            value: *value,
        }),
        TokenKind::Text(value) => Some(Tree::Text {
            place,
            value: value.copy()?,
        }),
        _ => None,
    })
}

pub fn signed<'a>(
    alloc: Global,
    place: usize,
    operator: UnaryOperator,
    operand: Result<Taken<'a, Boxed<Tree>>, ParseError>,
) -> Result<Taken<'a, Boxed<Tree>>, ParseError>
    ensures { Carries seen seen operand.entry result (wrapped place operator) }
{
    let Taken { what, depth, rest } = operand?;
    let tree = Tree::Unary {
        place,
        operator,
        operand: what,
    };
    grown(alloc, tree, depth, rest)
}

#[tactic(auto, unfolding(crate::specs::Descent::joined))]
pub fn both<'a>(
    alloc: Global,
    joint: Joint,
    place: usize,
    left: Taken<'a, Boxed<Tree>>,
    right: Result<Taken<'a, Boxed<Tree>>, ParseError>,
) -> Result<Taken<'a, Boxed<Tree>>, ParseError>
    ensures { Carries seen seen right.entry result (joined joint place (seen left.entry)) }
{
    let Taken {
        what: left,
        depth: left_depth,
        rest: _,
    } = left;
    let Taken {
        what: right,
        depth: right_depth,
        rest,
    } = right?;
    let tree = Tree::Binary {
        place,
        joint,
        left,
        right,
    };
    grown(alloc, tree, left_depth.max(right_depth), rest)
}

pub fn three<'a>(
    alloc: Global,
    place: usize,
    test: Taken<'a, Boxed<Tree>>,
    yes: Taken<'a, Boxed<Tree>>,
    no: Result<Taken<'a, Boxed<Tree>>, ParseError>,
) -> Result<Taken<'a, Boxed<Tree>>, ParseError>
    ensures { Carries seen seen no.entry result (picked place (seen test.entry) (seen yes.entry)) }
{
    let Taken {
        what: test,
        depth: test_depth,
        rest: _,
    } = test;
    let Taken {
        what: yes,
        depth: yes_depth,
        rest: _,
    } = yes;
    let Taken {
        what: no,
        depth: no_depth,
        rest,
    } = no?;
    let tree = Tree::Conditional {
        place,
        test,
        yes,
        no,
    };
    grown(alloc, tree, test_depth.max(yes_depth.max(no_depth)), rest)
}

// What is in brackets, and the closing one.
#[tactic(auto, unfolding(crate::specs::Descent::closed))]
fn shut<'a>(
    source: &str,
    closer: Closer,
    inside: Taken<'a, Boxed<Tree>>,
) -> Result<Taken<'a, Boxed<Tree>>, ParseError>
    ensures { Gives seen result (closed source.now closer (seen inside.entry)) }
{
    let Taken { what, depth, rest } = inside;
    match closing_at(closer, rest) {
        Some((_, rest)) => Ok(Taken { what, depth, rest }),
        None => Err(unexpected_at(source, rest)),
    }
}

/// What is in parentheses, and the closing one.
// Cut for the prover: it takes the result of a call, so that the cycle of readers has no `?`.
pub fn within<'a>(
    source: &str,
    inside: Result<Taken<'a, Boxed<Tree>>, ParseError>,
) -> Result<Taken<'a, Boxed<Tree>>, ParseError>
    ensures { Carries seen seen inside.entry result (closed source.now Parenthesis) }
{
    shut(source, Closer::Parenthesis, inside?)
}

/// After an opening bracket: what follows the closing one, if no item is between, as far as a bracket may be open.
#[tactic(auto, unfolding(crate::specs::Descent::opened))]
pub fn opened<'a>(
    source: &str,
    brackets: u32,
    closer: Closer,
    tokens: &'a [Token],
) -> Result<Option<(usize, &'a [Token])>, ParseError>
    ensures { Gives seen_head result (opened source.now brackets closer tokens.now) }
{
    if brackets == 0 {
        return Err(ParseError::Fault(ParseFault::TooDeep));
    }
    if let Some(end) = end_at(closer, tokens) {
        return Ok(Some(end));
    }
    match spare_comma_at(closer, tokens) {
        Some((_, after)) => Err(unexpected_at(source, after)),
        None => Ok(None),
    }
}

pub fn listed<'a>(
    alloc: Global,
    place: usize,
    items: Result<Taken<'a, Items<Tree>>, ParseError>,
) -> Result<Taken<'a, Boxed<Tree>>, ParseError>
    ensures { Carries seen seen items.entry result (listed place) }
{
    let Taken { what, depth, rest } = items?;
    grown(alloc, Tree::List { place, items: what }, depth, rest)
}

pub fn mapped<'a>(
    alloc: Global,
    place: usize,
    entries: Result<Taken<'a, Items<Entry<Tree>>>, ParseError>,
) -> Result<Taken<'a, Boxed<Tree>>, ParseError>
    ensures { Carries seen seen entries.entry result (mapped place) }
{
    let Taken { what, depth, rest } = entries?;
    let tree = Tree::Map {
        place,
        entries: what,
    };
    grown(alloc, tree, depth, rest)
}

fn is_select(tree: &Tree) -> bool
    ensures { (source : List ℕ) → result ≡ (measure source tree.now).selects }
{
    matches!(tree, Tree::Select { .. })
}

// Whether a call is a test for a field, which adds no node.
fn is_test(source: &str, place: usize, arguments: &[Tree]) -> bool
    ensures { result ≡ is_test source.now place arguments.now }
{
    match arguments {
        [only] => is_has(source, place) && is_select(only),
        _ => false,
    }
}

#[tactic(auto, unfolding(crate::specs::Descent::called))]
pub fn called<'a>(
    alloc: Global,
    source: &str,
    place: usize,
    arguments: Result<Taken<'a, Items<Tree>>, ParseError>,
) -> Result<Taken<'a, Boxed<Tree>>, ParseError>
    ensures { Carries seen seen arguments.entry result (called source.now place) }
{
    let Taken { what, depth, rest } = arguments?;
    let is_test = is_test(source, place, what.as_slice());
    let tree = Tree::Call {
        place,
        arguments: what,
    };
    if is_test {
        return at_depth(alloc, tree, depth, rest);
    }
    grown(alloc, tree, depth, rest)
}

pub fn selected<'a>(
    alloc: Global,
    place: usize,
    operand: Taken<'a, Boxed<Tree>>,
    rest: &'a [Token],
) -> Result<Taken<'a, Boxed<Tree>>, ParseError>
    ensures { Gives seen result (selected place (seen operand.entry) rest.now) }
{
    let Taken {
        what: operand,
        depth,
        rest: _,
    } = operand;
    grown(alloc, Tree::Select { place, operand }, depth, rest)
}

#[tactic(auto, unfolding(crate::specs::Descent::method))]
pub fn method<'a>(
    alloc: Global,
    place: usize,
    operand: Taken<'a, Boxed<Tree>>,
    arguments: Result<Taken<'a, Items<Tree>>, ParseError>,
) -> Result<Taken<'a, Boxed<Tree>>, ParseError>
    ensures { Carries seen seen arguments.entry result (method place (seen operand.entry)) }
{
    let Taken {
        what: operand,
        depth: operand_depth,
        rest: _,
    } = operand;
    let Taken {
        what: arguments,
        depth: arguments_depth,
        rest,
    } = arguments?;
    let tree = Tree::Method {
        place,
        operand,
        arguments,
    };
    grown(alloc, tree, operand_depth.max(arguments_depth), rest)
}

/// An item of a member, and the bracket that closes it.
#[tactic(auto, unfolding(crate::specs::Descent::indexed))]
pub fn indexed<'a>(
    alloc: Global,
    source: &str,
    place: usize,
    operand: Taken<'a, Boxed<Tree>>,
    index: Result<Taken<'a, Boxed<Tree>>, ParseError>,
) -> Result<Taken<'a, Boxed<Tree>>, ParseError>
    ensures { Carries seen seen index.entry result (indexed_behind source.now place (seen operand.entry)) }
{
    let Taken {
        what: operand,
        depth: operand_depth,
        rest: _,
    } = operand;
    let Taken {
        what: index,
        depth: index_depth,
        rest,
    } = shut(source, Closer::Bracket, index?)?;
    let tree = Tree::Index {
        place,
        operand,
        index,
    };
    grown(alloc, tree, operand_depth.max(index_depth), rest)
}

pub fn entered<'a>(
    key: Taken<'a, Boxed<Tree>>,
    value: Result<Taken<'a, Boxed<Tree>>, ParseError>,
) -> Result<Taken<'a, Entry<Tree>>, ParseError>
    ensures { Carries seen seen value.entry result (entered_behind (seen key.entry)) }
{
    let Taken {
        what: key,
        depth: key_depth,
        rest: _,
    } = key;
    let Taken {
        what: value,
        depth: value_depth,
        rest,
    } = value?;
    Ok(Taken {
        what: Entry {
            key: key.into_inner(),
            value: value.into_inner(),
        },
        depth: key_depth.max(value_depth),
        rest,
    })
}
