//! The expression of a tree, with its macros expanded.

ghost use Rattle.std.specs.Prelude.{◌≡◌, ℕ, List, IfOk, Ok};
ghost use Rattle.cel_value.specs.declared.expr.Expr.{Expr};
ghost use Rattle.cel_parse.specs.Views.{same, Gives, Carries};
ghost use Rattle.cel_parse.specs.Words.{word_at};
ghost use Rattle.cel_parse.specs.Expansion.{expr, number_of, form_of, each, each_entry, plain_call, has_of, call_of};
ghost use Rattle.cel_parse.specs.Expansion.{name_in, loop_name, plain_method, loop_of_kind, method_of};
ghost use Rattle.cel_parse.specs.Expansion.{expansion, expansions, entry_expansions, expanded};

use crate::fault::{ParseError, ParseFault};
use crate::macros::loop_at;
use crate::tree::{Joint, Tree};
use crate::word::{is_has, word_at};
use base_containers::{Boxed, Items, Text};
use cel_lex::{Infix, LexFault, LexFaultKind};
use cel_value::{BinaryOperator, Entry, Expr, Loop, Syntax, UnaryOperator};
use std::alloc::{AllocError, Global};

// An expression at a place. It is held in a box, so that letting it go is one call.
fn at(alloc: Global, place: usize, form: Syntax<Expr>) -> Result<Boxed<Expr>, ParseError>
    ensures { Gives same result (Ok (expr place form)) }
{
    Ok(Boxed::new(alloc, Expr { place, form })?)
}

// The word that begins at a place.
fn word(alloc: Global, source: &str, place: usize) -> Result<Text, AllocError>
    ensures { IfOk result (λ t. t ≡ word_at source.now place) }
{
    Text::from_str(alloc, word_at(source, place))
}

// A number, unless it is out of range.
fn number(
    alloc: Global,
    place: usize,
    is_negative: bool,
    magnitude: u64,
) -> Result<Boxed<Expr>, ParseError>
    ensures { Gives same result (number_of place is_negative magnitude) }
{
    let value = if is_negative && magnitude == 9223372036854775808 {
        i64::MIN
    } else if magnitude > 9223372036854775807 {
        return Err(ParseError::Fault(ParseFault::Lex(LexFault {
            kind: LexFaultKind::IntRange,
            place,
        })));
    } else if is_negative {
        -(magnitude as i64)
    } else {
        magnitude as i64
    };
    at(alloc, place, Syntax::Int(value))
}

fn text(alloc: Global, place: usize, value: &Text) -> Result<Boxed<Expr>, ParseError>
    ensures { Gives same result (Ok (expr place (Syntax.Text value.now))) }
{
    at(alloc, place, Syntax::Text(value.copy()?))
}

fn named(alloc: Global, source: &str, place: usize) -> Result<Boxed<Expr>, ParseError>
    ensures { Gives same result (Ok (expr place (Syntax.Name (word_at source.now place)))) }
{
    let name = word(alloc, source, place)?;
    at(alloc, place, Syntax::Name(name))
}

fn form(joint: Joint, left: Boxed<Expr>, right: Boxed<Expr>) -> Syntax<Expr>
    ensures { result ≡ form_of joint left right }
{
    let operator = match joint {
        Joint::Infix(Infix::Or) => return Syntax::Or(left, right),
        Joint::Infix(Infix::And) => return Syntax::And(left, right),
        Joint::Infix(Infix::Less) => BinaryOperator::Less,
        Joint::Infix(Infix::AtMost) => BinaryOperator::AtMost,
        Joint::Infix(Infix::Greater) => BinaryOperator::Greater,
        Joint::Infix(Infix::AtLeast) => BinaryOperator::AtLeast,
        Joint::Infix(Infix::Equal) => BinaryOperator::Equal,
        Joint::Infix(Infix::NotEqual) => BinaryOperator::NotEqual,
        Joint::In => BinaryOperator::In,
        Joint::Infix(Infix::Add) => BinaryOperator::Add,
        Joint::Infix(Infix::Subtract) => BinaryOperator::Subtract,
        Joint::Infix(Infix::Multiply) => BinaryOperator::Multiply,
        Joint::Infix(Infix::Divide) => BinaryOperator::Divide,
        Joint::Infix(Infix::Remainder) => BinaryOperator::Remainder,
    };
    Syntax::Binary(operator, left, right)
}

fn select(
    alloc: Global,
    source: &str,
    place: usize,
    operand: Result<Boxed<Expr>, ParseError>,
) -> Result<Boxed<Expr>, ParseError>
    ensures { Carries same same operand result (λ e. Ok (expr place (Syntax.Select e (word_at source.now place)))) }
{
    let operand = operand?;
    let field = word(alloc, source, place)?;
    at(alloc, place, Syntax::Select(operand, field))
}

// The test for a field.
fn has(
    alloc: Global,
    source: &str,
    place: usize,
    field: usize,
    operand: Result<Boxed<Expr>, ParseError>,
) -> Result<Boxed<Expr>, ParseError>
    ensures { Carries same same operand result (λ e. Ok (expr place (Syntax.Has e (word_at source.now field)))) }
{
    let operand = operand?;
    let field = word(alloc, source, field)?;
    at(alloc, place, Syntax::Has(operand, field))
}

// A call that is no macro, of what is expanded already.
fn called(
    alloc: Global,
    source: &str,
    place: usize,
    items: Result<Items<Expr>, ParseError>,
) -> Result<Boxed<Expr>, ParseError>
    ensures { Carries same same items result (λ es. Ok (expr place (Syntax.Call (word_at source.now place) es))) }
{
    let items = items?;
    let name = word(alloc, source, place)?;
    at(alloc, place, Syntax::Call(name, items))
}

// A method that is no macro, of what is expanded already.
fn method_called(
    alloc: Global,
    source: &str,
    place: usize,
    operand: Boxed<Expr>,
    items: Result<Items<Expr>, ParseError>,
) -> Result<Boxed<Expr>, ParseError>
    ensures { Carries same same items result (λ es. Ok (expr place (Syntax.Method operand (word_at source.now place) es))) }
{
    let items = items?;
    let name = word(alloc, source, place)?;
    at(alloc, place, Syntax::Method(operand, name, items))
}

// This function and the ones like it are cut for the prover: each takes the result of a call and hands a fault on, so that the cycle
// that calls it has no `?`, at which the proof would go through every form that is dropped there.
fn signed(
    alloc: Global,
    place: usize,
    operator: UnaryOperator,
    operand: Result<Boxed<Expr>, ParseError>,
) -> Result<Boxed<Expr>, ParseError>
    ensures { Carries same same operand result (λ x. Ok (expr place (Syntax.Unary operator x))) }
{
    at(alloc, place, Syntax::Unary(operator, operand?))
}

fn indexed(
    alloc: Global,
    place: usize,
    operand: Boxed<Expr>,
    item: Result<Boxed<Expr>, ParseError>,
) -> Result<Boxed<Expr>, ParseError>
    ensures { Carries same same item result (λ y. Ok (expr place (Syntax.Index operand y))) }
{
    let item = item?;
    at(alloc, place, Syntax::Index(operand, item))
}

fn joined(
    alloc: Global,
    place: usize,
    joint: Joint,
    left: Boxed<Expr>,
    right: Result<Boxed<Expr>, ParseError>,
) -> Result<Boxed<Expr>, ParseError>
    ensures { Carries same same right result (λ y. Ok (expr place (form_of joint left y))) }
{
    let right = right?;
    at(alloc, place, form(joint, left, right))
}

fn conditional(
    alloc: Global,
    place: usize,
    test: Boxed<Expr>,
    yes: Boxed<Expr>,
    no: Result<Boxed<Expr>, ParseError>,
) -> Result<Boxed<Expr>, ParseError>
    ensures { Carries same same no result (λ z. Ok (expr place (Syntax.Conditional test yes z))) }
{
    let no = no?;
    at(alloc, place, Syntax::Conditional(test, yes, no))
}

fn listed(
    alloc: Global,
    place: usize,
    items: Result<Items<Expr>, ParseError>,
) -> Result<Boxed<Expr>, ParseError>
    ensures { Carries same same items result (λ es. Ok (expr place (Syntax.List es))) }
{
    at(alloc, place, Syntax::List(items?))
}

fn mapped(
    alloc: Global,
    place: usize,
    entries: Result<Items<Entry<Expr>>, ParseError>,
) -> Result<Boxed<Expr>, ParseError>
    ensures { Carries same same entries result (λ es. Ok (expr place (Syntax.Map es))) }
{
    at(alloc, place, Syntax::Map(entries?))
}

// A loop over what is expanded already.
fn looped(
    alloc: Global,
    source: &str,
    place: usize,
    kind: Loop,
    name: usize,
    range: Boxed<Expr>,
    body: Result<Boxed<Expr>, ParseError>,
) -> Result<Boxed<Expr>, ParseError>
    ensures { Carries same same body result (λ p. Ok (expr place (Syntax.Loop kind range (word_at source.now name) p))) }
{
    let body = body?;
    let name = word(alloc, source, name)?;
    at(alloc, place, Syntax::Loop(kind, range, name, body))
}

// A loop with a predicate and a transform.
fn map_where(
    alloc: Global,
    source: &str,
    place: usize,
    name: usize,
    range: Boxed<Expr>,
    predicate: Boxed<Expr>,
    transform: Result<Boxed<Expr>, ParseError>,
) -> Result<Boxed<Expr>, ParseError>
    ensures { Carries same same transform result (λ t. Ok (expr place (Syntax.MapWhere range (word_at source.now name) predicate t))) }
{
    let transform = transform?;
    let name = word(alloc, source, name)?;
    at(
        alloc,
        place,
        Syntax::MapWhere(range, name, predicate, transform),
    )
}

fn name_of(tree: &Tree) -> Option<usize>
    ensures { (source : List ℕ) → result ≡ name_in (expansion source tree.now).role }
{
    match tree {
        Tree::Name { place } => Some(*place),
        _ => None,
    }
}

// The place of a loop's variable, if the arguments suit the loop.
fn loop_name(kind: Loop, arguments: &[Tree]) -> Option<usize>
    ensures { (source : List ℕ) → result ≡ loop_name kind (expansions source arguments.now) }
{
    match arguments {
        [name, _] => name_of(name),
        [name, _, _] if kind == Loop::Map => name_of(name),
        _ => None,
    }
}

#[cycle(expansion)]
fn each(alloc: Global, source: &str, trees: &[Tree]) -> Result<Items<Expr>, ParseError>
    ensures { Gives same result (each (expansions source.now trees.now)) }
{
    let mut items = Items::new(alloc);
    for tree in trees {
        let item = expand(alloc, source, tree)?;
        items.push(item.into_inner())?;
    }
    Ok(items)
}

#[cycle(expansion)]
fn each_entry(
    alloc: Global,
    source: &str,
    entries: &[Entry<Tree>],
) -> Result<Items<Entry<Expr>>, ParseError>
    ensures { Gives same result (each_entry (entry_expansions source.now entries.now)) }
{
    let mut items = Items::new(alloc);
    for entry in entries {
        let key = expand(alloc, source, &entry.key)?;
        let value = expand(alloc, source, &entry.value)?;
        items.push(Entry {
            key: key.into_inner(),
            value: value.into_inner(),
        })?;
    }
    Ok(items)
}

// A call that is no macro.
#[cycle(expansion)]
fn plain_call(
    alloc: Global,
    source: &str,
    place: usize,
    arguments: &[Tree],
) -> Result<Boxed<Expr>, ParseError>
    ensures { Gives same result (plain_call source.now place (expansions source.now arguments.now)) }
{
    let items = each(alloc, source, arguments);
    called(alloc, source, place, items)
}

// A call of `has`: the test for a field, if its argument selects one.
#[cycle(expansion)]
fn test(
    alloc: Global,
    source: &str,
    place: usize,
    arguments: &[Tree],
) -> Result<Boxed<Expr>, ParseError>
    ensures { Gives same result (has_of source.now place (expansions source.now arguments.now)) }
{
    let [only] = arguments else {
        return plain_call(alloc, source, place, arguments);
    };
    let Tree::Select {
        place: field,
        operand,
    } = only
    else {
        return plain_call(alloc, source, place, arguments);
    };
    let operand = expand(alloc, source, operand.get());
    has(alloc, source, place, *field, operand)
}

#[cycle(expansion)]
fn call(
    alloc: Global,
    source: &str,
    place: usize,
    arguments: &[Tree],
) -> Result<Boxed<Expr>, ParseError>
    ensures { Gives same result (call_of source.now place (expansions source.now arguments.now)) }
{
    if is_has(source, place) {
        return test(alloc, source, place, arguments);
    }
    plain_call(alloc, source, place, arguments)
}

// A method that is no macro, of what is expanded already.
#[cycle(expansion)]
fn plain_method(
    alloc: Global,
    source: &str,
    place: usize,
    arguments: &[Tree],
    operand: Boxed<Expr>,
) -> Result<Boxed<Expr>, ParseError>
    ensures { Gives same result (plain_method source.now place (Ok operand) (expansions source.now arguments.now)) }
{
    let items = each(alloc, source, arguments);
    method_called(alloc, source, place, operand, items)
}

// A method with a loop's name, of what is expanded already: the loop, if the arguments suit it.
#[cycle(expansion)]
fn loop_on(
    alloc: Global,
    source: &str,
    place: usize,
    kind: Loop,
    arguments: &[Tree],
    range: Boxed<Expr>,
) -> Result<Boxed<Expr>, ParseError>
    ensures { Gives same result (loop_of_kind source.now place kind (Ok range) (expansions source.now arguments.now)) }
{
    let Some(name) = loop_name(kind, arguments) else {
        return plain_method(alloc, source, place, arguments, range);
    };
    match arguments {
        [_, body] => {
            let body = expand(alloc, source, body);
            looped(alloc, source, place, kind, name, range, body)
        }
        [_, predicate, transform] => {
            let predicate = expand(alloc, source, predicate)?;
            let transform = expand(alloc, source, transform);
            map_where(alloc, source, place, name, range, predicate, transform)
        }
        _ => plain_method(alloc, source, place, arguments, range),
    }
}

// A method of what is expanded already.
#[cycle(expansion)]
fn method(
    alloc: Global,
    source: &str,
    place: usize,
    arguments: &[Tree],
    operand: Boxed<Expr>,
) -> Result<Boxed<Expr>, ParseError>
    ensures { Gives same result (method_of source.now place (Ok operand) (expansions source.now arguments.now)) }
{
    match loop_at(source, place) {
        Some(kind) => loop_on(alloc, source, place, kind, arguments, operand),
        None => plain_method(alloc, source, place, arguments, operand),
    }
}

/// The expression of a tree, unless a number in it is out of range.
#[cycle(expansion)]
pub fn expand(alloc: Global, source: &str, tree: &Tree) -> Result<Boxed<Expr>, ParseError>
    ensures { Gives same result (expanded source.now tree.now) }
{
    match tree {
        Tree::Null { place } => at(alloc, *place, Syntax::Null),
        Tree::Truth { place, value } => at(alloc, *place, Syntax::Bool(*value)),
        Tree::Number {
            place,
            is_negative,
            magnitude,
        } => number(alloc, *place, *is_negative, *magnitude),
        Tree::Unsigned { place, value } => at(alloc, *place, Syntax::Uint(*value)),
        Tree::Text { place, value } => text(alloc, *place, value),
        Tree::Name { place } => named(alloc, source, *place),
        Tree::Call { place, arguments } => call(alloc, source, *place, arguments.as_slice()),
        Tree::Select { place, operand } => {
            let operand = expand(alloc, source, operand.get());
            select(alloc, source, *place, operand)
        }
        Tree::Method {
            place,
            operand,
            arguments,
        } => {
            let operand = expand(alloc, source, operand.get())?;
            method(alloc, source, *place, arguments.as_slice(), operand)
        }
        Tree::Index {
            place,
            operand,
            index,
        } => {
            let operand = expand(alloc, source, operand.get())?;
            let item = expand(alloc, source, index.get());
            indexed(alloc, *place, operand, item)
        }
        Tree::List { place, items } => {
            let items = each(alloc, source, items.as_slice());
            listed(alloc, *place, items)
        }
        Tree::Map { place, entries } => {
            let entries = each_entry(alloc, source, entries.as_slice());
            mapped(alloc, *place, entries)
        }
        Tree::Unary {
            place,
            operator,
            operand,
        } => {
            let operand = expand(alloc, source, operand.get());
            signed(alloc, *place, *operator, operand)
        }
        Tree::Binary {
            place,
            joint,
            left,
            right,
        } => {
            let left = expand(alloc, source, left.get())?;
            let right = expand(alloc, source, right.get());
            joined(alloc, *place, *joint, left, right)
        }
        Tree::Conditional {
            place,
            test,
            yes,
            no,
        } => {
            let test = expand(alloc, source, test.get())?;
            let yes = expand(alloc, source, yes.get())?;
            let no = expand(alloc, source, no.get());
            conditional(alloc, *place, test, yes, no)
        }
    }
}
