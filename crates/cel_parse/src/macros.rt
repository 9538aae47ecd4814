//! Calls of macros whose arguments are wrong.

ghost use Rattle.std.specs.Prelude.{◌≡◌, ℕ, List, map, not, ◌&&◌};
ghost use Rattle.cel_parse.specs.Macros.{loop_of, lesser, mark, marks, least, least_entry};
ghost use Rattle.cel_parse.specs.Macros.{wrong_if, suits_has, suits_loop, wrong_method, first_wrong};
ghost use Rattle.cel_parse.specs.Words.{is_has, word_at};

use crate::tree::Tree;
use crate::word::{is_has, word_at};
use cel_value::{Entry, Loop};

/// The loop that the word at a place is the macro of, if there is one.
#[tactic(auto, unfolding(crate::specs::Macros::loop_of))]
pub fn loop_at(text: &str, place: usize) -> Option<Loop>
    ensures { result ≡ loop_of (word_at text.now place) }
{
    let word = word_at(text, place).as_bytes();
    if word == b"all".as_slice() {
        Some(Loop::All)
    } else if word == b"exists".as_slice() {
        Some(Loop::Exists)
    } else if word == b"exists_one".as_slice() {
        Some(Loop::ExistsOne)
    } else if word == b"filter".as_slice() {
        Some(Loop::Filter)
    } else if word == b"map".as_slice() {
        Some(Loop::Map)
    } else {
        None
    }
}

/// What a macro needs to know about an argument.
#[derive(Clone, Copy, PartialEq, Eq)]
pub enum Shape {
    Name,
    Select,
    Other,
}

fn shape_of(tree: &Tree) -> Shape
    ensures { (source : List ℕ) → result ≡ (mark source tree.now).shape }
{
    match tree {
        Tree::Name { .. } => Shape::Name,
        Tree::Select { .. } => Shape::Select,
        _ => Shape::Other,
    }
}

// The lesser place, of those that there are.
fn lesser(a: Option<usize>, b: Option<usize>) -> Option<usize>
    ensures { result ≡ lesser a b }
{
    match (a, b) {
        (Some(x), Some(y)) => Some(x.min(y)),
        (Some(x), None) => Some(x),
        (None, y) => y,
    }
}

fn suits_has(arguments: &[Tree]) -> bool
    ensures { (source : List ℕ) → result ≡ suits_has (map (mark source) arguments.now) }
{
    match arguments {
        [only] => shape_of(only) == Shape::Select,
        _ => false,
    }
}

fn suits_loop(kind: Loop, arguments: &[Tree]) -> bool
    ensures { (source : List ℕ) → result ≡ suits_loop kind (map (mark source) arguments.now) }
{
    match arguments {
        [name, _] => shape_of(name) == Shape::Name,
        [name, _, _] => kind == Loop::Map && shape_of(name) == Shape::Name,
        _ => false,
    }
}

// The place of a call of `has`, if its arguments are wrong.
fn wrong_call(source: &str, place: usize, arguments: &[Tree]) -> Option<usize>
    ensures { result ≡ wrong_if (is_has source.now place && not (suits_has (map (mark source.now) arguments.now))) place }
{
    if is_has(source, place) && !suits_has(arguments) {
        Some(place)
    } else {
        None
    }
}

// The place of a loop, if its arguments are wrong.
fn wrong_method(source: &str, place: usize, arguments: &[Tree]) -> Option<usize>
    ensures { result ≡ wrong_method (loop_of (word_at source.now place)) place (map (mark source.now) arguments.now) }
{
    match loop_at(source, place) {
        Some(kind) if !suits_loop(kind, arguments) => Some(place),
        _ => None,
    }
}

// The least place in several trees.
#[cycle(wrong)]
fn first_wrong_in(source: &str, trees: &[Tree]) -> Option<usize>
    ensures { result ≡ least (map (mark source.now) trees.now) }
{
    let mut found = None;
    for tree in trees {
        found = lesser(found, first_wrong(source, tree));
    }
    found
}

// The least place in the keys and values.
#[cycle(wrong)]
fn first_wrong_entry(source: &str, entries: &[Entry<Tree>]) -> Option<usize>
    ensures { result ≡ least_entry (marks source.now entries.now) }
{
    let mut found = None;
    for entry in entries {
        let key = first_wrong(source, &entry.key);
        let value = first_wrong(source, &entry.value);
        found = lesser(found, lesser(key, value));
    }
    found
}

/// The least place of a macro in a tree whose arguments are wrong.
#[cycle(wrong)]
pub fn first_wrong(source: &str, tree: &Tree) -> Option<usize>
    ensures { result ≡ first_wrong source.now tree.now }
{
    match tree {
        Tree::Null { .. }
        | Tree::Truth { .. }
        | Tree::Number { .. }
        | Tree::Unsigned { .. }
        | Tree::Text { .. }
        | Tree::Name { .. } => None,
        Tree::Call { place, arguments } => {
            let arguments = arguments.as_slice();
            lesser(
                wrong_call(source, *place, arguments),
                first_wrong_in(source, arguments),
            )
        }
        Tree::Select { operand, .. } | Tree::Unary { operand, .. } => {
            first_wrong(source, operand.get())
        }
        Tree::Method {
            place,
            operand,
            arguments,
        } => {
            let arguments = arguments.as_slice();
            let inside = lesser(
                first_wrong(source, operand.get()),
                first_wrong_in(source, arguments),
            );
            lesser(wrong_method(source, *place, arguments), inside)
        }
        Tree::Index { operand, index, .. } => lesser(
            first_wrong(source, operand.get()),
            first_wrong(source, index.get()),
        ),
        Tree::List { items, .. } => first_wrong_in(source, items.as_slice()),
        Tree::Map { entries, .. } => first_wrong_entry(source, entries.as_slice()),
        Tree::Binary { left, right, .. } => lesser(
            first_wrong(source, left.get()),
            first_wrong(source, right.get()),
        ),
        Tree::Conditional { test, yes, no, .. } => {
            let branches = lesser(
                first_wrong(source, yes.get()),
                first_wrong(source, no.get()),
            );
            lesser(first_wrong(source, test.get()), branches)
        }
    }
}
