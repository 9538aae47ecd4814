//! The trees of texts. Each is written by hand from the grammar: a node as its label with its place, then the nodes
//! inside, each after a space and in brackets.

use calls_notation::{Asked, unknown, unreadable};
use cel_parse::{ParseError, parse};
use cel_value::{BinaryOperator, Entry, Expr, Loop, Syntax, UnaryOperator};
use std::alloc::{AllocError, Global};

/// The answer to a call of trees.
pub fn answer(alloc: Global, asked: &Asked) -> Result<String, AllocError> {
    match asked.call {
        "tree" => shown(alloc, asked.input),
        "depth" => deep(alloc, asked.input),
        _ => unknown(alloc),
    }
}

fn unary_of(operator: UnaryOperator) -> &'static str {
    match operator {
        UnaryOperator::Not => "!",
        UnaryOperator::Negate => "-",
    }
}

fn binary_of(operator: BinaryOperator) -> &'static str {
    match operator {
        BinaryOperator::Less => "<",
        BinaryOperator::AtMost => "<=",
        BinaryOperator::Greater => ">",
        BinaryOperator::AtLeast => ">=",
        BinaryOperator::Equal => "==",
        BinaryOperator::NotEqual => "!=",
        BinaryOperator::In => "in",
        BinaryOperator::Add => "+",
        BinaryOperator::Subtract => "-",
        BinaryOperator::Multiply => "*",
        BinaryOperator::Divide => "/",
        BinaryOperator::Remainder => "%",
    }
}

fn loop_of(kind: Loop) -> &'static str {
    match kind {
        Loop::All => "all ",
        Loop::Exists => "exists ",
        Loop::ExistsOne => "exists_one ",
        Loop::Filter => "filter ",
        Loop::Map => "map ",
    }
}

// What a node is, if it is no number.
fn front(form: &Syntax<Expr>) -> &'static str {
    match form {
        Syntax::Null => "null",
        Syntax::Bool(true) => "true",
        Syntax::Bool(false) => "false",
        Syntax::Text(_) => "text ",
        Syntax::Select(_, _) => ".",
        Syntax::Has(_, _) => "has ",
        Syntax::Call(_, _) => "call ",
        Syntax::Method(_, _, _) => "method ",
        Syntax::Index(_, _) => "index",
        Syntax::List(_) => "list",
        Syntax::Map(_) => "map",
        Syntax::Unary(operator, _) => unary_of(*operator),
        Syntax::Binary(operator, _, _) => binary_of(*operator),
        Syntax::And(_, _) => "&&",
        Syntax::Or(_, _) => "||",
        Syntax::Conditional(_, _, _) => "?",
        Syntax::Loop(kind, _, _, _) => loop_of(*kind),
        Syntax::MapWhere(_, _, _, _) => "map where ",
        Syntax::Name(_) | Syntax::Int(_) | Syntax::Uint(_) => "",
    }
}

// The text or the name in a node.
fn name(form: &Syntax<Expr>) -> &str {
    match form {
        Syntax::Text(name)
        | Syntax::Name(name)
        | Syntax::Select(_, name)
        | Syntax::Has(_, name)
        | Syntax::Call(name, _)
        | Syntax::Method(_, name, _)
        | Syntax::Loop(_, _, name, _)
        | Syntax::MapWhere(_, name, _, _) => name.as_str(),
        _ => "",
    }
}

// What a node is called, without what is inside.
fn write_label(out: &mut String, expr: &Expr) -> Result<(), AllocError> {
    let place = expr.place;
    match &expr.form {
        Syntax::Int(value) => write!(out, " ({value}@{place}"),
        Syntax::Uint(value) => write!(out, " ({value}u@{place}"),
        form => write!(out, " ({}{}@{place}", front(form), name(form)),
    }
}

#[cycle(shown)]
fn write_each(out: &mut String, items: &[Expr]) -> Result<(), AllocError> {
    for item in items {
        write_shown(out, item)?;
    }
    Ok(())
}

// Writes a node after what is before it, if that was written.
#[cycle(shown)]
fn write_behind(
    out: &mut String,
    front: Result<(), AllocError>,
    expr: &Expr,
) -> Result<(), AllocError> {
    front?;
    write_shown(out, expr)
}

#[cycle(shown)]
fn write_entries(out: &mut String, entries: &[Entry<Expr>]) -> Result<(), AllocError> {
    for entry in entries {
        let key = write_shown(out, &entry.key);
        write_behind(out, key, &entry.value)?;
    }
    Ok(())
}

#[cycle(shown)]
fn write_shown(out: &mut String, expr: &Expr) -> Result<(), AllocError> {
    write_label(out, expr)?;
    let inside = match &expr.form {
        Syntax::Null
        | Syntax::Bool(_)
        | Syntax::Int(_)
        | Syntax::Uint(_)
        | Syntax::Text(_)
        | Syntax::Name(_) => Ok(()),
        Syntax::Select(a, _) | Syntax::Has(a, _) | Syntax::Unary(_, a) => write_shown(out, a.get()),
        Syntax::Call(_, items) | Syntax::List(items) => write_each(out, items.as_slice()),
        Syntax::Method(a, _, items) => {
            write_shown(out, a.get())?;
            write_each(out, items.as_slice())
        }
        Syntax::Map(entries) => write_entries(out, entries.as_slice()),
        Syntax::Index(a, b)
        | Syntax::Binary(_, a, b)
        | Syntax::And(a, b)
        | Syntax::Or(a, b)
        | Syntax::Loop(_, a, _, b) => {
            let left = write_shown(out, a.get());
            write_behind(out, left, b.get())
        }
        Syntax::Conditional(a, b, c) | Syntax::MapWhere(a, _, b, c) => {
            let first = write_shown(out, a.get());
            let second = write_behind(out, first, b.get());
            write_behind(out, second, c.get())
        }
    };
    inside?;
    out.push_str(")")
}

fn tree(alloc: Global, expr: &Expr) -> Result<String, AllocError> {
    let mut out = String::new(alloc);
    write_shown(&mut out, expr)?;
    Ok(out)
}

/// The tree of a text.
fn shown(alloc: Global, text: &str) -> Result<String, AllocError> {
    shown_parsed(alloc, &parse(alloc, text))
}

fn shown_parsed(alloc: Global, parsed: &Result<Expr, ParseError>) -> Result<String, AllocError> {
    match parsed {
        Ok(expr) => tree(alloc, expr),
        Err(ParseError::Fault(_)) => unreadable(alloc),
        Err(ParseError::OutOfMemory) => Err(AllocError),
    }
}

// How many brackets of a shown tree are open at once, at most: a node has a pair of its own round those inside.
fn depth(shown: &str) -> usize {
    let mut open: usize = 0;
    let mut most: usize = 0;
    for byte in shown.as_bytes() {
        match *byte {
            b'(' => open = open.saturating_add(1),
            b')' => open = open.saturating_sub(1),
            _ => {}
        }
        most = most.max(open);
    }
    most
}

/// How deep the tree of a text is.
fn deep(alloc: Global, text: &str) -> Result<String, AllocError> {
    let tree = shown(alloc, text)?;
    format!(in alloc; "{}", depth(tree.as_str()))
}
