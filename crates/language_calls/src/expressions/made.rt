//! What is made of the texts of expressions: types, estimates, images, bounds and runs.

use crate::basics::patterns;
use crate::expressions::{images, runs};
use base_containers::{Boxed, Keyed, Text};
use calls_notation::{Asked, json, type_of, unknown, unreadable};
use cel_check::{CheckError, Scope, Typed, check, check_with};
use cel_code::Image;
use cel_estimate::estimate;
use cel_expression::compile;
use cel_lex::{one_answer, text_closing, text_meaning};
use cel_operators::Patterns;
use cel_parse::{ParseError, one_expression, parse};
use cel_value::{Expr, Syntax, UnaryOperator, join_rules};
use cel_verify::{Program, VerifyError, verify};
use serde_json::Value as Json;
use std::alloc::{AllocError, Global};
use vap_cli::one_outcome;
use vap_match::items_of;

/// What is made of an expression.
#[derive(Clone, Copy)]
pub enum Wanted {
    Type,
    Estimate,
    Image,
    Bounds,
    Runs(usize),
}

/// The answer to a call of expressions.
pub fn answer(alloc: Global, asked: &Asked) -> Result<String, AllocError> {
    match asked.call {
        "estimate" => named(alloc, Wanted::Estimate, asked.input),
        "image" => come_to(alloc, Wanted::Image, asked.input, &[]),
        "bounds" => come_to(alloc, Wanted::Bounds, asked.input, &[]),
        "named" => named(alloc, Wanted::Runs(1), asked.input),
        "read" => read(alloc, asked.number(0), asked.number(1), asked.input),
        "written" => images::run(alloc, asked.input),
        "negated" => negated(alloc, asked.input),
        "refused" => refused(alloc, asked.input),
        "laws" => laws(alloc),
        _ => unknown(alloc),
    }
}

/// What an expression results in, or its fault. A row writes the expression, and names, each with its type and the document
/// that its slot holds, or without one. If two slots have one name, the first counts.
fn named(alloc: Global, wanted: Wanted, row: &str) -> Result<String, AllocError> {
    let row = json(alloc, row)?;
    match items_of(&row) {
        [text, names @ ..] => come_to(alloc, wanted, word(text), names),
        [] => unreadable(alloc),
    }
}

fn word(json: &Json) -> &str {
    json.as_str().unwrap_or("")
}

fn come_to(
    alloc: Global,
    wanted: Wanted,
    text: &str,
    names: &[Json],
) -> Result<String, AllocError> {
    let mut scope = Scope::new(alloc);
    match put_names(alloc, &mut scope, names) {
        Ok(()) => parsed(alloc, wanted, text, &scope, names),
        Err(error) => Err(error),
    }
}

fn put_names(alloc: Global, scope: &mut Scope, names: &[Json]) -> Result<(), AllocError> {
    for name in names {
        if let [name, cel_type, ..] = items_of(name) {
            put_name(alloc, scope, word(name), cel_type)?;
        }
    }
    Ok(())
}

fn put_name(
    alloc: Global,
    scope: &mut Scope,
    name: &str,
    cel_type: &Json,
) -> Result<(), AllocError> {
    let key = Text::from_str(alloc, name)?;
    let value = type_of(alloc, cel_type)?;
    scope.names.push(Keyed { key, value })
}

fn parsed(
    alloc: Global,
    wanted: Wanted,
    text: &str,
    scope: &Scope,
    names: &[Json],
) -> Result<String, AllocError> {
    made_of_parsed(alloc, wanted, &parse(alloc, text), scope, names)
}

fn made_of_parsed(
    alloc: Global,
    wanted: Wanted,
    parsed: &Result<Expr, ParseError>,
    scope: &Scope,
    names: &[Json],
) -> Result<String, AllocError> {
    match parsed {
        Ok(expr) => checked(alloc, wanted, expr, scope, names),
        Err(ParseError::Fault(_)) => unreadable(alloc),
        Err(ParseError::OutOfMemory) => Err(AllocError),
    }
}

fn checked(
    alloc: Global,
    wanted: Wanted,
    expr: &Expr,
    scope: &Scope,
    names: &[Json],
) -> Result<String, AllocError> {
    match &check(alloc, expr, scope) {
        Ok(typed) => made_of(alloc, wanted, typed, names),
        Err(CheckError::OutOfMemory) => Err(AllocError),
        Err(error) => format!(in alloc; "{error}"),
    }
}

fn made_of(
    alloc: Global,
    wanted: Wanted,
    typed: &Typed,
    names: &[Json],
) -> Result<String, AllocError> {
    match wanted {
        Wanted::Type => String::from_str(alloc, "typed"),
        Wanted::Estimate => estimated(alloc, typed),
        Wanted::Image => images::shown(alloc, &compile(alloc, typed)?),
        Wanted::Bounds | Wanted::Runs(_) => verified(alloc, wanted, compile(alloc, typed)?, names),
    }
}

fn estimated(alloc: Global, typed: &Typed) -> Result<String, AllocError> {
    match estimate(typed) {
        Ok(most) => format!(in alloc; "{most}"),
        Err(error) => format!(in alloc; "too dear: {}", error.estimate),
    }
}

/// What is made of an image's program. If the image is refused: the verifier's fault, and the number of instructions of the
/// image that comes back.
pub fn verified(
    alloc: Global,
    wanted: Wanted,
    image: Image,
    names: &[Json],
) -> Result<String, AllocError> {
    made_of_verified(alloc, wanted, &verify(alloc, image), names)
}

fn made_of_verified(
    alloc: Global,
    wanted: Wanted,
    verified: &Result<Program, (VerifyError, Image)>,
    names: &[Json],
) -> Result<String, AllocError> {
    match verified {
        Ok(program) => made_of_program(alloc, wanted, program, names),
        Err((VerifyError::OutOfMemory, _)) => Err(AllocError),
        Err((error, back)) => format!(in alloc; "{error} of {}", back.code.len()),
    }
}

fn made_of_program(
    alloc: Global,
    wanted: Wanted,
    program: &Program,
    names: &[Json],
) -> Result<String, AllocError> {
    match wanted {
        Wanted::Runs(runs) => runs::last_of(alloc, program, names, runs),
        _ => format!(in alloc;
            "cost {}, steps {}, operands {}, loops {}",
            program.cost_bound(),
            program.step_bound(),
            program.max_depth(),
            program.loop_depth()
        ),
    }
}

/// One text of a list, before others.
const TEXT: &str = "\"a text of a list that no run of an expression copies\",";

/// The type of a list of such texts.
const LIST: &str = "[\"list\",200,60]";

/// A list in a list, in a map, in an object and in an object's object, each of one text more than so many.
fn names_of(alloc: Global, texts: usize) -> Result<String, AllocError> {
    let list = TEXT.repeat(alloc, texts)?;
    format!(in alloc;
        "[[\"l\",[\"list\",1,{LIST}],[[{list}\"a\"]]],\
         [\"m\",[\"map\",1,1,{LIST}],{{\"k\":[{list}\"a\"]}}],\
         [\"o\",{{\"f\":{LIST}}},{{\"f\":[{list}\"a\"]}}],\
         [\"object\",{{\"spec\":{{\"items\":{LIST}}}}},{{\"spec\":{{\"items\":[{list}\"a\"]}}}}]]"
    )
}

/// What the last of so many runs of an expression results in, if slots hold so many texts and one.
fn read(alloc: Global, texts: u64, runs: u64, text: &str) -> Result<String, AllocError> {
    let names = names_of(alloc, texts as usize)?;
    let names = json(alloc, names.as_str())?;
    come_to(alloc, Wanted::Runs(runs as usize), text, items_of(&names))
}

/// The type of `true` after so many `!`, which may be more than a text has.
fn negated(alloc: Global, times: &str) -> Result<String, AllocError> {
    let expr = tree_of(alloc, times.parse::<u32>().unwrap_or(0))?;
    checked(alloc, Wanted::Type, expr.get(), &Scope::new(alloc), &[])
}

fn tree_of(alloc: Global, times: u32) -> Result<Boxed<Expr>, AllocError> {
    let leaf = Expr {
        place: 0,
        form: Syntax::Bool(true),
    };
    let mut expr = Boxed::new(alloc, leaf)?;
    for _ in 0..times {
        let negation = Expr {
            place: 7,
            form: Syntax::Unary(UnaryOperator::Not, expr),
        };
        expr = Boxed::new(alloc, negation)?;
    }
    Ok(expr)
}

/// The patterns that are refused when the expressions of a row, one a line, are typed one after another.
fn refused(alloc: Global, row: &str) -> Result<String, AllocError> {
    let mut patterns = Patterns::new(alloc);
    match check_lines(alloc, row, &mut patterns) {
        Ok(()) => patterns::shown(alloc, &patterns),
        Err(error) => Err(error),
    }
}

fn check_lines(alloc: Global, row: &str, patterns: &mut Patterns) -> Result<(), AllocError> {
    for text in row.split('\n') {
        check_parsed(alloc, &parse(alloc, text), patterns)?;
    }
    Ok(())
}

fn check_parsed(
    alloc: Global,
    parsed: &Result<Expr, ParseError>,
    patterns: &mut Patterns,
) -> Result<(), AllocError> {
    match parsed {
        Ok(expr) => check_one(alloc, expr, patterns),
        Err(ParseError::Fault(_)) => Ok(()),
        Err(ParseError::OutOfMemory) => Err(AllocError),
    }
}

fn check_one(alloc: Global, expr: &Expr, patterns: &mut Patterns) -> Result<(), AllocError> {
    match &check_with(alloc, expr, &Scope::new(alloc), patterns) {
        Ok(_) | Err(CheckError::Fault(_)) => Ok(()),
        Err(CheckError::OutOfMemory) => Err(AllocError),
    }
}

/// The laws of joins, tokens, texts, trees and outcomes. No line can say more of them than that they are there.
fn laws(alloc: Global) -> Result<String, AllocError> {
    join_rules();
    one_answer();
    text_meaning();
    text_closing();
    one_expression();
    one_outcome();
    String::from_str(alloc, "kept")
}
