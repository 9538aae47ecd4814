//! Images: how they are shown, and how rows write them. An image is shown as the type of its outcome, the types of its slots,
//! its constants, its targets with their types, and its code.

use crate::expressions::made::{Wanted, verified};
use base_containers::Items;
use calls_notation::{json, put, put_type, put_types, type_of, types_of, unreadable};
use cel_check::TextOperator;
use cel_code::{Image, Instr, Target, loop_kind, loop_number};
use cel_value::{CelType, Loop, Value};
use serde_json::Value as Json;
use std::alloc::{AllocError, Global};
use vap_match::{items_in, items_of};

/// An image.
pub fn shown(alloc: Global, image: &Image) -> Result<String, AllocError> {
    let mut out = String::new(alloc);
    write_image(&mut out, image)?;
    Ok(out)
}

fn write_types(out: &mut String, types: &[CelType]) -> Result<(), AllocError> {
    for cel_type in types {
        out.push_str(" ")?;
        put_type(out, cel_type)?;
    }
    Ok(())
}

fn write_constants(out: &mut String, constants: &[Value]) -> Result<(), AllocError> {
    for constant in constants {
        out.push_str(" ")?;
        put(out, constant)?;
    }
    Ok(())
}

fn write_targets(out: &mut String, targets: &[Target]) -> Result<(), AllocError> {
    for target in targets {
        write!(out, " {}:", target.at)?;
        write_types(out, target.types.as_slice())?;
        out.push_str(";")?;
    }
    Ok(())
}

fn write_code(out: &mut String, code: &[Instr]) -> Result<(), AllocError> {
    for instr in code {
        out.push_str(" ")?;
        put_instr(out, *instr)?;
        out.push_str(";")?;
    }
    Ok(())
}

fn write_image(out: &mut String, image: &Image) -> Result<(), AllocError> {
    put_type(out, &image.result)?;
    out.push_str(" | slots")?;
    write_types(out, image.slots.as_slice())?;
    out.push_str(" | constants")?;
    write_constants(out, image.constants.as_slice())?;
    out.push_str(" | targets")?;
    write_targets(out, image.targets.as_slice())?;
    out.push_str(" | code")?;
    write_code(out, image.code.as_slice())
}

fn put_instr(out: &mut String, instr: Instr) -> Result<(), AllocError> {
    out.push_str(word_of(instr))?;
    match instr {
        Instr::Cond(if_false, if_error) => write!(out, "{if_false} {if_error}"),
        Instr::And | Instr::Or | Instr::Item | Instr::When | Instr::Next | Instr::End => Ok(()),
        Instr::Const(number)
        | Instr::Op(number)
        | Instr::Slot(number)
        | Instr::Local(number)
        | Instr::WithText(_, number)
        | Instr::List(number)
        | Instr::Map(number)
        | Instr::AndTest(number)
        | Instr::OrTest(number)
        | Instr::Jump(number)
        | Instr::Loop(_, number) => write!(out, "{number}"),
    }
}

/// What an instruction is called, and a space after it if numbers follow.
fn word_of(instr: Instr) -> &'static str {
    match instr {
        Instr::Const(_) => "const ",
        Instr::Op(_) => "op ",
        Instr::Slot(_) => "slot ",
        Instr::Local(_) => "local ",
        Instr::WithText(TextOperator::Select, _) => "select ",
        Instr::WithText(TextOperator::Has, _) => "has ",
        Instr::WithText(TextOperator::Matches, _) => "matches ",
        Instr::List(_) => "list ",
        Instr::Map(_) => "map ",
        Instr::AndTest(_) => "and_test ",
        Instr::OrTest(_) => "or_test ",
        Instr::And => "and",
        Instr::Or => "or",
        Instr::Cond(_, _) => "cond ",
        Instr::Jump(_) => "jump ",
        Instr::Loop(number, _) => loop_word(loop_kind(number)),
        Instr::Item => "item",
        Instr::When => "when",
        Instr::Next => "next",
        Instr::End => "end",
    }
}

fn loop_word(kind: Option<Loop>) -> &'static str {
    match kind {
        Some(Loop::All) => "loop all ",
        Some(Loop::Exists) => "loop exists ",
        Some(Loop::ExistsOne) => "loop exists_one ",
        Some(Loop::Filter) => "loop filter ",
        Some(Loop::Map) => "loop map ",
        None => "loop of no kind ",
    }
}

/// What a run of the image that a row writes results in, or the verifier's fault. The row has the type of the outcome as `result`, the
/// types of the `slots`, the `constants`, among which a text is an unsigned number, the `targets`, each its place and its
/// types, and the `code`; what is `declared`, if anything; and what slots have `held`, as names are written.
pub fn run(alloc: Global, row: &str) -> Result<String, AllocError> {
    let row = json(alloc, row)?;
    match row.get("result") {
        Some(ended) => run_to(alloc, ended, &row),
        None => unreadable(alloc),
    }
}

fn run_to(alloc: Global, ended: &Json, row: &Json) -> Result<String, AllocError> {
    let ended = type_of(alloc, ended)?;
    let mut image = Image {
        slots: Items::new(alloc),
        constants: Items::new(alloc),
        targets: Items::new(alloc),
        result: ended,
        declared: None,
        code: Items::new(alloc),
    };
    match put_image(alloc, &mut image, row) {
        Ok(()) => {
            let image = declaring(image, row.get("declared"));
            verified(alloc, Wanted::Runs(1), image, items_in(row, "held"))
        }
        Err(error) => Err(error),
    }
}

/// The image, with the number that a row declares, if it declares one.
fn declaring(image: Image, most: Option<&Json>) -> Image {
    match most {
        Some(most) => image.declare(most.as_u64().unwrap_or(0)),
        None => image,
    }
}

fn put_image(alloc: Global, image: &mut Image, row: &Json) -> Result<(), AllocError> {
    put_types(alloc, &mut image.slots, items_in(row, "slots"))?;
    put_constants(&mut image.constants, items_in(row, "constants"))?;
    put_targets(alloc, &mut image.targets, items_in(row, "targets"))?;
    put_code(&mut image.code, items_in(row, "code"))
}

fn put_constants(constants: &mut Items<Value>, row: &[Json]) -> Result<(), AllocError> {
    for json in row {
        constants.push(constant(json))?;
    }
    Ok(())
}

fn constant(json: &Json) -> Value {
    match json {
        Json::Bool(truth) => Value::Bool(*truth),
        Json::Number(_) => Value::Int(json.as_i64().unwrap_or(0)),
        Json::String(text) => Value::Uint(natural(text.as_str())),
        _ => Value::Null,
    }
}

fn natural(text: &str) -> u64 {
    text.strip_suffix('u')
        .unwrap_or("")
        .parse::<u64>()
        .unwrap_or(0)
}

fn put_targets(alloc: Global, targets: &mut Items<Target>, row: &[Json]) -> Result<(), AllocError> {
    for json in row {
        if let [at, types @ ..] = items_of(json) {
            targets.push(target(alloc, at, types)?)?;
        }
    }
    Ok(())
}

fn target(alloc: Global, at: &Json, row: &[Json]) -> Result<Target, AllocError> {
    let at = at.as_u64().unwrap_or(0) as usize;
    let types = types_of(alloc, row)?;
    Ok(Target { at, types })
}

fn put_code(code: &mut Items<Instr>, row: &[Json]) -> Result<(), AllocError> {
    for json in row {
        code.push(instr(json.as_str().unwrap_or("")))?;
    }
    Ok(())
}

fn number(text: &str) -> usize {
    text.parse::<usize>().unwrap_or(0)
}

/// The instruction that is written, and `end` for what is none.
fn instr(text: &str) -> Instr {
    let (word, rest) = text.split_once(' ').unwrap_or((text, ""));
    match word {
        "const" => Instr::Const(number(rest)),
        "op" => Instr::Op(number(rest)),
        "slot" => Instr::Slot(number(rest)),
        "local" => Instr::Local(number(rest)),
        "select" => Instr::WithText(TextOperator::Select, number(rest)),
        "list" => Instr::List(number(rest)),
        "map" => Instr::Map(number(rest)),
        "and_test" => Instr::AndTest(number(rest)),
        "or_test" => Instr::OrTest(number(rest)),
        "and" => Instr::And,
        "or" => Instr::Or,
        "cond" => conditional(rest),
        "jump" => Instr::Jump(number(rest)),
        "all" => Instr::Loop(loop_number(Loop::All), number(rest)),
        "item" => Instr::Item,
        "when" => Instr::When,
        "next" => Instr::Next,
        _ => Instr::End,
    }
}

fn conditional(places: &str) -> Instr {
    let (if_false, if_error) = places.split_once(' ').unwrap_or(("", ""));
    Instr::Cond(number(if_false), number(if_error))
}
