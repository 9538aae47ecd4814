//! Makes the calls of the language that lines ask for, and prints what each answers: containers, values, schemas, tokens, trees,
//! types, estimates, images and their bytes, programs, `eval` and `check`.
#![tactic(auto)]

mod basics;
mod expressions;

use calls_notation::{Asked, json, quoted, unknown};
use std::alloc::{AllocError, Global};
use std::io;

fn main(rt: HostRuntime) -> io::Result<()> {
    let lines = io::read_to_string(rt.alloc(), rt.reader())?;
    for line in lines.lines() {
        let answer = answer(rt.alloc(), line)?;
        rt.println(answer)?;
    }
    Ok(())
}

fn answer(alloc: Global, line: &str) -> Result<String, AllocError> {
    let line = json(alloc, line)?;
    quoted(alloc, answer_to(alloc, &Asked::of(&line))?)
}

fn answer_to(alloc: Global, asked: &Asked) -> Result<String, AllocError> {
    match asked.part {
        "containers" => basics::containers::answer(alloc, asked),
        "values" => basics::values::answer(alloc, asked),
        "schemas" => basics::schemas::answer(alloc, asked),
        "texts" => basics::texts::answer(alloc, asked),
        "tokens" => basics::tokens::answer(alloc, asked),
        "patterns" => basics::patterns::answer(alloc, asked),
        "names" => basics::names::answer(alloc, asked),
        "trees" => expressions::trees::answer(alloc, asked),
        "overloads" => expressions::overloads::answer(alloc, asked),
        "operands" => expressions::operands::answer(alloc, asked),
        "expressions" => expressions::made::answer(alloc, asked),
        "bytes" => expressions::bytes::answer(alloc, asked),
        "commands" => expressions::commands::answer(alloc, asked),
        _ => unknown(alloc),
    }
}
