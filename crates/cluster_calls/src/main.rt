//! Makes the calls on a cluster's objects that lines ask for, and prints what each answers: requests, selectors, rules, policies,
//! bindings, events, kinds, what names hold at a request, equality, and verdicts.
#![tactic(auto)]

mod held;
mod matching;
mod same;
mod verdicts;

use calls_notation::{Asked, json, quoted};
use std::alloc::{AllocError, Global};
use std::io;

fn main(rt: HostRuntime) -> io::Result<()> {
    let lines = io::read_to_string(rt.alloc(), rt.reader())?;
    for line in lines.lines() {
        let answer = answer(rt.alloc(), line)?;
        rt.println(answer)?;
    }
    Ok(())
}

fn answer(alloc: Global, line: &str) -> Result<String, AllocError> {
    let line = json(alloc, line)?;
    quoted(alloc, answer_to(alloc, &Asked::of(&line))?)
}

fn answer_to(alloc: Global, asked: &Asked) -> Result<String, AllocError> {
    match asked.part {
        "held" => held::answer(alloc, asked),
        "same" => same::answer(alloc, asked),
        "verdicts" => verdicts::answer(alloc, asked),
        _ => matching::answer(alloc, asked),
    }
}
