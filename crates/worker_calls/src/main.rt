//! Makes the calls on a writer and its workers that lines ask for, and prints what each answers: what desks publish, sets after events,
//! histories, lists of steps, what readers see, and what workers do side by side.
#![tactic(auto)]

mod desks;
mod histories;
mod readers;
mod sets;
mod steps;
mod workers;

use calls_notation::{Asked, json, quoted, unknown};
use std::alloc::{AllocError, Global};
use std::io;
use std::sync::Wait;
use std::thread::Threads;
use std::time::Clock;

fn main(rt: HostRuntime) -> io::Result<()> {
    let lines = io::read_to_string(rt.alloc(), rt.reader())?;
    for line in lines.lines() {
        let answer = answer(&rt, rt.alloc(), line)?;
        rt.println(answer)?;
    }
    Ok(())
}

fn answer<R: Threads + Wait + Clock + Sync>(
    rt: &R,
    alloc: Global,
    line: &str,
) -> Result<String, AllocError> {
    let line = json(alloc, line)?;
    quoted(alloc, answer_to(rt, alloc, &Asked::of(&line))?)
}

fn answer_to<R: Threads + Wait + Clock + Sync>(
    rt: &R,
    alloc: Global,
    asked: &Asked,
) -> Result<String, AllocError> {
    match asked.part {
        "desks" => desks::answer(alloc, asked),
        "readers" => readers::answer(rt, alloc, asked),
        "sets" => sets::answer(alloc, asked),
        "histories" => histories::answer(alloc, asked),
        "steps" => steps::answer(alloc, asked),
        "workers" => workers::answer(rt, alloc, asked),
        _ => unknown(alloc),
    }
}
