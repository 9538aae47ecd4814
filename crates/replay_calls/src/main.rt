//! Makes the calls on lines and on the replay of a stream that lines ask for, and prints what each answers: lines of a reader, streams
//! of events and reviews, and streams that break.
#![tactic(auto)]

mod broken;
mod lines;
mod streams;

use calls_notation::{Asked, json, quoted, unknown};
use std::alloc::{AllocError, Global};
use std::io;
use std::sync::Wait;
use std::thread::Threads;

fn main(rt: HostRuntime) -> io::Result<()> {
    let lines = io::read_to_string(rt.alloc(), rt.reader())?;
    for line in lines.lines() {
        let answer = answer(&rt, rt.alloc(), line)?;
        rt.println(answer)?;
    }
    Ok(())
}

fn answer<R: Threads + Wait + Sync>(
    rt: &R,
    alloc: Global,
    line: &str,
) -> Result<String, AllocError> {
    let line = json(alloc, line)?;
    quoted(alloc, answer_to(rt, alloc, &Asked::of(&line))?)
}

fn answer_to<R: Threads + Wait + Sync>(
    rt: &R,
    alloc: Global,
    asked: &Asked,
) -> Result<String, AllocError> {
    match asked.part {
        "broken" => broken::answer(rt, alloc, asked),
        "lines" => lines::answer(alloc, asked),
        "streams" => streams::answer(rt, alloc, asked),
        _ => unknown(alloc),
    }
}
