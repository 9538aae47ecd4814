//! The program `vap`: what the words of its command line ask for, done by the commands of vap_cli,
//! vap_cli_replay and vap_cli_report.
//!
//! [`problem::Problem::status`] answers how the program ends if it prints no answer.
#![tactic(auto)]

ghost use Rattle.std.specs.Prelude.{◌≤◌};

mod meter;
mod problem;

use meter::Meter;
use problem::Problem;
use std::alloc::AllocError;
use std::io::{Input, IsTerminal, Read};
use std::process::ExitCode;
use std::rt::{Env, Files};
use std::sync::Wait;
use std::thread::Threads;
use std::time::Clock;
use std::{env, fs, io};
use vap_cli::{
    Counted, EvalError, Status, Task, asked, check_to, decode_to, encode_to, eval_to, kinds_to,
    note_of,
};
use vap_cli_replay::replay_with;
use vap_cli_report::{Output, report_to};

fn main(rt: HostRuntime) -> ExitCode {
    let is_watched = rt.stderr().is_terminal();
    ExitCode::from(run(&rt, is_watched).code())
}

fn run<R: Env + Files + Input + Clock + Print + Eprint + AllocGlobal + Threads + Wait + Sync>(
    rt: &R,
    is_watched: bool,
) -> Status {
    match obey(rt, is_watched) {
        Ok(status) => status,
        Err(problem) => tell(rt, &problem),
    }
}

/// Does what the words of the command line ask for.
fn obey<R: Env + Files + Input + Clock + Print + Eprint + AllocGlobal + Threads + Wait + Sync>(
    rt: &R,
    is_watched: bool,
) -> Result<Status, Problem> {
    let words = words(rt)?;
    match asked(rt.alloc(), words.as_slice())? {
        Task::Eval { text } => eval(rt, text),
        Task::Check { file } => check_file(rt, file),
        Task::Encode { text } => encode(rt, text),
        Task::Decode { file } => decode_file(rt, file),
        Task::Replay {
            file,
            workers,
            audit,
            summary,
        } => {
            let meter = Meter::new(rt, is_watched, summary);
            replay_file(rt, file, workers, audit, meter)
        }
        Task::Report { file, json: true } => report_file(rt, file, Output::Json),
        Task::Report { file, json: false } => report_file(rt, file, Output::Text),
        Task::Kinds { file } => kinds_file(rt, file),
    }
}

/// Prints what a file results in, or what standard input results in if the file is `-`.
fn check_file<R: Files + Input + Print + Eprint + AllocGlobal>(
    rt: &R,
    file: &str,
) -> Result<Status, Problem> {
    if file == "-" {
        return check(rt, rt.reader());
    }
    match fs::open(rt, file) {
        Ok(opened) => check(rt, opened),
        Err(error) => Err(Problem::not_opened(&error)),
    }
}

/// Prints what an expression results in, and what that means if it is an error or a refusal.
fn eval<R: Print + Eprint + AllocGlobal>(rt: &R, text: &str) -> Result<Status, Problem> {
    let mut out = Counted::new(io::writer(rt));
    let status = eval_to(rt.alloc(), text, &mut out)?;
    if status != Status::Done {
        explain(rt, note_of(rt.alloc(), text));
    }
    Ok(status)
}

/// Prints what a reader's bytes result in, and what that means if it is an error or a refusal.
fn check<R: Print + Eprint + AllocGlobal, F: Read + Drop>(
    rt: &R,
    file: F,
) -> Result<Status, Problem> {
    let mut file = Counted::new(file);
    let mut out = Counted::new(io::writer(rt));
    let ended = check_to(rt.alloc(), &mut file, &mut out)?;
    let status = ended.status;
    explain(rt, Ok(ended.note));
    Ok(status)
}

/// Writes the bytes of the image that an expression compiles to, and what it means if there are none.
fn encode<R: Print + Eprint + AllocGlobal>(rt: &R, text: &str) -> Result<Status, Problem> {
    let mut out = Counted::new(io::writer(rt));
    let status = encode_to(rt.alloc(), text, &mut out)?;
    if status != Status::Done {
        explain(rt, note_of(rt.alloc(), text));
    }
    Ok(status)
}

/// Prints what the image of a file holds, or of standard input if the file is `-`.
fn decode_file<R: Files + Input + Print + AllocGlobal>(
    rt: &R,
    file: &str,
) -> Result<Status, Problem> {
    if file == "-" {
        return decode(rt, rt.reader());
    }
    match fs::open(rt, file) {
        Ok(opened) => decode(rt, opened),
        Err(error) => Err(Problem::not_opened(&error)),
    }
}

/// Prints what the image of a reader's bytes holds.
fn decode<R: Print + AllocGlobal, F: Read + Drop>(rt: &R, file: F) -> Result<Status, Problem> {
    let mut file = Counted::new(file);
    let mut out = Counted::new(io::writer(rt));
    Ok(decode_to(rt.alloc(), &mut file, &mut out)?)
}

/// Prints which policies of a file are accepted, or of standard input if the file is `-`.
fn report_file<R: Files + Input + Print + Eprint + AllocGlobal>(
    rt: &R,
    file: &str,
    output: Output,
) -> Result<Status, Problem> {
    if file == "-" {
        return report(rt, rt.reader(), output);
    }
    match fs::open(rt, file) {
        Ok(opened) => report(rt, opened, output),
        Err(error) => Err(Problem::not_opened(&error)),
    }
}

/// Prints which policies of a reader's bytes are accepted, and what is wrong with the bytes if they are refused.
fn report<R: Print + Eprint + AllocGlobal, F: Read + Drop>(
    rt: &R,
    file: F,
    output: Output,
) -> Result<Status, Problem> {
    let mut file = Counted::new(file);
    let mut out = Counted::new(io::writer(rt));
    let ended = report_to(rt.alloc(), output, &mut file, &mut out)?;
    let status = ended.status;
    explain(rt, Ok(ended.note));
    Ok(status)
}

/// Prints the definitions of the kinds in a file's document, or in that of standard input if the file is `-`.
fn kinds_file<R: Files + Input + Print + Eprint + AllocGlobal>(
    rt: &R,
    file: &str,
) -> Result<Status, Problem> {
    if file == "-" {
        return kinds(rt, rt.reader());
    }
    match fs::open(rt, file) {
        Ok(opened) => kinds(rt, opened),
        Err(error) => Err(Problem::not_opened(&error)),
    }
}

/// Prints the definitions of the kinds in the document of a reader's bytes, and what is wrong with it if it is refused.
fn kinds<R: Print + Eprint + AllocGlobal, F: Read + Drop>(
    rt: &R,
    file: F,
) -> Result<Status, Problem> {
    let mut file = Counted::new(file);
    let mut out = Counted::new(io::writer(rt));
    let ended = kinds_to(rt.alloc(), &mut file, &mut out)?;
    let status = ended.status;
    explain(rt, Ok(ended.note));
    Ok(status)
}

/// Prints the answers to the reviews of a file, or of standard input if the file is `-`.
fn replay_file<R: Files + Input + Clock + Print + Eprint + AllocGlobal + Threads + Wait + Sync>(
    rt: &R,
    file: &str,
    workers: u8,
    audit: bool,
    meter: Meter<'_, R>,
) -> Result<Status, Problem>
    requires { (1 ≤ workers) × (workers ≤ 16) }
{
    if file == "-" {
        return replay_from(rt, rt.reader(), workers, audit, meter);
    }
    match fs::open(rt, file) {
        Ok(opened) => replay_from(rt, opened, workers, audit, meter),
        Err(error) => Err(Problem::not_opened(&error)),
    }
}

/// Prints the answers to the reviews of a stream; the meter reports how far it is.
fn replay_from<R: Clock + Print + Eprint + AllocGlobal + Threads + Wait + Sync, I: Read + Drop>(
    rt: &R,
    input: I,
    workers: u8,
    audit: bool,
    mut meter: Meter<'_, R>,
) -> Result<Status, Problem>
    requires { (1 ≤ workers) × (workers ≤ 16) }
{
    let mut input = Counted::new(input);
    let mut output = Counted::new(io::writer(rt));
    let replayed = replay_with(
        rt,
        rt.alloc(),
        &mut input,
        &mut output,
        workers,
        audit,
        &mut meter,
    );
    match replayed {
        Ok(()) => Ok(Status::Done),
        Err(error) => Err(Problem::Unreplayed(error)),
    }
}

/// Prints a note to standard error, if there is one. If that cannot be done, the status stays.
fn explain<R: Eprint>(rt: &R, note: Result<Option<String>, AllocError>) {
    if let Ok(Some(note)) = note {
        let _ = eprint!(rt; "{}", note.as_str());
    }
}

/// The words of the command line, the program's name first.
fn words<R: Env + AllocGlobal>(rt: &R) -> Result<Vec<String>, Problem> {
    Ok(env::args(rt)?.collect(rt.alloc())?)
}

/// Prints help, the version or what went wrong. If that cannot be written to standard error, the status stays.
fn tell<R: Print + Eprint>(rt: &R, problem: &Problem) -> Status {
    let status = problem.status();
    if problem.print(rt).is_ok() || status != Status::Done {
        return status;
    }
    let unwritten = Problem::Unanswered(EvalError::Write);
    let _ = unwritten.print(rt);
    unwritten.status()
}
