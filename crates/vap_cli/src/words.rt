//! What the words of a command line ask for.

ghost use Rattle.std.specs.Prelude.{IfOk, IfSome};
ghost use Rattle.vap_cli.specs.Task.{HasWorkersInRange};

use crate::mistake::Mistake;
use crate::notes::{
    CHECK_NOTES, DECODE_NOTES, ENCODE_NOTES, EVAL_NOTES, KINDS_NOTES, REPLAY_NOTES, REPORT_NOTES,
};
use clap::error::ErrorKind;
use clap::{Arg, ArgAction, ArgMatches, Command, value_parser};
use std::alloc::{AllocError, Global};

/// What the words ask for.
#[derive(Debug, Drop)]
pub enum Task<'a> {
    /// The value of an expression.
    Eval {
        text: &'a str,
    },
    /// What a file results in; `-` is standard input.
    Check {
        file: &'a str,
    },
    /// The bytes of the image that an expression compiles to.
    Encode {
        text: &'a str,
    },
    /// What the image of a file holds; `-` is standard input.
    Decode {
        file: &'a str,
    },
    /// The answers to the reviews of a file; `-` is standard input.
    Replay {
        file: &'a str,
        workers: u8,
        audit: bool,
        summary: bool,
    },
    /// Which policies of a file are accepted, as JSON or for people; `-` is standard input.
    Report {
        file: &'a str,
        json: bool,
    },
    /// The definitions of the kinds in the OpenAPI document of a file; `-` is standard input.
    Kinds {
        file: &'a str,
    },
}

/// What a report may be written as.
static OUTPUTS: [&str; 2] = ["text", "json"];

fn command<'a>(alloc: Global) -> Result<Command<'a>, AllocError> {
    let program = Command::new(alloc, "vap")
        .bin_name("vap")?
        .version("0.1.0")
        .about("An admission engine: ValidatingAdmissionPolicy with verified CEL")
        .subcommand_required(true)
        .arg_required_else_help(true);
    program
        .subcommand(eval(alloc)?)?
        .subcommand(check(alloc)?)?
        .subcommand(image(alloc)?)?
        .subcommand(replay(alloc)?)?
        .subcommand(report(alloc)?)?
        .subcommand(kinds(alloc)?)
}

fn eval<'a>(alloc: Global) -> Result<Command<'a>, AllocError> {
    let expression = Arg::new(alloc, "EXPR")
        .required(true)
        .help("A CEL expression of at most 16384 bytes");
    Command::new(alloc, "eval")
        .about("Evaluates a CEL expression and prints its value")
        .after_help(EVAL_NOTES)
        .arg(expression)
}

fn check<'a>(alloc: Global) -> Result<Command<'a>, AllocError> {
    let file = Arg::new(alloc, "FILE")
        .required(true)
        .help("A JSON file, or `-` for standard input");
    Command::new(alloc, "check")
        .about("Prints what a rule may charge, and what it answers for an object")
        .after_help(CHECK_NOTES)
        .arg(file)
}

fn image<'a>(alloc: Global) -> Result<Command<'a>, AllocError> {
    let image = Command::new(alloc, "image")
        .about("Writes what an expression compiles to, or prints what an image holds")
        .subcommand_required(true)
        .arg_required_else_help(true);
    image.subcommand(encode(alloc)?)?.subcommand(decode(alloc)?)
}

fn encode<'a>(alloc: Global) -> Result<Command<'a>, AllocError> {
    let expression = Arg::new(alloc, "EXPR")
        .required(true)
        .help("A CEL expression of at most 16384 bytes");
    Command::new(alloc, "encode")
        .about("Writes the bytes of the image that a CEL expression compiles to")
        .after_help(ENCODE_NOTES)
        .arg(expression)
}

fn decode<'a>(alloc: Global) -> Result<Command<'a>, AllocError> {
    let file = Arg::new(alloc, "FILE")
        .required(true)
        .help("The bytes of an image, or `-` for standard input");
    Command::new(alloc, "decode")
        .about("Verifies an image and prints what it holds, its bounds and what it evaluates to")
        .after_help(DECODE_NOTES)
        .arg(file)
}

fn replay<'a>(alloc: Global) -> Result<Command<'a>, AllocError> {
    let file = Arg::new(alloc, "FILE").required(true).help(
        "Lines of at most 1048576 bytes, or - for the standard input",
    );
    let workers = Arg::new(alloc, "workers")
        .long("workers")
        .value_name("N")
        .value_parser(value_parser!(u8).range(1..=16))
        .default_value("1")
        .help("How many workers judge side by side, from 1 to 16");
    let audit = Arg::new(alloc, "audit")
        .long("audit")
        .action(ArgAction::SetTrue)
        .help("Prints a line for each review at the end");
    let summary = Arg::new(alloc, "summary")
        .long("summary")
        .action(ArgAction::SetTrue)
        .help("Prints a table to standard error at the end: what each policy found");
    Command::new(alloc, "replay")
        .about("Replays a stream of events and reviews and prints the answers")
        .after_help(REPLAY_NOTES)
        .arg(file)?
        .arg(workers)?
        .arg(audit)?
        .arg(summary)
}

fn report<'a>(alloc: Global) -> Result<Command<'a>, AllocError> {
    let file = Arg::new(alloc, "FILE")
        .required(true)
        .help("A stream or a JSON document, or `-` for standard input");
    let output = Arg::new(alloc, "output")
        .long("output")
        .value_name("FORM")
        .value_parser(OUTPUTS.as_slice())
        .default_value("text")
        .help("For people, or one JSON document for machines");
    Command::new(alloc, "report")
        .about("Prints which policies are accepted, at which kinds, and what they may charge")
        .after_help(REPORT_NOTES)
        .arg(file)?
        .arg(output)
}

fn kinds<'a>(alloc: Global) -> Result<Command<'a>, AllocError> {
    let file = Arg::new(alloc, "FILE")
        .required(true)
        .help("An OpenAPI v3 document, or `-` for standard input");
    Command::new(alloc, "kinds")
        .about("Writes the definitions of the kinds in an OpenAPI document")
        .after_help(KINDS_NOTES)
        .arg(file)
}

/// What the words ask for.
pub fn asked<'a>(alloc: Global, words: &'a [String]) -> Result<Task<'a>, Mistake>
    ensures { IfOk result HasWorkersInRange }
{
    match command(alloc)?.try_get_matches_from(words) {
        Ok(matches) => task_in(&matches).ok_or(Mistake::NoTask),
        Err(error) => Err(mistake(error, words)),
    }
}

fn task_in<'a>(matches: &ArgMatches<'a>) -> Option<Task<'a>>
    ensures { IfSome result HasWorkersInRange }
{
    let (name, below) = matches.subcommand()?;
    match name {
        "image" => image_task_in(below),
        "eval" => Some(Task::Eval {
            text: below.get_str("EXPR")?,
        }),
        "check" => Some(Task::Check {
            file: below.get_str("FILE")?,
        }),
        "report" => Some(Task::Report {
            file: below.get_str("FILE")?,
            json: below.get_str("output")? == "json",
        }),
        "kinds" => Some(Task::Kinds {
            file: below.get_str("FILE")?,
        }),
        _ => replay_task_in(below),
    }
}

fn replay_task_in<'a>(matches: &ArgMatches<'a>) -> Option<Task<'a>>
    ensures { IfSome result HasWorkersInRange }
{
    let file = matches.get_str("FILE")?;
    let workers = matches.get_one::<u8>("workers")?;
    if workers < 1 || workers > 16 {
        return None;
    }
    let audit = matches.get_flag("audit");
    let summary = matches.get_flag("summary");
    Some(Task::Replay {
        file,
        workers,
        audit,
        summary,
    })
}

fn image_task_in<'a>(matches: &ArgMatches<'a>) -> Option<Task<'a>>
    ensures { IfSome result HasWorkersInRange }
{
    let (name, below) = matches.subcommand()?;
    if name == "encode" {
        return Some(Task::Encode {
            text: below.get_str("EXPR")?,
        });
    }
    Some(Task::Decode {
        file: below.get_str("FILE")?,
    })
}

/// What is wrong with the words.
fn mistake(error: clap::Error, words: &[String]) -> Mistake {
    if error.kind() == ErrorKind::UnknownArgument && begins_with_minus(words) {
        Mistake::Minus
    } else {
        Mistake::from(error)
    }
}

/// Whether the word after the command begins with a minus.
fn begins_with_minus(words: &[String]) -> bool {
    match words {
        [_program, group, _command, word, ..] if group.as_str() == "image" => word.starts_with('-'),
        [_program, _command, word, ..] => word.starts_with('-'),
        _ => false,
    }
}
