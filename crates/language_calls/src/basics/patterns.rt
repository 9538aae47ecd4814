//! Patterns: where they are found, which texts are none, and the order of the choice.
//!
//! A question is a pattern, " on " and a text.

use calls_notation::{Asked, unknown, unreadable};
use cel_operators::{Matchers, PatternFault, Patterns, Unbuilt};
use std::alloc::{AllocError, Global};

/// The answer to a call of patterns.
pub fn answer(alloc: Global, asked: &Asked) -> Result<String, AllocError> {
    match asked.call {
        "finds" => finds(alloc, asked.input),
        "nested" => nested(alloc, asked.input),
        "choice" => choice(alloc, asked.input),
        "unasked" => shown(alloc, &Patterns::new(alloc)),
        _ => unknown(alloc),
    }
}

/// What these matchers answer to a question.
fn found_by(
    alloc: Global,
    matchers: &mut Matchers,
    pattern: &str,
    text: &str,
) -> Result<&'static str, AllocError> {
    match matchers.finds(alloc, pattern, text) {
        Ok(true) => Ok("found"),
        Ok(false) => Ok("absent"),
        Err(Unbuilt::Fault(PatternFault::NoPattern)) => Ok("no pattern"),
        Err(Unbuilt::Fault(PatternFault::TooLarge)) => Ok("too large"),
        Err(Unbuilt::OutOfMemory) => Err(AllocError),
    }
}

/// What these matchers answer to questions that are asked one after another.
fn answers(alloc: Global, matchers: &mut Matchers, questions: &str) -> Result<String, AllocError> {
    let mut out = String::new(alloc);
    for question in questions.split(';') {
        let Some((pattern, text)) = question.split_once(" on ") else {
            return unreadable(alloc);
        };
        if !out.is_empty() {
            out.push_str("; ")?;
        }
        out.push_str(found_by(alloc, matchers, pattern, text)?)?;
    }
    Ok(out)
}

/// What new matchers answer to questions that are asked one after another, with ";" between them.
fn finds(alloc: Global, row: &str) -> Result<String, AllocError> {
    let mut matchers = Matchers::new(alloc);
    answers(alloc, &mut matchers, row)
}

/// Writes what is answered for each of these words.
fn put_signs(
    alloc: Global,
    out: &mut String,
    patterns: &mut Patterns,
    words: &str,
) -> Result<(), AllocError> {
    for word in words.split(' ') {
        let is_pattern = patterns.look_up(alloc, word)?;
        out.push_str(if is_pattern { "+" } else { "-" })?;
    }
    Ok(())
}

/// What is answered for each of these words, and the choice when all are answered.
fn chosen(alloc: Global, patterns: &mut Patterns, words: &str) -> Result<String, AllocError> {
    let mut out = String::new(alloc);
    put_signs(alloc, &mut out, patterns, words)?;
    for text in patterns.choice() {
        write!(out, " {text}")?;
    }
    Ok(out)
}

/// The choice, each text followed by a space.
pub fn shown(alloc: Global, patterns: &Patterns) -> Result<String, AllocError> {
    let mut out = String::new(alloc);
    for text in patterns.choice() {
        write!(out, "{text} ")?;
    }
    Ok(out)
}

/// The same from the beginning, of new patterns.
fn choice(alloc: Global, row: &str) -> Result<String, AllocError> {
    let mut patterns = Patterns::new(alloc);
    chosen(alloc, &mut patterns, row)
}

/// Whether `a` is found in `a` in so many parentheses.
fn nested(alloc: Global, row: &str) -> Result<String, AllocError> {
    let Ok(depth) = row.parse::<usize>() else {
        return unreadable(alloc);
    };
    let opening = "(".repeat(alloc, depth)?;
    let closing = ")".repeat(alloc, depth)?;
    let question = format!(in alloc; "{opening}a{closing} on a")?;
    finds(alloc, question.as_str())
}
