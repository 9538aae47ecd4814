//! The summary of a replay.

use crate::counts::{Counts, counts_of};
use crate::pairs::{BoundPair, pairs_in};
use crate::table::{COLUMNS, Row, put_table};
use crate::times::{Times, times_of};
use base_containers::Items;
use std::alloc::{AllocError, Global};
use std::time::Clock;
use vap_audit::History;

static HEAD: [&str; COLUMNS] = [
    "POLICY", "BINDING", "REVIEWS", "DENIED", "WARNED", "AUDITED", "ERRORS", "GREATEST", "MEAN",
    "ESTIMATE",
];

fn head(alloc: Global) -> Result<Row, AllocError> {
    let mut row = Items::new(alloc);
    for word in HEAD.iter() {
        row.push(String::from_str(alloc, word)?)?;
    }
    Ok(row)
}

/// A name. What a terminal would obey is written as a question mark.
fn name_of(alloc: Global, name: &str) -> Result<String, AllocError> {
    let mut shown = String::new(alloc);
    for character in name.chars() {
        let is_plain = character >= ' ' && character != '\u{7f}';
        shown.push(if is_plain { character } else { '?' })?;
    }
    Ok(shown)
}

fn put_number(alloc: Global, number: u64, row: &mut Row) -> Result<(), AllocError> {
    row.push(format!(in alloc; "{number}")?)
}

/// What was charged for a review on the average, rounded down.
fn mean_of(counts: Counts) -> u64 {
    counts.charged.checked_div(counts.reviews).unwrap_or(0)
}

fn row_of(alloc: Global, pair: &BoundPair, counts: Counts) -> Result<Row, AllocError> {
    let mut row = Items::new(alloc);
    row.push(name_of(alloc, pair.policy.as_str())?)?;
    row.push(name_of(alloc, pair.binding.as_str())?)?;
    put_number(alloc, counts.reviews, &mut row)?;
    put_number(alloc, counts.denied, &mut row)?;
    put_number(alloc, counts.warned, &mut row)?;
    put_number(alloc, counts.audited, &mut row)?;
    put_number(alloc, counts.errors, &mut row)?;
    put_number(alloc, counts.greatest, &mut row)?;
    put_number(alloc, mean_of(counts), &mut row)?;
    put_number(alloc, counts.estimate, &mut row)?;
    Ok(row)
}

fn rows_of(alloc: Global, history: &History) -> Result<Vec<Row>, AllocError> {
    let pairs = pairs_in(alloc, history)?;
    let mut rows = Vec::new(alloc);
    rows.push(head(alloc)?)?;
    for pair in pairs.as_slice() {
        let counts = counts_of(alloc, history, pair)?;
        rows.push(row_of(alloc, pair, counts)?)?;
    }
    Ok(rows)
}

/// A time in microseconds.
fn micros(nanos: u64) -> u64 {
    nanos / 1_000
}

fn put_times(out: &mut String, reviews: usize, times: Option<Times>) -> Result<(), AllocError> {
    let Some(times) = times else {
        return write!(out, "{reviews} reviews\n");
    };
    let (least, median) = (micros(times.least), micros(times.median));
    let (late, most) = (micros(times.most_but_one_of_100), micros(times.most));
    write!(
        out,
        "{reviews} reviews; microseconds of one: least {least}, median {median}, 99 of 100 {late}, most {most}\n"
    )
}

/// The result of a replay: a line for each policy with each of its bindings, and how long reviews take.
pub fn summary_of<R: Clock>(
    rt: &R,
    alloc: Global,
    history: &History,
) -> Result<String, AllocError> {
    let rows = rows_of(alloc, history)?;
    let times = times_of(rt, alloc, history)?;
    let mut out = String::new(alloc);
    put_table(alloc, &mut out, rows.as_slice())?;
    put_times(&mut out, history.len(), times)?;
    Ok(out)
}
