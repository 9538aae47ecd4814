//! Verdicts and their lines.

use calls_notation::{Asked, unknown};
use std::alloc::{AllocError, Global};

mod answers;
mod cuts;
mod found;
mod lent;
mod reports;

/// The answer to a call of verdicts.
pub fn answer(alloc: Global, asked: &Asked) -> Result<String, AllocError> {
    let (row, first, second) = (asked.input, asked.number(0), asked.number(1));
    match asked.call {
        "found" => answers::found(alloc, row, first, second),
        "unfit" => answers::unfit(alloc, row),
        "cut" => cuts::within(alloc, row, first as usize),
        "kept" => cuts::kept(alloc, asked.text(0), row),
        "report" => reports::report(alloc, row),
        "lent" => lent::lent(alloc, row, asked.text(0), asked.text(1)),
        _ => unknown(alloc),
    }
}
