//! A table for people.

use base_containers::Items;
use std::alloc::{AllocError, Global};

/// How many columns a table has.
pub const COLUMNS: usize = 10;

/// A row: the text of each column.
pub type Row = Items<String>;

fn width_of(rows: &[Row], column: usize) -> usize {
    let mut width = 0;
    for row in rows {
        if let Some(text) = row.get(column) {
            width = width.max(text.as_str().chars().count());
        }
    }
    width
}

fn put_blanks(out: &mut String, count: usize) -> Result<(), AllocError> {
    for _ in 0..count {
        out.push(' ')?;
    }
    Ok(())
}

/// A text, with blanks after it up to a width; numbers have them before.
fn put_cell(out: &mut String, text: &str, width: usize, is_number: bool) -> Result<(), AllocError> {
    let blanks = width.saturating_sub(text.chars().count());
    if is_number {
        put_blanks(out, blanks)?;
        out.push_str(text)
    } else {
        out.push_str(text)?;
        put_blanks(out, blanks)
    }
}

fn put_row(out: &mut String, row: &Row, widths: &[usize]) -> Result<(), AllocError> {
    for (column, width) in widths.iter().enumerate() {
        if column > 0 {
            out.push_str("  ")?;
        }
        if let Some(text) = row.get(column) {
            put_cell(out, text.as_str(), *width, column > 1)?;
        }
    }
    out.push_str("\n")
}

fn widths_of(alloc: Global, rows: &[Row]) -> Result<Vec<usize>, AllocError> {
    let mut widths = Vec::new(alloc);
    for column in 0..COLUMNS {
        widths.push(width_of(rows, column))?;
    }
    Ok(widths)
}

/// The lines of a table. The first two columns are names, the others numbers.
pub fn put_table(alloc: Global, out: &mut String, rows: &[Row]) -> Result<(), AllocError> {
    let widths = widths_of(alloc, rows)?;
    for row in rows {
        put_row(out, row, widths.as_slice())?;
    }
    Ok(())
}
