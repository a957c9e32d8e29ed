ghost use Rattle.std.specs.Prelude.{◌≡◌, IfOk};
ghost use Rattle.lines.specs.Rows.{barred, column_of, padded, row_of, table_of};

use crate::cell::{COLUMN, cell};
use rules::rule::LineRule;
use rules::rust::{RustEntry, RustSection};
use rules::starlark::{StarlarkEntry, StarlarkSection};
use std::alloc::{AllocError, Global};
use text::escape::Escaped;
use text::lines::lines;

// A cell and the spaces up to the next column, at least one.
fn padded(mut cell: Vec<u8>, width: usize) -> Result<Vec<u8>, AllocError>
    ensures { IfOk result (λ v. v.items ≡ padded width cell.items) }
{
    cell.resize(width.max(cell.len() + 1), b' ')?;
    Ok(cell)
}

// What a rule makes of a line, as wide as a column.
fn column<R: LineRule>(heap: Global, rule: &R, line: &[u8]) -> Result<Vec<u8>, AllocError>
    ensures { IfOk result (λ v. v.items ≡ column_of R.NAMES_LOWERED R.LineRule.meaning line.now) }
{
    padded(cell(heap, rule, line)?, COLUMN)
}

// The line between bars, so that the blanks at its ends are seen.
fn barred(heap: Global, line: &[u8]) -> Result<Vec<u8>, AllocError>
    ensures { IfOk result (λ v. v.items ≡ barred line.now) }
{
    // Most lines print as themselves, between two bars and an LF.
    let mut barred = String::with_capacity(heap, line.len() + 3)?;
    writeln!(barred, "|{}|", Escaped(line))?;
    Ok(barred.into_bytes())
}

// How many bytes a line's number takes.
const NUMBER: usize = 6;

// A line's number, what each rule makes of it, and the line.
pub fn row(heap: Global, number: usize, line: &[u8]) -> Result<Vec<u8>, AllocError>
    ensures { IfOk result (λ v. v.items ≡ row_of number line.now) }
{
    // Room for the cells and for a line that prints as itself: `concat` would grow the row part by part.
    let mut row = Vec::with_capacity(heap, NUMBER + 4 * COLUMN + line.len() + 3)?;
    row.extend_from_slice(&padded(format!(in heap; "{number}")?.into_bytes(), NUMBER)?)?;
    row.extend_from_slice(&column(heap, &StarlarkSection, line)?)?;
    row.extend_from_slice(&column(heap, &StarlarkEntry, line)?)?;
    row.extend_from_slice(&column(heap, &RustSection, line)?)?;
    row.extend_from_slice(&column(heap, &RustEntry, line)?)?;
    row.extend_from_slice(&barred(heap, line)?)?;
    Ok(row)
}

const HEAD: &[u8] =
    b"line  starlark-section    starlark-entry      rust-section        rust-entry          text\n";

// A row for each line of the text, numbered from 1.
pub fn table(heap: Global, text: &[u8]) -> Result<Vec<u8>, AllocError>
    ensures { IfOk result (λ v. v.items ≡ table_of text.now) }
{
    let mut table = Vec::from_slice(heap, HEAD)?;
    for (number, line) in (1..).zip(lines(text)) {
        table.extend_from_slice(&row(heap, number, line)?)?;
    }
    Ok(table)
}
