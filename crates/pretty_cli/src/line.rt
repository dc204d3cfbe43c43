ghost use Rattle.std.specs.Prelude.{◌≡◌, ◌≤◌, ◌*◌, ◌++◌, IfOk, OnOk, replicate, string_bytes, take};
ghost use Rattle.std.specs.List.{flat_map};
ghost use Rattle.pretty_cli.specs.Lines.{IsLine, columns_within, set_cell, set_text};

use crate::cell::{Cell, cell_text};
use crate::cut::cut;
use std::alloc::{AllocError, Global};
use unicode_width::UnicodeWidthStr;

/// How wide a column is, without the two spaces behind it.
const COLUMN: usize = 8;

/// A line has one column for each twenty of the terminal's, so that half of it is left for the label.
const LINE_OF_COLUMN: usize = 20;

/// Appends so many spaces.
fn push_spaces(line: &mut String, count: usize) -> Result<(), AllocError>
    ensures { OnOk result (string_bytes line.new ≡ string_bytes line.old ++ replicate count 32) }
{
    'spaces: for i in 0..count {
        line.push(' ')?;
    }
    Ok(())
}

/// Appends a text at the right end of its column, and the space between two columns.
fn push_text(line: &mut String, text: &str) -> Result<(), AllocError>
    ensures { OnOk result (string_bytes line.new ≡ string_bytes line.old ++ set_text text.now) }
{
    push_spaces(line, COLUMN.saturating_sub(text.width()))?;
    line.push_str(text)?;
    line.push_str("  ")
}

/// Appends a column.
fn push_cell(alloc: Global, line: &mut String, cell: Cell) -> Result<(), AllocError>
    ensures { OnOk result (string_bytes line.new ≡ string_bytes line.old ++ set_cell cell) }
{
    if let Cell::Absent = cell {
        return Ok(());
    }
    let text = cell_text(alloc, cell)?;
    push_text(line, text.as_str())
}

/// Appends columns.
fn push_cells(alloc: Global, line: &mut String, cells: &[Cell]) -> Result<(), AllocError>
    ensures { OnOk result
        (string_bytes line.new ≡ string_bytes line.old ++ flat_map set_cell cells.now) }
{
    'cells: for cell in cells {
        push_cell(alloc, line, *cell)?;
    }
    Ok(())
}

/// Tells how many columns a line of so many has: they take no more than half of it.
pub(crate) fn columns_within(limit: usize) -> usize
    ensures count { result ≡ columns_within limit }
    ensures small { 20 * result ≤ limit }
{
    limit / LINE_OF_COLUMN
}

/// Lends the columns that a line of so many has.
fn shown_cells(limit: usize, cells: &[Cell]) -> &[Cell]
    ensures { result.now ≡ take (columns_within limit) cells.now }
{
    let count = cells.len().min(columns_within(limit));
    &cells[..count]
}

/// Makes a line of columns and a label, cut at so many columns of the terminal.
pub(crate) fn line_of(
    alloc: Global,
    cells: &[Cell],
    label: &str,
    limit: usize,
) -> Result<String, AllocError>
    ensures { IfOk result (λ line. IsLine limit cells.now label.now (string_bytes line)) }
{
    let mut line = String::new(alloc);
    push_cells(alloc, &mut line, shown_cells(limit, cells))?;
    line.push_str(label)?;
    cut(&mut line, limit);
    Ok(line)
}
