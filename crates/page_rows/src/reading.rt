ghost use Rattle.std.specs.Prelude.{◌≡◌, ◌+◌, ◌∷◌, ◌<◌, ◌^◌, ◌-◌, [], length, IfErr, IfOk, Ok, OnOk};
ghost use Rattle.page_rows.specs.Fields.{texts_of};
ghost use Rattle.page_rows.specs.Pages.{IsPageError, page_said, placed_row, no_lists, rows_said, with_rows};
ghost use Rattle.page_rows.specs.Rows.{row_said, stage_of};
ghost use Rattle.page_rows.specs.inner.Steps.{FailsAtLine, ReadsLine};

use crate::fields::lines_of;
use crate::row_fault::RowFault;
use crate::row_order::{may_end, may_follow, stage_of};
use crate::row_reading::read_row;
use crate::{Page, PageError, Row, Why};
use std::alloc::{AllocError, Global};

/// Reads the row of the line with this number, which stands behind a row.
fn read_placed_row(alloc: Global, before: u8, number: u32, line: &[u8]) -> Result<Row, PageError>
    ensures read { IfOk result (λ row. placed_row before number (row_said line.now) ≡ Ok row) }
    ensures bad { IfErr result (IsPageError (placed_row before number (row_said line.now))) }
{
    match read_row(alloc, line) {
        Err(RowFault::Memory) => Err(PageError::Memory),
        Err(RowFault::Bad(why)) => Err(PageError::Bad { line: number, why }),
        Ok(row) => {
            if may_follow(before, stage_of(&row)) {
                Ok(row)
            } else {
                Err(PageError::Bad {
                    line: number,
                    why: Why::Misplaced,
                })
            }
        }
    }
}

/// Appends what the line with this number says. The result is where the last row stands.
fn read_line(
    alloc: Global,
    before: u8,
    number: u32,
    line: &[u8],
    rows: &mut Vec<Row>,
) -> Result<u8, PageError>
    ensures read { IfOk result (λ next.
        ReadsLine before number line.now next rows.old.items rows.new.items) }
    ensures bad { IfErr result (FailsAtLine before number line.now) }
{
    if line.is_empty() {
        return Ok(before);
    }
    let row = read_placed_row(alloc, before, number, line)?;
    let next = stage_of(&row);
    rows.push(row)?;
    Ok(next)
}

/// Reads the rows of lines.
fn read_rows(alloc: Global, lines: &[&[u8]]) -> Result<Vec<Row>, PageError>
    requires { length lines.now < 2 ^ 32 - 1 }
    ensures read { IfOk result (λ rows. rows_said 0 1 (texts_of lines.now) ≡ Ok rows.items) }
    ensures bad { IfErr result (IsPageError (rows_said 0 1 (texts_of lines.now))) }
{
    let mut rows = Vec::new(alloc);
    let mut before = 0;
    let mut number = 1;
    'lines: for line in lines {
        before = read_line(alloc, before, number, line, &mut rows)?;
        number += 1;
    }
    if !may_end(before) {
        return Err(PageError::Bad {
            line: number,
            why: Why::Unfinished,
        });
    }
    Ok(rows)
}

/// Brings rows into the lists of a page.
fn list_rows(alloc: Global, rows: Vec<Row>) -> Result<Page, AllocError>
    ensures { IfOk result (λ page. page ≡ with_rows no_lists rows.items) }
{
    let mut page = Page::new(alloc);
    'rows: for row in rows {
        page.add(row)?;
    }
    Ok(page)
}

/// Reads the page that a text says. A text has fewer than 2^31 bytes, so that the number of each
/// line fits 32 bits.
///
/// The errors are `Memory`, and `Bad` with the number of the first bad line and why it is bad.
pub fn read_page(alloc: Global, text: &[u8]) -> Result<Page, PageError>
    requires { length text.now < 2 ^ 31 }
    ensures read { IfOk result (λ page. page_said text.now ≡ Ok page) }
    ensures bad { IfErr result (IsPageError (page_said text.now)) }
{
    let lines = lines_of(alloc, text)?;
    let rows = read_rows(alloc, &lines)?;
    Ok(list_rows(alloc, rows)?)
}
