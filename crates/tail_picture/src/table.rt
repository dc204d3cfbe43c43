ghost use Rattle.std.specs.Prelude.{◌≡◌, ◌++◌, List, OnOk, take};
ghost use Rattle.std.specs.List.{flat_map};
ghost use Rattle.tail_picture.specs.declared.tailed_row.TailedRow.{TailedRow as Tailed};
ghost use Rattle.tail_picture.specs.Tails.{IsTailOrder, count_text, greater_of, head_text};
ghost use Rattle.tail_picture.specs.Tails.{more_text, row_bars, row_figures, row_text, table_text};
ghost use Rattle.tail_picture.specs.Tails.{tail_text, width_of};

use crate::difference::{others_of, push_difference, sign_of};
use crate::heat::push_heat;
use crate::ordering::apart;
use crate::texts::{
    push_picture_start, push_row_start, push_table_end, push_table_start, push_tail_end,
    push_tail_start,
};
use crate::{TailedRow, order_tail};
use markup::{Piece, push_pieces};
use page_rows::{Page, TailHead};
use picture_parts::{push_bar, push_label, span_of};
use std::alloc::{AllocError, Global};

/// How many rows the table shows.
const MOST_ROWS: usize = 16;

/// Appends the bars of a name on this width.
#[tactic(auto, unfolding(crate::specs::Tails::row_bars))]
fn push_row_bars(bytes: &mut Vec<u8>, width: u128, row: &TailedRow) -> Result<(), AllocError>
    ensures { OnOk result (bytes.new.items ≡ bytes.old.items ++ row_bars width row.now) }
{
    push_bar(bytes, "path", span_of(0, row.slow.get(), width), 0, 9)?;
    push_bar(bytes, "off", span_of(0, row.rest.get(), width), 10, 8)
}

/// Appends the figures of a name.
fn push_row_figures(bytes: &mut Vec<u8>, row: &TailedRow) -> Result<(), AllocError>
    ensures { OnOk result (bytes.new.items ≡ bytes.old.items ++ row_figures row.now) }
{
    let slow = row.slow.get();
    let rest = row.rest.get();
    let sign = sign_of(slow, rest);
    let difference = apart(row);
    push_pieces(
        bytes,
        &[
            Piece::Fixed("</svg><td>"),
            Piece::Time(slow),
            Piece::Fixed("<td>"),
            Piece::Time(rest),
            Piece::Fixed("<td>"),
            Piece::Fixed(sign),
            Piece::Time(difference),
        ],
    )
}

/// Appends the row of a name.
#[tactic(auto, unfolding(crate::specs::Tails::row_text))]
fn push_row(
    bytes: &mut Vec<u8>,
    page: &Page,
    width: u128,
    row: &TailedRow,
) -> Result<(), AllocError>
    ensures { OnOk result (bytes.new.items ≡ bytes.old.items ++ row_text page.now width row.now) }
{
    push_row_start(bytes)?;
    push_label(bytes, &row.name)?;
    push_picture_start(bytes)?;
    push_row_bars(bytes, width, row)?;
    push_row_figures(bytes, row)?;
    push_heat(bytes, page, width, &row.name)
}

/// Appends rows.
fn push_rows(
    bytes: &mut Vec<u8>,
    page: &Page,
    width: u128,
    rows: &[TailedRow],
) -> Result<(), AllocError>
    ensures { OnOk result
        (bytes.new.items ≡ bytes.old.items ++ flat_map (row_text page.now width) rows.now) }
{
    'rows: for row in rows {
        push_row(bytes, page, width, row)?;
    }
    Ok(())
}

/// Lends the first 16 rows.
fn first_rows(rows: &[TailedRow]) -> &[TailedRow]
    ensures { result.now ≡ take 16 rows.now }
{
    let count = rows.len().min(MOST_ROWS);
    &rows[..count]
}

/// Finds the greater mean of a name.
fn greater_of(row: &TailedRow) -> u128
    ensures { result ≡ greater_of row.now }
{
    row.slow.get().max(row.rest.get())
}

/// Finds what fills the width: the greatest mean of rows.
fn width_of(rows: &[TailedRow]) -> u128
    ensures { result ≡ width_of rows.now }
{
    let mut width = 0;
    'rows: for row in rows {
        width = greater_of(row).max(width);
    }
    width
}

/// Appends the table of these rows.
#[tactic(auto, unfolding(crate::specs::Tails::table_text))]
fn push_table(bytes: &mut Vec<u8>, page: &Page, rows: &[TailedRow]) -> Result<(), AllocError>
    ensures { OnOk result (bytes.new.items ≡ bytes.old.items ++ table_text page.now rows.now) }
{
    push_table_start(bytes)?;
    push_rows(bytes, page, width_of(rows), rows)?;
    push_table_end(bytes)
}

/// Appends how many loads are slow.
fn push_tail_head(bytes: &mut Vec<u8>, head: &TailHead) -> Result<(), AllocError>
    ensures { OnOk result (bytes.new.items ≡ bytes.old.items ++ head_text head.now) }
{
    let slow = head.slow.get();
    let floor = head.floor.get();
    let others = others_of(head);
    push_pieces(
        bytes,
        &[
            Piece::Fixed("<p>Slow loads: "),
            Piece::Number(slow),
            Piece::Fixed(", from "),
            Piece::Time(floor),
            Piece::Fixed(" on. Other loads: "),
            Piece::Number(others),
            Piece::Fixed(".</p>"),
        ],
    )
}

/// Appends a number of names that are behind the first 16.
fn push_count(bytes: &mut Vec<u8>, count: usize) -> Result<(), AllocError>
    ensures { OnOk result (bytes.new.items ≡ bytes.old.items ++ count_text count) }
{
    push_pieces(
        bytes,
        &[
            Piece::Fixed(
                "<p class=\"note\">Further segments on critical paths, which differ no more: ",
            ),
            Piece::Number(count as u128),
            Piece::Fixed(".</p>"),
        ],
    )
}

/// Appends how many names are behind the first 16, unless none is.
fn push_more(bytes: &mut Vec<u8>, count: usize) -> Result<(), AllocError>
    ensures { OnOk result (bytes.new.items ≡ bytes.old.items ++ more_text count) }
{
    if count == 0 {
        return Ok(());
    }
    push_count(bytes, count)
}

/// Appends the part on the slowest loads, with its rows in order.
#[tactic(auto, unfolding(crate::specs::Tails::tail_text))]
fn push_ordered(bytes: &mut Vec<u8>, page: &Page, rows: &[TailedRow]) -> Result<(), AllocError>
    ensures { OnOk result (bytes.new.items ≡ bytes.old.items ++ tail_text page.now rows.now) }
{
    push_tail_start(bytes)?;
    push_tail_head(bytes, page.tail())?;
    push_difference(bytes, page)?;
    push_table(bytes, page, first_rows(rows))?;
    push_more(bytes, rows.len().saturating_sub(MOST_ROWS))?;
    push_tail_end(bytes)
}

/// Appends the part on the slowest loads of a page. The only error is out of memory, after which the
/// bytes may end in the middle of it.
pub fn push_tail(alloc: Global, bytes: &mut Vec<u8>, page: &Page) -> Result<(), AllocError>
    ensures { OnOk result ((rows : List Tailed) × IsTailOrder page.now rows
        × (bytes.new.items ≡ bytes.old.items ++ tail_text page.now rows)) }
{
    let rows = order_tail(alloc, page)?;
    push_ordered(bytes, page, &rows)
}
