ghost use Rattle.std.specs.Prelude.{◌≡◌, ◌++◌, List, OnOk, take};
ghost use Rattle.std.specs.List.{flat_map};
ghost use Rattle.refute_picture.specs.declared.overlap_row.OverlapRow.{OverlapRow as Overlap};
ghost use Rattle.refute_picture.specs.Overlaps.{IsOverlapOrder};
ghost use Rattle.refute_picture.specs.Refutes.{box_label, count_text, full_table, label_at, label_if};
ghost use Rattle.refute_picture.specs.Refutes.{more_text, refutes_text, row_text, table_text};
ghost use Rattle.refute_picture.specs.Refutes.{task_label, witness_text};

use crate::texts::{
    push_none, push_refutes_end, push_refutes_start, push_row_start, push_second_start,
    push_table_end, push_table_start,
};
use crate::totals::{Kind, count_of, push_totals};
use crate::{OverlapRow, order_overlaps};
use markup::{Piece, push_pieces};
use page_rows::{BoxRow, Page};
use picture_parts::push_label;
use std::alloc::{AllocError, Global};
use trace_types::Text;

/// How many rows the table shows.
const MOST_ROWS: usize = 12;

/// Appends the label of a task.
fn push_task(bytes: &mut Vec<u8>, task: &Text) -> Result<(), AllocError>
    ensures { OnOk result (bytes.new.items ≡ bytes.old.items ++ task_label task.now) }
{
    push_pieces(
        bytes,
        &[
            Piece::Fixed("<b><bdi>"),
            Piece::Name(task.as_str()),
            Piece::Fixed("</bdi></b>"),
        ],
    )
}

/// Appends the label of a box.
fn push_box_label(bytes: &mut Vec<u8>, row: &BoxRow) -> Result<(), AllocError>
    ensures { OnOk result (bytes.new.items ≡ bytes.old.items ++ box_label row.now) }
{
    if row.name.end.as_str().is_empty() {
        return push_task(bytes, &row.name.task);
    }
    push_label(bytes, &row.name)
}

/// Appends the label of a box, if it has this number.
fn push_label_if(bytes: &mut Vec<u8>, number: u128, row: &BoxRow) -> Result<(), AllocError>
    ensures { OnOk result (bytes.new.items ≡ bytes.old.items ++ label_if number row.now) }
{
    if row.number.get() != number {
        return Ok(());
    }
    push_box_label(bytes, row)
}

/// Appends the label of the box with this number.
fn push_label_at(bytes: &mut Vec<u8>, boxes: &[BoxRow], number: u128) -> Result<(), AllocError>
    ensures { OnOk result (bytes.new.items ≡ bytes.old.items ++ label_at boxes.now number) }
{
    'boxes: for row in boxes {
        push_label_if(bytes, number, row)?;
    }
    Ok(())
}

/// Appends the load in which two boxes overlap first.
fn push_witness(bytes: &mut Vec<u8>, row: &OverlapRow) -> Result<(), AllocError>
    ensures { OnOk result (bytes.new.items ≡ bytes.old.items ++ witness_text row.now) }
{
    let day = row.day.get();
    let index = row.index.get();
    let both = row.both.get();
    push_pieces(
        bytes,
        &[
            Piece::Fixed("</div><td class=\"w\"><bdi>"),
            Piece::Name(row.request.as_str()),
            Piece::Fixed("</bdi> <small>day "),
            Piece::Number(day),
            Piece::Fixed(", number "),
            Piece::Number(index),
            Piece::Fixed("</small><td>"),
            Piece::Number(both),
            Piece::Fixed("</tr>"),
        ],
    )
}

/// Appends the row of two boxes.
#[tactic(auto, unfolding(crate::specs::Refutes::row_text))]
fn push_row(bytes: &mut Vec<u8>, boxes: &[BoxRow], row: &OverlapRow) -> Result<(), AllocError>
    ensures { OnOk result (bytes.new.items ≡ bytes.old.items ++ row_text boxes.now row.now) }
{
    push_row_start(bytes)?;
    push_label_at(bytes, boxes, row.first.get())?;
    push_second_start(bytes)?;
    push_label_at(bytes, boxes, row.second.get())?;
    push_witness(bytes, row)
}

/// Appends rows.
fn push_rows(bytes: &mut Vec<u8>, boxes: &[BoxRow], rows: &[OverlapRow]) -> Result<(), AllocError>
    ensures { OnOk result
        (bytes.new.items ≡ bytes.old.items ++ flat_map (row_text boxes.now) rows.now) }
{
    'rows: for row in rows {
        push_row(bytes, boxes, row)?;
    }
    Ok(())
}

/// Lends the first 12 rows.
fn first_rows(rows: &[OverlapRow]) -> &[OverlapRow]
    ensures { result.now ≡ take 12 rows.now }
{
    let count = rows.len().min(MOST_ROWS);
    &rows[..count]
}

/// Appends a number of pairs that are behind the first 12.
fn push_count(bytes: &mut Vec<u8>, count: usize) -> Result<(), AllocError>
    ensures { OnOk result (bytes.new.items ≡ bytes.old.items ++ count_text count) }
{
    push_pieces(
        bytes,
        &[
            Piece::Fixed("<p class=\"note\">Further overlaps, whose shorter ones last no longer: "),
            Piece::Number(count as u128),
            Piece::Fixed(".</p>"),
        ],
    )
}

/// Appends how many pairs are behind the first 12, unless none is.
fn push_more(bytes: &mut Vec<u8>, count: usize) -> Result<(), AllocError>
    ensures { OnOk result (bytes.new.items ≡ bytes.old.items ++ more_text count) }
{
    if count == 0 {
        return Ok(());
    }
    push_count(bytes, count)
}

/// Appends the table of the first 12 of these pairs.
#[tactic(auto, unfolding(crate::specs::Refutes::full_table))]
fn push_full(bytes: &mut Vec<u8>, page: &Page, rows: &[OverlapRow]) -> Result<(), AllocError>
    ensures { OnOk result (bytes.new.items ≡ bytes.old.items ++ full_table page.now rows.now) }
{
    push_table_start(bytes)?;
    push_rows(bytes, page.boxes(), first_rows(rows))?;
    push_table_end(bytes)?;
    push_more(bytes, rows.len().saturating_sub(MOST_ROWS))
}

/// Appends the table of these pairs, or what stands in its place where there is none.
fn push_table(bytes: &mut Vec<u8>, page: &Page, rows: &[OverlapRow]) -> Result<(), AllocError>
    ensures { OnOk result (bytes.new.items ≡ bytes.old.items ++ table_text page.now rows.now) }
{
    if rows.is_empty() {
        return push_none(bytes);
    }
    push_full(bytes, page, rows)
}

/// Appends the part on what refutes, with its rows in order.
#[tactic(auto, unfolding(crate::specs::Refutes::refutes_text))]
fn push_ordered(bytes: &mut Vec<u8>, page: &Page, rows: &[OverlapRow]) -> Result<(), AllocError>
    ensures { OnOk result (bytes.new.items ≡ bytes.old.items ++ refutes_text page.now rows.now) }
{
    let betweens = page.betweens();
    let together = count_of(Kind::Together, betweens);
    let before = count_of(Kind::Before, betweens);
    let exclusive = count_of(Kind::Exclusive, betweens);
    push_refutes_start(bytes)?;
    push_table(bytes, page, rows)?;
    push_totals(bytes, together, before, exclusive, rows.len())?;
    push_refutes_end(bytes)
}

/// Appends the part on what refutes relations of a page. The only error is out of memory, after
/// which the bytes may end in the middle of it.
pub fn push_refutes(alloc: Global, bytes: &mut Vec<u8>, page: &Page) -> Result<(), AllocError>
    ensures { OnOk result ((rows : List Overlap) × IsOverlapOrder page.now rows
        × (bytes.new.items ≡ bytes.old.items ++ refutes_text page.now rows)) }
{
    let rows = order_overlaps(alloc, page)?;
    push_ordered(bytes, page, &rows)
}
