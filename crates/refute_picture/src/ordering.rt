ghost use Rattle.std.specs.Prelude.{◌≡◌, ◌++◌, ◌∷◌, [], IfOk, IsPermutation, OnOk};
ghost use Rattle.std.specs.List.{flat_map};
ghost use Rattle.std.specs.List.Sorted.{IsSortedByKey};
ghost use Rattle.std.specs.Ordering.{nat_cmp};
ghost use Rattle.refute_picture.specs.Overlaps.{IsOverlapOrder, overlap_key, overlap_row, rows_of};

use crate::OverlapRow;
use crate::box_time::time_at;
use page_rows::{Amount, BetweenRow, OverlapPart, Page};
use std::alloc::{AllocError, Global};

/// Makes a second number of a page.
fn copy_of(amount: &Amount) -> Amount
    ensures { result ≡ amount.now }
{
    Amount::of(amount.get())
}

/// Makes the row of two boxes that overlap first in this load.
fn make_row(
    alloc: Global,
    page: &Page,
    row: &BetweenRow,
    part: &OverlapPart,
) -> Result<OverlapRow, AllocError>
    ensures { IfOk result (λ made. made ≡ overlap_row page.now row.now part.now) }
{
    let first = time_at(page.segments(), page.boxes(), row.first.get());
    let second = time_at(page.segments(), page.boxes(), row.second.get());
    Ok(OverlapRow {
        first: copy_of(&row.first),
        second: copy_of(&row.second),
        both: copy_of(&row.both),
        day: copy_of(&part.day),
        index: copy_of(&part.index),
        request: part.request.copy(alloc)?,
        time: first.min(second),
    })
}

/// Appends the row of two boxes, if they overlap, of each two once.
fn add_row(
    alloc: Global,
    page: &Page,
    row: &BetweenRow,
    rows: &mut Vec<OverlapRow>,
) -> Result<(), AllocError>
    ensures { OnOk result (rows.new.items ≡ rows.old.items ++ rows_of page.now row.now) }
{
    if row.second.get() < row.first.get() {
        return Ok(());
    }
    let Some(part) = &row.overlap else {
        return Ok(());
    };
    Ok(rows.push(make_row(alloc, page, row, part)?)?)
}

/// Makes the rows of the boxes that overlap.
fn list_rows(
    alloc: Global,
    page: &Page,
    betweens: &[BetweenRow],
) -> Result<Vec<OverlapRow>, AllocError>
    ensures { IfOk result (λ rows. rows.items ≡ flat_map (rows_of page.now) betweens.now) }
{
    let mut rows = Vec::new(alloc);
    'betweens: for row in betweens {
        add_row(alloc, page, row, &mut rows)?;
    }
    Ok(rows)
}

/// Returns the key by which rows are ordered: that whose shorter box lasts longest has the least.
fn overlap_key(row: &OverlapRow) -> u128
    ensures { result ≡ overlap_key row.now }
{
    u128::MAX - row.time
}

/// Brings rows into order, those first whose shorter boxes last longest.
fn order_rows(rows: &mut Vec<OverlapRow>) -> Result<(), AllocError>
    ensures same { IsPermutation rows.old.items rows.new.items }
    ensures sorted { OnOk result (IsSortedByKey overlap_key nat_cmp rows.new.items) }
{
    rows.sort_by_key(overlap_key)?;
    Ok(())
}

/// Finds the boxes that overlap, those first whose shorter one lasts longest. The only error is out
/// of memory.
pub fn order_overlaps(alloc: Global, page: &Page) -> Result<Vec<OverlapRow>, AllocError>
    ensures { IfOk result (λ rows. IsOverlapOrder page.now rows.items) }
{
    let mut rows = list_rows(alloc, page, page.betweens())?;
    order_rows(&mut rows)?;
    Ok(rows)
}
