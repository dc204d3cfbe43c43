ghost use Rattle.std.specs.Prelude.{◌≡◌, ◌++◌, ◌<◌, ◌^◌, IfOk, IsPermutation, OnOk};
ghost use Rattle.std.specs.List.{flat_map};
ghost use Rattle.std.specs.List.Sorted.{IsSortedByKey};
ghost use Rattle.std.specs.Ordering.{nat_cmp};
ghost use Rattle.picture_parts.specs.Places.{mean_of};
ghost use Rattle.tail_picture.specs.Tails.{IsTailOrder, apart, row_if_seen, tail_key, tailed_row};

use crate::TailedRow;
use crate::difference::{apart_of, others_of};
use page_rows::{Amount, Page, TailHead, TailRow};
use picture_parts::mean_of;
use std::alloc::{AllocError, Global};

/// Finds the mean of a sum over so many.
fn mean_amount(sum: &Amount, count: u128) -> Amount
    ensures { result ≡ mean_of sum.now count }
{
    Amount::of(mean_of(sum.get(), count))
}

/// Makes the row of a name.
fn make_row(alloc: Global, head: &TailHead, row: &TailRow) -> Result<TailedRow, AllocError>
    ensures { IfOk result (λ made. made ≡ tailed_row head.now row.now) }
{
    Ok(TailedRow {
        name: row.name.copy(alloc)?,
        slow: mean_amount(&row.slow_sum, head.slow.get()),
        rest: mean_amount(&row.rest_sum, others_of(head)),
    })
}

/// Appends the row of a name, if it is on a critical path for some time.
fn add_row(
    alloc: Global,
    head: &TailHead,
    row: &TailRow,
    rows: &mut Vec<TailedRow>,
) -> Result<(), AllocError>
    ensures { OnOk result (rows.new.items ≡ rows.old.items ++ row_if_seen head.now row.now) }
{
    if row.slow_sum.get() + row.rest_sum.get() > 0 {
        rows.push(make_row(alloc, head, row)?)?;
    }
    Ok(())
}

/// Makes the rows of the names that are on critical paths.
fn list_rows(
    alloc: Global,
    head: &TailHead,
    segments: &[TailRow],
) -> Result<Vec<TailedRow>, AllocError>
    ensures { IfOk result (λ rows. rows.items ≡ flat_map (row_if_seen head.now) segments.now) }
{
    let mut rows = Vec::new(alloc);
    'segments: for row in segments {
        add_row(alloc, head, row, &mut rows)?;
    }
    Ok(rows)
}

/// Tells how far the two means are apart.
pub(crate) fn apart(row: &TailedRow) -> u128
    ensures value { result ≡ apart row.now }
    ensures small { result < 2 ^ 80 }
{
    apart_of(row.slow.get(), row.rest.get())
}

/// Returns the key by which rows are ordered: the farthest apart has the least.
fn tail_key(row: &TailedRow) -> u128
    ensures { result ≡ tail_key row.now }
{
    u128::MAX - apart(row)
}

/// Brings rows into order, those first that are farthest apart.
fn order_rows(rows: &mut Vec<TailedRow>) -> Result<(), AllocError>
    ensures same { IsPermutation rows.old.items rows.new.items }
    ensures sorted { OnOk result (IsSortedByKey tail_key nat_cmp rows.new.items) }
{
    rows.sort_by_key(tail_key)?;
    Ok(())
}

/// Finds the names on critical paths, those first that are farthest apart. The only error is out of
/// memory.
pub fn order_tail(alloc: Global, page: &Page) -> Result<Vec<TailedRow>, AllocError>
    ensures { IfOk result (λ rows. IsTailOrder page.now rows.items) }
{
    let mut rows = list_rows(alloc, page.tail(), page.tail_segments())?;
    order_rows(&mut rows)?;
    Ok(rows)
}
