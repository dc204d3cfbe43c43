ghost use Rattle.std.specs.Prelude.{◌≡◌, ◌++◌, IfOk, IsPermutation, OnOk};
ghost use Rattle.std.specs.List.{flat_map};
ghost use Rattle.std.specs.List.Sorted.{IsSortedByKey};
ghost use Rattle.std.specs.Ordering.{nat_cmp};
ghost use Rattle.ranking_picture.specs.Rankings.{IsRanking, half_of, none_of, rank_key, ranked_row};
ghost use Rattle.ranking_picture.specs.Rankings.{row_if_on_path};

use crate::RankedRow;
use page_rows::{Amount, GainRow, Page, SegmentRow};
use picture_parts::same_name;
use std::alloc::{AllocError, Global};
use trace_types::NameText;

/// Makes a second number of a page.
fn copy_of(amount: &Amount) -> Amount
    ensures { result ≡ amount.now }
{
    Amount::of(amount.get())
}

/// Finds what the critical paths would lose if a name took no time.
fn none_of(gains: &[GainRow], name: &NameText) -> Amount
    ensures { result ≡ none_of gains.now name.now }
{
    'gains: for gain in gains {
        if same_name(&gain.name, name) {
            return copy_of(&gain.none);
        }
    }
    Amount::of(0)
}

/// Finds what the critical paths would lose if a name took half of its time.
fn half_of(gains: &[GainRow], name: &NameText) -> Amount
    ensures { result ≡ half_of gains.now name.now }
{
    'gains: for gain in gains {
        if same_name(&gain.name, name) {
            return copy_of(&gain.half);
        }
    }
    Amount::of(0)
}

/// Makes the row of a segment.
fn make_row(alloc: Global, gains: &[GainRow], segment: &SegmentRow) -> Result<RankedRow, AllocError>
    ensures { IfOk result (λ row. row ≡ ranked_row gains.now segment.now) }
{
    Ok(RankedRow {
        name: segment.name.copy(alloc)?,
        on_path: copy_of(&segment.on_path),
        critical: copy_of(&segment.on_path_sum),
        none: none_of(gains, &segment.name),
        half: half_of(gains, &segment.name),
    })
}

/// Appends the row of a segment, if it is on a critical path.
fn add_row(
    alloc: Global,
    gains: &[GainRow],
    segment: &SegmentRow,
    rows: &mut Vec<RankedRow>,
) -> Result<(), AllocError>
    ensures { OnOk result
        (rows.new.items ≡ rows.old.items ++ row_if_on_path gains.now segment.now) }
{
    if segment.on_path.get() > 0 {
        rows.push(make_row(alloc, gains, segment)?)?;
    }
    Ok(())
}

/// Makes the rows of the segments that are on critical paths.
fn list_rows(
    alloc: Global,
    gains: &[GainRow],
    segments: &[SegmentRow],
) -> Result<Vec<RankedRow>, AllocError>
    ensures { IfOk result (λ rows. rows.items ≡ flat_map (row_if_on_path gains.now) segments.now) }
{
    let mut rows = Vec::new(alloc);
    'segments: for segment in segments {
        add_row(alloc, gains, segment, &mut rows)?;
    }
    Ok(rows)
}

/// Returns the key by which rows are ordered: the longest has the least.
fn rank_key(row: &RankedRow) -> u128
    ensures { result ≡ rank_key row.now }
{
    u128::MAX - row.critical.get()
}

/// Brings rows into order, the longest first.
fn order_rows(rows: &mut Vec<RankedRow>) -> Result<(), AllocError>
    ensures same { IsPermutation rows.old.items rows.new.items }
    ensures sorted { OnOk result (IsSortedByKey rank_key nat_cmp rows.new.items) }
{
    rows.sort_by_key(rank_key)?;
    Ok(())
}

/// Finds the segments of a page that are on critical paths, the longest first. The only error is
/// out of memory.
pub fn rank_segments(alloc: Global, page: &Page) -> Result<Vec<RankedRow>, AllocError>
    ensures { IfOk result (λ rows. IsRanking page.now rows.items) }
{
    let mut rows = list_rows(alloc, page.gains(), page.segments())?;
    order_rows(&mut rows)?;
    Ok(rows)
}
