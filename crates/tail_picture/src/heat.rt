ghost use Rattle.std.specs.Prelude.{◌≡◌, ◌≤◌, ◌<◌, ◌^◌, ◌++◌, length, OnOk};
ghost use Rattle.std.specs.List.{flat_map, slice_index_or};
ghost use Rattle.tail_picture.specs.Heats.{cell_text, cells_if, heat_text, mean_at, shade_of};
ghost use Rattle.tail_picture.specs.Heats.{shaded_cell, sum_at};

use crate::texts::{push_heat_end, push_heat_start};
use markup::{Piece, push_pieces};
use page_rows::{Amount, BucketRow, NumberList, Page, RankRow};
use picture_parts::{Span, column_of, mean_of, part_of, same_name};
use std::alloc::AllocError;
use trace_types::NameText;

/// Finds how dark a cell is, from 0 to 8.
fn shade_of(mean: u128, longest: u128) -> u32
    requires { mean < 2 ^ 80 }
    ensures value { result ≡ shade_of mean longest }
    ensures within { result ≤ 8 }
{
    if mean == 0 {
        return 0;
    }
    1 + part_of(8, mean, longest).min(7)
}

/// Finds the number at a place, or 0 behind the end.
fn number_at(items: &[Amount], place: usize) -> u128
    ensures value { result ≡ slice_index_or items.now place 0 }
    ensures small { result < 2 ^ 80 }
{
    match items.get(place) {
        Some(number) => number.get(),
        None => 0,
    }
}

/// Finds the time of a name in the rank with this number.
fn sum_at(sums: &NumberList, number: &Amount) -> u128
    ensures value { result ≡ sum_at sums.now number.now }
    ensures small { result < 2 ^ 80 }
{
    let items = sums.items();
    let place = number.get().min(items.len() as u128) as usize;
    number_at(items, place)
}

/// Finds the mean of a name in a rank.
fn mean_at(sums: &NumberList, bucket: &BucketRow) -> u128
    ensures value { result ≡ mean_at sums.now bucket.now }
    ensures small { result < 2 ^ 80 }
{
    mean_of(sum_at(sums, &bucket.number), bucket.loads.get())
}

/// Appends a cell, with what is said of it.
fn push_shaded(
    bytes: &mut Vec<u8>,
    span: Span,
    shade: u32,
    loads: u128,
    mean: u128,
) -> Result<(), AllocError>
    ensures { OnOk result
        (bytes.new.items ≡ bytes.old.items ++ shaded_cell span shade loads mean) }
{
    push_pieces(
        bytes,
        &[
            Piece::Fixed("<rect class=\"h"),
            Piece::Number(u128::from(shade)),
            Piece::Fixed("\" x=\""),
            Piece::Place(span.x),
            Piece::Fixed("\" width=\""),
            Piece::Place(span.width),
            Piece::Fixed("\" height=\"18\"><title>Loads: "),
            Piece::Number(loads),
            Piece::Fixed(", per load "),
            Piece::Time(mean),
            Piece::Fixed("</title></rect>"),
        ],
    )
}

/// Appends the cell of a rank of so many.
#[tactic(auto, unfolding(crate::specs::Heats::cell_text))]
fn push_cell(
    bytes: &mut Vec<u8>,
    count: usize,
    longest: u128,
    sums: &NumberList,
    bucket: &BucketRow,
) -> Result<(), AllocError>
    ensures { OnOk result
        (bytes.new.items ≡ bytes.old.items ++ cell_text count longest sums.now bucket.now) }
{
    let mean = mean_at(sums, bucket);
    let span = column_of(count, bucket.number.get());
    push_shaded(
        bytes,
        span,
        shade_of(mean, longest),
        bucket.loads.get(),
        mean,
    )
}

/// Appends the cells of a name.
fn push_cells(
    bytes: &mut Vec<u8>,
    longest: u128,
    buckets: &[BucketRow],
    sums: &NumberList,
) -> Result<(), AllocError>
    ensures { OnOk result (bytes.new.items ≡ bytes.old.items
        ++ flat_map (cell_text (length buckets.now) longest sums.now) buckets.now) }
{
    let count = buckets.len();
    'buckets: for bucket in buckets {
        push_cell(bytes, count, longest, sums, bucket)?;
    }
    Ok(())
}

/// Appends the cells of a name, if the row is of it.
fn push_cells_if(
    bytes: &mut Vec<u8>,
    longest: u128,
    buckets: &[BucketRow],
    name: &NameText,
    row: &RankRow,
) -> Result<(), AllocError>
    ensures { OnOk result
        (bytes.new.items ≡ bytes.old.items ++ cells_if longest buckets.now name.now row.now) }
{
    if same_name(&row.name, name) {
        return push_cells(bytes, longest, buckets, &row.sums);
    }
    Ok(())
}

/// Appends the cells of a name, of the rows that are of it.
fn push_found(
    bytes: &mut Vec<u8>,
    longest: u128,
    buckets: &[BucketRow],
    ranks: &[RankRow],
    name: &NameText,
) -> Result<(), AllocError>
    ensures { OnOk result (bytes.new.items ≡ bytes.old.items
        ++ flat_map (cells_if longest buckets.now name.now) ranks.now) }
{
    'ranks: for row in ranks {
        push_cells_if(bytes, longest, buckets, name, row)?;
    }
    Ok(())
}

/// Appends the cells of a name and the end of its row.
#[tactic(auto, unfolding(crate::specs::Heats::heat_text))]
pub(crate) fn push_heat(
    bytes: &mut Vec<u8>,
    page: &Page,
    longest: u128,
    name: &NameText,
) -> Result<(), AllocError>
    ensures { OnOk result (bytes.new.items ≡ bytes.old.items ++ heat_text page.now longest name.now) }
{
    push_heat_start(bytes)?;
    push_found(bytes, longest, page.buckets(), page.ranks(), name)?;
    push_heat_end(bytes)
}
