ghost use Rattle.std.specs.Prelude.{◌≡◌, ◌≤◌, ◌<◌, ◌^◌, ◌++◌, OnOk};
ghost use Rattle.std.specs.List.{flat_map};
ghost use Rattle.head_picture.specs.Heads.{column_bars, column_text, column_title, columns_text};

use crate::texts::{push_columns_end, push_columns_start};
use markup::{Piece, push_fixed, push_pieces};
use page_rows::{BucketRow, Page};
use picture_parts::{Span, column_of, mean_of, part_of, push_bar};
use std::alloc::AllocError;

/// Appends what is said of a rank.
fn push_column_title(
    bytes: &mut Vec<u8>,
    loads: u128,
    latency: u128,
    length: u128,
) -> Result<(), AllocError>
    ensures { OnOk result (bytes.new.items ≡ bytes.old.items ++ column_title loads latency length) }
{
    push_pieces(
        bytes,
        &[
            Piece::Fixed("<g><title>Loads: "),
            Piece::Number(loads),
            Piece::Fixed(", mean "),
            Piece::Time(latency),
            Piece::Fixed(", of it on critical paths "),
            Piece::Time(length),
            Piece::Fixed("</title>"),
        ],
    )
}

/// Appends a column of so many pixels, the lower of which are on critical paths.
#[tactic(auto, unfolding(crate::specs::Heads::column_bars))]
fn push_column_bars(bytes: &mut Vec<u8>, span: Span, all: u32, path: u32) -> Result<(), AllocError>
    requires all { all ≤ 50 }
    requires path { path ≤ 50 }
    ensures { OnOk result (bytes.new.items ≡ bytes.old.items ++ column_bars span all path) }
{
    push_bar(bytes, "wait", span, 52 - all, all.saturating_sub(path))?;
    push_bar(bytes, "path", span, 52 - path, path)?;
    push_fixed(bytes, "</g>")
}

/// Appends the column of a rank of so many.
#[tactic(auto, unfolding(crate::specs::Heads::column_text))]
fn push_column(
    bytes: &mut Vec<u8>,
    count: usize,
    most: u128,
    bucket: &BucketRow,
) -> Result<(), AllocError>
    ensures { OnOk result (bytes.new.items ≡ bytes.old.items ++ column_text count most bucket.now) }
{
    let loads = bucket.loads.get();
    let sum = bucket.latency.get();
    let latency = mean_of(sum, loads);
    let length = mean_of(bucket.length.get().min(sum), loads);
    push_column_title(bytes, loads, latency, length)?;
    let span = column_of(count, bucket.number.get());
    push_column_bars(
        bytes,
        span,
        part_of(50, latency, most),
        part_of(50, length, most),
    )
}

/// Appends the columns of ranks of so many.
fn push_ranks(
    bytes: &mut Vec<u8>,
    count: usize,
    most: u128,
    buckets: &[BucketRow],
) -> Result<(), AllocError>
    ensures { OnOk result
        (bytes.new.items ≡ bytes.old.items ++ flat_map (column_text count most) buckets.now) }
{
    'buckets: for bucket in buckets {
        push_column(bytes, count, most, bucket)?;
    }
    Ok(())
}

/// Appends the columns of all ranks.
#[tactic(auto, unfolding(crate::specs::Heads::columns_text))]
pub(crate) fn push_columns(bytes: &mut Vec<u8>, page: &Page) -> Result<(), AllocError>
    ensures { OnOk result (bytes.new.items ≡ bytes.old.items ++ columns_text page.now) }
{
    let buckets = page.buckets();
    let most = page.latency().greatest.get();
    push_columns_start(bytes)?;
    push_ranks(bytes, buckets.len(), most, buckets)?;
    push_columns_end(bytes)
}
