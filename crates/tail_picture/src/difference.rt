ghost use Rattle.std.specs.Prelude.{◌≡◌, ◌<◌, ◌^◌, ◌++◌, OnOk};
ghost use Rattle.page_rows.specs.declared.tail_rows.BucketRow.{BucketRow as Bucket};
ghost use Rattle.tail_picture.specs.Tails.{apart_of, difference_text, last_figure, others_of};
ghost use Rattle.tail_picture.specs.Tails.{rest_latency, rest_path, sign_of, slow_latency};
ghost use Rattle.tail_picture.specs.Tails.{slow_path, slow_path_sum, slow_sum, whole_text};

use markup::{Piece, push_pieces};
use page_rows::{BucketRow, Page, TailHead};
use picture_parts::mean_of;
use std::alloc::AllocError;

/// Tells how many loads are not slow.
pub(crate) fn others_of(head: &TailHead) -> u128
    ensures { result ≡ others_of head.now }
{
    head.traces.get().saturating_sub(head.slow.get())
}

/// Tells how far two numbers are apart.
pub(crate) fn apart_of(slow: u128, rest: u128) -> u128
    ensures { result ≡ apart_of slow rest }
{
    if slow < rest {
        rest - slow
    } else {
        slow - rest
    }
}

/// Lends the sign of the first number less the second.
pub(crate) fn sign_of(slow: u128, rest: u128) -> &'static str
    ensures { result.now ≡ sign_of slow rest }
{
    if slow < rest { "-" } else { "+" }
}

/// Finds the latencies of the last rank together.
fn last_latency(buckets: &[BucketRow]) -> u128
    ensures { result ≡ last_figure (λ (b : Bucket). b.latency) buckets.now }
{
    match buckets.get(buckets.len().saturating_sub(1)) {
        Some(bucket) => bucket.latency.get(),
        None => 0,
    }
}

/// Finds how long their critical paths are together.
fn last_length(buckets: &[BucketRow]) -> u128
    ensures { result ≡ last_figure (λ (b : Bucket). b.length) buckets.now }
{
    match buckets.get(buckets.len().saturating_sub(1)) {
        Some(bucket) => bucket.length.get(),
        None => 0,
    }
}

/// Finds the latencies of the slow loads together: those of the last rank.
fn slow_sum(page: &Page) -> u128
    ensures { result ≡ slow_sum page.now }
{
    last_latency(page.buckets())
}

/// Finds how long their critical paths are together.
fn slow_path_sum(page: &Page) -> u128
    ensures { result ≡ slow_path_sum page.now }
{
    last_length(page.buckets())
}

/// Finds the mean latency of a slow load.
fn slow_latency(page: &Page) -> u128
    ensures { result ≡ slow_latency page.now }
{
    mean_of(slow_sum(page), page.tail().slow.get())
}

/// Finds the mean latency of another load.
fn rest_latency(page: &Page) -> u128
    ensures { result ≡ rest_latency page.now }
{
    let sum = page.latency().sum.get();
    mean_of(sum.saturating_sub(slow_sum(page)), others_of(page.tail()))
}

/// Finds the mean length of a critical path of a slow load.
fn slow_path(page: &Page) -> u128
    ensures { result ≡ slow_path page.now }
{
    mean_of(slow_path_sum(page), page.tail().slow.get())
}

/// Finds the mean length of a critical path of another load.
fn rest_path(page: &Page) -> u128
    ensures { result ≡ rest_path page.now }
{
    let sum = page.report().critical.get();
    mean_of(
        sum.saturating_sub(slow_path_sum(page)),
        others_of(page.tail()),
    )
}

/// Appends by how much a slow load is longer, with what it takes and what others do: on the whole,
/// on its critical path and between its segments.
fn push_whole(
    bytes: &mut Vec<u8>,
    latency: u128,
    others: u128,
    path: u128,
    other_path: u128,
    between: u128,
    other_between: u128,
) -> Result<(), AllocError>
    ensures { OnOk result (bytes.new.items ≡ bytes.old.items
        ++ whole_text latency others path other_path between other_between) }
{
    let latency_sign = sign_of(latency, others);
    let latency_apart = apart_of(latency, others);
    let path_sign = sign_of(path, other_path);
    let path_apart = apart_of(path, other_path);
    let between_sign = sign_of(between, other_between);
    let between_apart = apart_of(between, other_between);
    push_pieces(
        bytes,
        &[
            Piece::Fixed("<p>A slow load takes "),
            Piece::Time(latency),
            Piece::Fixed(" on average, another one "),
            Piece::Time(others),
            Piece::Fixed(": <b>"),
            Piece::Fixed(latency_sign),
            Piece::Time(latency_apart),
            Piece::Fixed("</b>, of which "),
            Piece::Fixed(path_sign),
            Piece::Time(path_apart),
            Piece::Fixed(" on critical paths and "),
            Piece::Fixed(between_sign),
            Piece::Time(between_apart),
            Piece::Fixed(" between segments.</p>"),
        ],
    )
}

/// Appends by how much a slow load is longer, unless all loads are slow, or none.
pub(crate) fn push_difference(bytes: &mut Vec<u8>, page: &Page) -> Result<(), AllocError>
    ensures { OnOk result (bytes.new.items ≡ bytes.old.items ++ difference_text page.now) }
{
    if page.tail().slow.get() == 0 || others_of(page.tail()) == 0 {
        return Ok(());
    }
    let latency = slow_latency(page);
    let others = rest_latency(page);
    let path = slow_path(page);
    let other_path = rest_path(page);
    let between = latency.saturating_sub(path);
    let other_between = others.saturating_sub(other_path);
    push_whole(
        bytes,
        latency,
        others,
        path,
        other_path,
        between,
        other_between,
    )
}
