ghost use Rattle.std.specs.Prelude.{◌≡◌, ◌≤◌, ◌<◌, ◌^◌, ◌++◌, length, List, OnOk, take};
ghost use Rattle.std.specs.List.{flat_map};
ghost use Rattle.ranking_picture.specs.declared.ranked_row.RankedRow.{RankedRow as Ranked};
ghost use Rattle.ranking_picture.specs.Rankings.{IsRanking};
ghost use Rattle.ranking_picture.specs.Strips.{all_time};
ghost use Rattle.ranking_picture.specs.Tables.{between_time, ranking_text, rest_time, row_text};
ghost use Rattle.ranking_picture.specs.Tables.{rows_text, scale_of, time_of_rows};

use crate::strip::push_strip;
use crate::table::{MOST_ROWS, push_between, push_off, push_others, push_rest, push_row};
use crate::texts::{push_ranking_end, push_ranking_start, push_table_end, push_table_start};
use crate::{RankedRow, Scale, rank_segments};
use page_rows::Page;
use std::alloc::{AllocError, Global};

/// Lends the first so many rows.
fn first_rows(ranking: &[RankedRow], count: usize) -> &[RankedRow]
    ensures { result.now ≡ take count ranking.now }
{
    let count = ranking.len().min(count);
    &ranking[..count]
}

/// Adds up the time of at most 24 rows.
fn time_of_rows(rows: &[RankedRow]) -> u128
    requires { length rows.now ≤ 24 }
    ensures value { result ≡ time_of_rows rows.now }
    ensures small { result < 2 ^ 90 }
{
    let mut time = 0;
    'rows: for row in rows {
        time += row.critical.get();
    }
    time
}

/// Finds all latency, and at least the time on critical paths.
fn all_time(page: &Page) -> u128
    ensures value { result ≡ all_time page.now }
    ensures small { result < 2 ^ 80 }
{
    page.report().critical.get().max(page.latency().sum.get())
}

/// Finds the time between segments.
fn between_time(page: &Page) -> u128
    ensures value { result ≡ between_time page.now }
    ensures small { result < 2 ^ 80 }
{
    all_time(page).saturating_sub(page.report().critical.get())
}

/// Finds the time on critical paths of the segments behind the first 24.
fn rest_time(critical: u128, ranking: &[RankedRow]) -> u128
    ensures value { result ≡ rest_time critical ranking.now }
    ensures most { result ≤ critical }
{
    critical.saturating_sub(time_of_rows(first_rows(ranking, MOST_ROWS)))
}

/// Finds the scale of the table.
fn scale_of(page: &Page, ranking: &[RankedRow]) -> Scale
    ensures value { result ≡ scale_of page.now ranking.now }
    ensures small { result.all < 2 ^ 90 }
{
    let longest = time_of_rows(first_rows(ranking, 1));
    let rest = rest_time(page.report().critical.get(), ranking);
    Scale {
        all: all_time(page),
        loads: page.report().traces.get(),
        width: between_time(page).max(rest).max(longest),
    }
}

/// Appends the rows of segments.
fn push_segments(bytes: &mut Vec<u8>, scale: Scale, rows: &[RankedRow]) -> Result<(), AllocError>
    requires { scale.all < 2 ^ 90 }
    ensures { OnOk result (bytes.new.items ≡ bytes.old.items ++ flat_map (row_text scale) rows.now) }
{
    'rows: for row in rows {
        push_row(bytes, scale, row)?;
    }
    Ok(())
}

/// Appends the rows of the table.
#[tactic(auto, unfolding(crate::specs::Tables::rows_text))]
fn push_rows(bytes: &mut Vec<u8>, page: &Page, ranking: &[RankedRow]) -> Result<(), AllocError>
    ensures { OnOk result (bytes.new.items ≡ bytes.old.items ++ rows_text page.now ranking.now) }
{
    let scale = scale_of(page, ranking);
    let rest = rest_time(page.report().critical.get(), ranking);
    push_segments(bytes, scale, first_rows(ranking, MOST_ROWS))?;
    push_rest(bytes, scale, rest, ranking.len().saturating_sub(MOST_ROWS))?;
    push_between(bytes, scale, between_time(page))
}

/// Appends a ranking.
#[tactic(auto, unfolding(crate::specs::Tables::ranking_text))]
fn push_ranked(bytes: &mut Vec<u8>, page: &Page, ranking: &[RankedRow]) -> Result<(), AllocError>
    ensures { OnOk result (bytes.new.items ≡ bytes.old.items ++ ranking_text page.now ranking.now) }
{
    let segments = page.segments().len();
    push_ranking_start(bytes)?;
    push_strip(bytes, all_time(page), page.report().critical.get(), ranking)?;
    push_table_start(bytes)?;
    push_rows(bytes, page, ranking)?;
    push_table_end(bytes)?;
    push_others(bytes, ranking)?;
    push_off(bytes, segments.saturating_sub(ranking.len()), segments)?;
    push_ranking_end(bytes)
}

/// Appends the ranking of a page. The only error is out of memory, after which the bytes may end in
/// the middle of it.
pub fn push_ranking(alloc: Global, bytes: &mut Vec<u8>, page: &Page) -> Result<(), AllocError>
    ensures { OnOk result ((ranking : List Ranked) × IsRanking page.now ranking
        × (bytes.new.items ≡ bytes.old.items ++ ranking_text page.now ranking)) }
{
    let ranking = rank_segments(alloc, page)?;
    push_ranked(bytes, page, &ranking)
}
