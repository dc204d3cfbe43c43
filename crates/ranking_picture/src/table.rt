ghost use Rattle.std.specs.Prelude.{◌≡◌, ◌≤◌, ◌<◌, ◌^◌, ◌++◌, OnOk, codes, drop, take};
ghost use Rattle.std.specs.List.{flat_map};
ghost use Rattle.ranking_picture.specs.Tables.{between_text, half_mark, item_text, item_time};
ghost use Rattle.ranking_picture.specs.Tables.{off_count, off_text, other_figures, other_text};
ghost use Rattle.ranking_picture.specs.Tables.{others_list, others_text, per_load};
ghost use Rattle.ranking_picture.specs.Tables.{rest_name, rest_text, row_bars, row_figures, row_text};

use crate::texts::{
    push_between_name, push_others_end, push_others_start, push_picture_start, push_row_start,
};
use crate::{RankedRow, Scale};
use markup::{Piece, Share, push_fixed, push_pieces};
use picture_parts::{place_of, push_bar, push_label, span_of};
use std::alloc::AllocError;

/// How many rows the table shows.
pub(crate) const MOST_ROWS: usize = 24;

/// Finds a time for each load.
fn per_load(time: u128, loads: u128) -> u128
    ensures { result ≡ per_load time loads }
{
    if loads == 0 { 0 } else { time / loads }
}

/// Appends the mark at what a segment gains at half of its time.
fn push_half(bytes: &mut Vec<u8>, place: u32) -> Result<(), AllocError>
    ensures { OnOk result (bytes.new.items ≡ bytes.old.items ++ half_mark place) }
{
    push_pieces(
        bytes,
        &[
            Piece::Fixed("<line class=\"half\" x1=\""),
            Piece::Place(place),
            Piece::Fixed("\" x2=\""),
            Piece::Place(place),
            Piece::Fixed("\" y1=\"1\" y2=\"15\"/>"),
        ],
    )
}

/// Appends the bars of a segment.
#[tactic(auto, unfolding(crate::specs::Tables::row_bars))]
fn push_row_bars(bytes: &mut Vec<u8>, width: u128, row: &RankedRow) -> Result<(), AllocError>
    ensures { OnOk result (bytes.new.items ≡ bytes.old.items ++ row_bars width row.now) }
{
    push_bar(bytes, "path", span_of(0, row.critical.get(), width), 0, 16)?;
    push_bar(bytes, "gain", span_of(0, row.none.get(), width), 4, 8)?;
    push_half(bytes, place_of(row.half.get(), width))
}

/// Appends the figures of a segment.
fn push_row_figures(bytes: &mut Vec<u8>, scale: Scale, row: &RankedRow) -> Result<(), AllocError>
    requires { scale.all < 2 ^ 90 }
    ensures { OnOk result (bytes.new.items ≡ bytes.old.items ++ row_figures scale row.now) }
{
    let critical = row.critical.get();
    let share = Share::of(critical, scale.all);
    let time = per_load(critical, scale.loads);
    let gain = per_load(row.none.get(), scale.loads);
    let paths = row.on_path.get();
    push_pieces(
        bytes,
        &[
            Piece::Fixed("</svg><td>"),
            Piece::Share(share),
            Piece::Fixed("<td>"),
            Piece::Time(time),
            Piece::Fixed("<td>"),
            Piece::Time(gain),
            Piece::Fixed("<td>"),
            Piece::Number(paths),
            Piece::Fixed("</tr>"),
        ],
    )
}

/// Appends the row of a segment.
#[tactic(auto, unfolding(crate::specs::Tables::row_text))]
pub(crate) fn push_row(bytes: &mut Vec<u8>, scale: Scale, row: &RankedRow) -> Result<(), AllocError>
    requires { scale.all < 2 ^ 90 }
    ensures { OnOk result (bytes.new.items ≡ bytes.old.items ++ row_text scale row.now) }
{
    push_row_start(bytes)?;
    push_label(bytes, &row.name)?;
    push_picture_start(bytes)?;
    push_row_bars(bytes, scale.width, row)?;
    push_row_figures(bytes, scale, row)
}

/// Appends the figures of a time that is no segment's.
fn push_other_figures(bytes: &mut Vec<u8>, scale: Scale, time: u128) -> Result<(), AllocError>
    requires all { scale.all < 2 ^ 90 }
    requires time { time < 2 ^ 90 }
    ensures { OnOk result (bytes.new.items ≡ bytes.old.items ++ other_figures scale time) }
{
    let share = Share::of(time, scale.all);
    let mean = per_load(time, scale.loads);
    push_pieces(
        bytes,
        &[
            Piece::Fixed("</svg><td>"),
            Piece::Share(share),
            Piece::Fixed("<td>"),
            Piece::Time(mean),
            Piece::Fixed("<td><td></tr>"),
        ],
    )
}

/// Appends the picture and the figures of a time that is no segment's.
#[tactic(auto, unfolding(crate::specs::Tables::other_text))]
fn push_other(bytes: &mut Vec<u8>, scale: Scale, class: &str, time: u128) -> Result<(), AllocError>
    requires all { scale.all < 2 ^ 90 }
    requires time { time < 2 ^ 90 }
    ensures { OnOk result (bytes.new.items ≡ bytes.old.items ++ other_text scale class.now time) }
{
    push_picture_start(bytes)?;
    push_bar(bytes, class, span_of(0, time, scale.width), 0, 16)?;
    push_other_figures(bytes, scale, time)
}

/// Appends the name of the row for so many segments.
fn push_rest_name(bytes: &mut Vec<u8>, count: usize) -> Result<(), AllocError>
    ensures { OnOk result (bytes.new.items ≡ bytes.old.items ++ rest_name count) }
{
    push_pieces(
        bytes,
        &[
            Piece::Fixed("<tr class=\"rest\"><td class=\"n\">the rest: "),
            Piece::Number(count as u128),
            Piece::Fixed(" segments"),
        ],
    )
}

/// Appends the row for the segments behind the first 24, if there are any.
pub(crate) fn push_rest(
    bytes: &mut Vec<u8>,
    scale: Scale,
    time: u128,
    count: usize,
) -> Result<(), AllocError>
    requires all { scale.all < 2 ^ 90 }
    requires time { time < 2 ^ 90 }
    ensures { OnOk result (bytes.new.items ≡ bytes.old.items ++ rest_text scale time count) }
{
    if count == 0 {
        return Ok(());
    }
    push_rest_name(bytes, count)?;
    push_other(bytes, scale, "path2", time)
}

/// Appends the row for the time between segments.
#[tactic(auto, unfolding(crate::specs::Tables::between_text))]
pub(crate) fn push_between(bytes: &mut Vec<u8>, scale: Scale, time: u128) -> Result<(), AllocError>
    requires all { scale.all < 2 ^ 90 }
    requires time { time < 2 ^ 90 }
    ensures { OnOk result (bytes.new.items ≡ bytes.old.items ++ between_text scale time) }
{
    push_between_name(bytes)?;
    push_other(bytes, scale, "wait", time)
}

/// Appends the time of a segment behind the first 24.
fn push_item_time(bytes: &mut Vec<u8>, time: u128) -> Result<(), AllocError>
    ensures { OnOk result (bytes.new.items ≡ bytes.old.items ++ item_time time) }
{
    push_pieces(
        bytes,
        &[Piece::Fixed(" "), Piece::Time(time), Piece::Fixed("</li>")],
    )
}

/// Appends a segment behind the first 24, by name.
#[tactic(auto, unfolding(crate::specs::Tables::item_text))]
fn push_item(bytes: &mut Vec<u8>, row: &RankedRow) -> Result<(), AllocError>
    ensures { OnOk result (bytes.new.items ≡ bytes.old.items ++ item_text row.now) }
{
    push_fixed(bytes, "<li>")?;
    push_label(bytes, &row.name)?;
    push_item_time(bytes, row.critical.get())
}

/// Appends segments by name.
fn push_items(bytes: &mut Vec<u8>, rows: &[RankedRow]) -> Result<(), AllocError>
    ensures { OnOk result (bytes.new.items ≡ bytes.old.items ++ flat_map item_text rows.now) }
{
    'rows: for row in rows {
        push_item(bytes, row)?;
    }
    Ok(())
}

/// Lends the rows behind the first 24.
fn other_rows(ranking: &[RankedRow]) -> &[RankedRow]
    ensures { result.now ≡ drop 24 ranking.now }
{
    let count = ranking.len().min(MOST_ROWS);
    &ranking[count..]
}

/// Appends all segments behind the first 24, by name.
#[tactic(auto, unfolding(crate::specs::Tables::others_list))]
fn push_others_list(bytes: &mut Vec<u8>, ranking: &[RankedRow]) -> Result<(), AllocError>
    ensures { OnOk result (bytes.new.items ≡ bytes.old.items ++ others_list ranking.now) }
{
    push_others_start(bytes)?;
    push_items(bytes, other_rows(ranking))?;
    push_others_end(bytes)
}

/// Appends the segments behind the first 24, if there are any.
pub(crate) fn push_others(bytes: &mut Vec<u8>, ranking: &[RankedRow]) -> Result<(), AllocError>
    ensures { OnOk result (bytes.new.items ≡ bytes.old.items ++ others_text ranking.now) }
{
    if ranking.len() <= MOST_ROWS {
        return Ok(());
    }
    push_others_list(bytes, ranking)
}

/// Appends a number of segments that are on no critical path.
fn push_off_count(bytes: &mut Vec<u8>, off: usize, all: usize) -> Result<(), AllocError>
    ensures { OnOk result (bytes.new.items ≡ bytes.old.items ++ off_count off all) }
{
    push_pieces(
        bytes,
        &[
            Piece::Fixed("<p class=\"note\">"),
            Piece::Number(off as u128),
            Piece::Fixed(" of "),
            Piece::Number(all as u128),
            Piece::Fixed(" segments are on no critical path and so not in this list.</p>"),
        ],
    )
}

/// Appends how many segments are on no critical path, unless none is.
pub(crate) fn push_off(bytes: &mut Vec<u8>, off: usize, all: usize) -> Result<(), AllocError>
    ensures { OnOk result (bytes.new.items ≡ bytes.old.items ++ off_text off all) }
{
    if off == 0 {
        return Ok(());
    }
    push_off_count(bytes, off, all)
}
