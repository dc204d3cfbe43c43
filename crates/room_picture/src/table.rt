ghost use Rattle.std.specs.Prelude.{◌≡◌, ◌++◌, ◌<◌, ◌^◌, List, OnOk, take};
ghost use Rattle.std.specs.List.{flat_map};
ghost use Rattle.page_rows.specs.declared.gain_rows.RoomRow.{RoomRow as Room};
ghost use Rattle.room_picture.specs.Rooms.{IsRoomOrder, count_text, least_of, median_mark};
ghost use Rattle.room_picture.specs.Rooms.{more_text, rooms_text, row_bars, row_figures, row_least};
ghost use Rattle.room_picture.specs.Rooms.{row_text, shown_text, table_text, tight_count};
ghost use Rattle.room_picture.specs.Rooms.{tight_text, time_or};

use crate::scale::room_span;
use crate::texts::{
    push_key, push_picture_start, push_rooms_end, push_rooms_start, push_row_start, push_table_end,
};
use crate::ticks::push_axis;
use crate::{order_rooms, room_place};
use markup::{Piece, push_pieces};
use page_rows::{Amount, Page, RoomRow};
use picture_parts::{push_bar, push_label};
use std::alloc::{AllocError, Global};

/// How many rows the table shows.
const MOST_ROWS: usize = 24;

/// Appends the mark at a median.
#[tactic(auto, unfolding(crate::specs::Rooms::median_mark))]
fn push_median(bytes: &mut Vec<u8>, place: u32) -> Result<(), AllocError>
    ensures { OnOk result (bytes.new.items ≡ bytes.old.items ++ median_mark place) }
{
    push_pieces(
        bytes,
        &[
            Piece::Fixed("<line class=\"med\" x1=\""),
            Piece::Place(place),
            Piece::Fixed("\" x2=\""),
            Piece::Place(place),
            Piece::Fixed("\" y1=\"3\" y2=\"20\"/>"),
        ],
    )
}

/// Appends the picture of a name.
#[tactic(auto, unfolding(crate::specs::Rooms::row_bars))]
fn push_row_bars(
    bytes: &mut Vec<u8>,
    least: u128,
    full: u128,
    row: &RoomRow,
) -> Result<(), AllocError>
    requires least { least < 2 ^ 80 }
    requires full { full < 2 ^ 80 }
    ensures { OnOk result (bytes.new.items ≡ bytes.old.items ++ row_bars least full row.now) }
{
    let range = room_span(least, full, row.least.get(), row.greatest.get());
    push_bar(bytes, "range", range, 10, 3)?;
    let middle = room_span(least, full, row.tenth.get(), row.ninetieth.get());
    push_bar(bytes, "box", middle, 5, 13)?;
    push_median(bytes, room_place(least, full, row.median.get()))
}

/// Appends the figures of a name.
fn push_row_figures(bytes: &mut Vec<u8>, row: &RoomRow) -> Result<(), AllocError>
    ensures { OnOk result (bytes.new.items ≡ bytes.old.items ++ row_figures row.now) }
{
    let tenth = row.tenth.get();
    let median = row.median.get();
    let zero = row.zero.get();
    let count = row.count.get();
    push_pieces(
        bytes,
        &[
            Piece::Fixed("</svg><td>&ge; "),
            Piece::Time(tenth),
            Piece::Fixed("<td>"),
            Piece::Time(median),
            Piece::Fixed("<td>"),
            Piece::Number(zero),
            Piece::Fixed("<small>/"),
            Piece::Number(count),
            Piece::Fixed("</small></tr>"),
        ],
    )
}

/// Appends the row of a name.
#[tactic(auto, unfolding(crate::specs::Rooms::row_text))]
fn push_row(bytes: &mut Vec<u8>, least: u128, full: u128, row: &RoomRow) -> Result<(), AllocError>
    requires least { least < 2 ^ 80 }
    requires full { full < 2 ^ 80 }
    ensures { OnOk result (bytes.new.items ≡ bytes.old.items ++ row_text least full row.now) }
{
    push_row_start(bytes)?;
    push_label(bytes, &row.name)?;
    push_picture_start(bytes)?;
    push_row_bars(bytes, least, full, row)?;
    push_row_figures(bytes, row)
}

/// Appends rows.
fn push_rows(
    bytes: &mut Vec<u8>,
    least: u128,
    full: u128,
    rows: &[RoomRow],
) -> Result<(), AllocError>
    requires least { least < 2 ^ 80 }
    requires full { full < 2 ^ 80 }
    ensures { OnOk result
        (bytes.new.items ≡ bytes.old.items ++ flat_map (row_text least full) rows.now) }
{
    'rows: for row in rows {
        push_row(bytes, least, full, row)?;
    }
    Ok(())
}

/// Lends the first 24 rows.
fn first_rows(rows: &[RoomRow]) -> &[RoomRow]
    ensures { result.now ≡ take 24 rows.now }
{
    let count = rows.len().min(MOST_ROWS);
    &rows[..count]
}

/// Finds a time, of which 0 says nothing: it stands for that of the slowest load.
fn time_or(full: u128, time: &Amount) -> u128
    requires { full < 2 ^ 80 }
    ensures value { result ≡ time_or full time.now }
    ensures small { result < 2 ^ 80 }
{
    let time = time.get();
    if time == 0 { full } else { time }
}

/// Finds the least time over 0 that the picture of a name shows.
fn row_least(full: u128, row: &RoomRow) -> u128
    requires { full < 2 ^ 80 }
    ensures value { result ≡ row_least full row.now }
    ensures small { result < 2 ^ 80 }
{
    let last = time_or(full, &row.ninetieth).min(time_or(full, &row.greatest));
    let middle = time_or(full, &row.median).min(last);
    let first = time_or(full, &row.tenth).min(middle);
    time_or(full, &row.least).min(first)
}

/// Finds the least that those of rows show.
fn least_of(full: u128, rows: &[RoomRow]) -> u128
    requires { full < 2 ^ 80 }
    ensures value { result ≡ least_of full rows.now }
    ensures small { result < 2 ^ 80 }
{
    let mut least = full;
    'rows: for row in rows {
        least = row_least(full, row).min(least);
    }
    least
}

/// Appends the table of these rows.
#[tactic(auto, unfolding(crate::specs::Rooms::table_text))]
fn push_table(bytes: &mut Vec<u8>, full: u128, rows: &[RoomRow]) -> Result<(), AllocError>
    requires { full < 2 ^ 80 }
    ensures { OnOk result (bytes.new.items ≡ bytes.old.items ++ table_text full rows.now) }
{
    let least = least_of(full, rows);
    push_key(bytes)?;
    push_axis(bytes, least, full)?;
    push_rows(bytes, least, full, rows)?;
    push_table_end(bytes)
}

/// Appends the table of these rows, unless there is none.
fn push_shown(bytes: &mut Vec<u8>, full: u128, rows: &[RoomRow]) -> Result<(), AllocError>
    requires { full < 2 ^ 80 }
    ensures { OnOk result (bytes.new.items ≡ bytes.old.items ++ shown_text full rows.now) }
{
    if rows.is_empty() {
        return Ok(());
    }
    push_table(bytes, full, rows)
}

/// Appends a number of names that are behind the first 24.
fn push_count(bytes: &mut Vec<u8>, more: usize) -> Result<(), AllocError>
    ensures { OnOk result (bytes.new.items ≡ bytes.old.items ++ count_text more) }
{
    push_pieces(
        bytes,
        &[
            Piece::Fixed("<p class=\"note\">Further segments, which have no more: "),
            Piece::Number(more as u128),
            Piece::Fixed(".</p>"),
        ],
    )
}

/// Appends how many names are behind the first 24, unless none is.
fn push_more(bytes: &mut Vec<u8>, more: usize) -> Result<(), AllocError>
    ensures { OnOk result (bytes.new.items ≡ bytes.old.items ++ more_text more) }
{
    if more == 0 {
        return Ok(());
    }
    push_count(bytes, more)
}

/// Appends a number of names that have no slack.
fn push_tight_count(bytes: &mut Vec<u8>, tight: usize, all: usize) -> Result<(), AllocError>
    ensures { OnOk result (bytes.new.items ≡ bytes.old.items ++ tight_count tight all) }
{
    push_pieces(
        bytes,
        &[
            Piece::Fixed("<p class=\"note\">Without slack in any load: "),
            Piece::Number(tight as u128),
            Piece::Fixed(" of "),
            Piece::Number(all as u128),
            Piece::Fixed(" segments.</p>"),
        ],
    )
}

/// Appends how many names have no slack, unless none is.
fn push_tight(bytes: &mut Vec<u8>, tight: usize, all: usize) -> Result<(), AllocError>
    ensures { OnOk result (bytes.new.items ≡ bytes.old.items ++ tight_text tight all) }
{
    if tight == 0 {
        return Ok(());
    }
    push_tight_count(bytes, tight, all)
}

/// Appends the part on slack, with its rows in order.
#[tactic(auto, unfolding(crate::specs::Rooms::rooms_text))]
fn push_ordered(bytes: &mut Vec<u8>, page: &Page, rows: &[RoomRow]) -> Result<(), AllocError>
    ensures { OnOk result (bytes.new.items ≡ bytes.old.items ++ rooms_text page.now rows.now) }
{
    let all = page.rooms().len();
    push_rooms_start(bytes)?;
    push_shown(bytes, page.latency().greatest.get(), first_rows(rows))?;
    push_more(bytes, rows.len().saturating_sub(MOST_ROWS))?;
    push_tight(bytes, all.saturating_sub(rows.len()), all)?;
    push_rooms_end(bytes)
}

/// Appends the part on slack of a page. The only error is out of memory, after which the bytes may
/// end in the middle of it.
pub fn push_rooms(alloc: Global, bytes: &mut Vec<u8>, page: &Page) -> Result<(), AllocError>
    ensures { OnOk result ((rows : List Room) × IsRoomOrder page.now rows
        × (bytes.new.items ≡ bytes.old.items ++ rooms_text page.now rows)) }
{
    let rows = order_rooms(alloc, page)?;
    push_ordered(bytes, page, &rows)
}
