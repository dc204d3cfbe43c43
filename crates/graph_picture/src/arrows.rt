ghost use Rattle.std.specs.Prelude.{◌≡◌, ◌+◌, ◌≤◌, ◌<◌, ◌^◌, ◌++◌, OnOk};
ghost use Rattle.std.specs.List.{flat_map};
ghost use Rattle.graph_layers.specs.Places.{place_at};
ghost use Rattle.graph_picture.specs.Arrows.{enters_at, leaves_at, line_between, line_text};
ghost use Rattle.graph_picture.specs.Arrows.{turns_at};
ghost use Rattle.graph_picture.specs.Graphs.{arrow_text, exclusive_text, pipe_text};

use crate::relations::is_exclusive;
use graph_layers::Place;
use markup::{Piece, push_pieces};
use page_rows::BetweenRow;
use std::alloc::AllocError;

/// Finds the place of a box.
pub(crate) fn place_at(places: &[Place], number: usize) -> Place
    ensures { result ≡ place_at places.now number }
{
    match places.get(number) {
        Some(place) => *place,
        None => Place { x: 0, y: 0 },
    }
}

/// Finds where a line leaves a box.
fn leaves_at(p: Place, q: Place) -> u128
    ensures value { result ≡ leaves_at p q }
    ensures small { result < 2 ^ 33 }
{
    if q.y < p.y {
        u128::from(p.y)
    } else {
        u128::from(p.y) + 34
    }
}

/// Finds where a line enters a box.
fn enters_at(p: Place, q: Place) -> u128
    ensures value { result ≡ enters_at p q }
    ensures small { result < 2 ^ 33 }
{
    if p.y < q.y {
        u128::from(q.y)
    } else {
        u128::from(q.y) + 34
    }
}

/// Finds the height at which a line turns.
fn turns_at(p: Place, q: Place) -> u128
    ensures { result ≡ turns_at p q }
{
    if p.y == q.y {
        u128::from(p.y) + 54
    } else {
        (leaves_at(p, q) + enters_at(p, q)) / 2
    }
}

/// Finds what is so far from the left edge of a box.
fn shifted(place: Place, x: u32) -> u128
    ensures { result ≡ place.x + x }
{
    u128::from(place.x) + u128::from(x)
}

/// Appends a line of a class, so far from the left edges of its boxes, and what follows it.
fn push_line<'t>(
    bytes: &mut Vec<u8>,
    class: &'t str,
    x: u32,
    end: &'t str,
    p: Place,
    q: Place,
) -> Result<(), AllocError>
    ensures { OnOk result (bytes.new.items ≡ bytes.old.items ++ line_text class.now x end.now p q) }
{
    let left = shifted(p, x);
    let right = shifted(q, x);
    let leaves = leaves_at(p, q);
    let turns = turns_at(p, q);
    let enters = enters_at(p, q);
    push_pieces(
        bytes,
        &[
            Piece::Fixed("<path class=\""),
            Piece::Fixed(class),
            Piece::Fixed("\" d=\"M"),
            Piece::Number(left),
            Piece::Fixed(" "),
            Piece::Number(leaves),
            Piece::Fixed("C"),
            Piece::Number(left),
            Piece::Fixed(" "),
            Piece::Number(turns),
            Piece::Fixed(" "),
            Piece::Number(right),
            Piece::Fixed(" "),
            Piece::Number(turns),
            Piece::Fixed(" "),
            Piece::Number(right),
            Piece::Fixed(" "),
            Piece::Number(enters),
            Piece::Fixed(end),
        ],
    )
}

/// Appends the line between two boxes.
fn push_between<'t>(
    bytes: &mut Vec<u8>,
    places: &[Place],
    class: &'t str,
    x: u32,
    end: &'t str,
    pair: (u32, u32),
) -> Result<(), AllocError>
    ensures { OnOk result
        (bytes.new.items ≡ bytes.old.items ++ line_between places.now class.now x end.now pair) }
{
    let p = place_at(places, pair.0 as usize);
    let q = place_at(places, pair.1 as usize);
    push_line(bytes, class, x, end, p, q)
}

/// Appends the arrows.
pub(crate) fn push_arrows(
    bytes: &mut Vec<u8>,
    places: &[Place],
    pairs: &[(u32, u32)],
) -> Result<(), AllocError>
    ensures { OnOk result
        (bytes.new.items ≡ bytes.old.items ++ flat_map (arrow_text places.now) pairs.now) }
{
    'pairs: for pair in pairs {
        push_between(
            bytes,
            places,
            "hb",
            75,
            "\" marker-end=\"url(#arr)\"/>",
            *pair,
        )?;
    }
    Ok(())
}

/// Appends the pipelines.
pub(crate) fn push_pipes(
    bytes: &mut Vec<u8>,
    places: &[Place],
    pairs: &[(u32, u32)],
) -> Result<(), AllocError>
    ensures { OnOk result
        (bytes.new.items ≡ bytes.old.items ++ flat_map (pipe_text places.now) pairs.now) }
{
    'pairs: for pair in pairs {
        push_between(
            bytes,
            places,
            "pipe",
            90,
            "\" marker-end=\"url(#arp)\"/>",
            *pair,
        )?;
    }
    Ok(())
}

/// Appends the line between two boxes whose names are mutually exclusive, if they are.
fn push_exclusive(
    bytes: &mut Vec<u8>,
    count: u128,
    places: &[Place],
    row: &BetweenRow,
) -> Result<(), AllocError>
    requires { count ≤ 128 }
    ensures { OnOk result
        (bytes.new.items ≡ bytes.old.items ++ exclusive_text count places.now row.now) }
{
    if !is_exclusive(count, row) {
        return Ok(());
    }
    let pair = (row.first.get() as u32, row.second.get() as u32);
    push_between(bytes, places, "mx", 60, "\"/>", pair)
}

/// Appends the lines between boxes whose names are mutually exclusive.
pub(crate) fn push_exclusives(
    bytes: &mut Vec<u8>,
    count: u128,
    places: &[Place],
    rows: &[BetweenRow],
) -> Result<(), AllocError>
    requires { count ≤ 128 }
    ensures { OnOk result
        (bytes.new.items ≡ bytes.old.items ++ flat_map (exclusive_text count places.now) rows.now) }
{
    'rows: for row in rows {
        push_exclusive(bytes, count, places, row)?;
    }
    Ok(())
}
