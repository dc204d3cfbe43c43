ghost use Rattle.std.specs.Prelude.{◌≡◌, ◌++◌, ◌<◌, ◌^◌, OnOk};
ghost use Rattle.std.specs.List.{flat_map};
ghost use Rattle.room_picture.specs.Rooms.{axis_text, grid_line, is_reached, line_text, tick_text};

use crate::room_place;
use crate::scale::{DECADES, base_of, steps_to};
use crate::texts::{push_lines_start, push_rows_start, push_table_start};
use markup::{Piece, push_pieces};
use std::alloc::AllocError;

/// Tells whether a scale reaches a power of ten.
fn is_reached(least: u128, full: u128, power: u128) -> bool
    requires least { least < 2 ^ 80 }
    requires power { power < 2 ^ 80 }
    ensures { result ≡ is_reached least full power }
{
    base_of(least) <= steps_to(power) && power <= full
}

/// Appends the text of a decade on the axis, where the scale reaches it.
#[tactic(auto, unfolding(crate::specs::Rooms::tick_text))]
fn push_tick(bytes: &mut Vec<u8>, least: u128, full: u128, power: u64) -> Result<(), AllocError>
    requires least { least < 2 ^ 80 }
    requires full { full < 2 ^ 80 }
    ensures { OnOk result (bytes.new.items ≡ bytes.old.items ++ tick_text least full power) }
{
    let power = u128::from(power);
    if !is_reached(least, full, power) {
        return Ok(());
    }
    push_pieces(
        bytes,
        &[
            Piece::Fixed("<text x=\""),
            Piece::Place(room_place(least, full, power)),
            Piece::Fixed("\" y=\"11\">"),
            Piece::Time(power),
            Piece::Fixed("</text>"),
        ],
    )
}

/// Appends the line at a place on the scale.
#[tactic(auto, unfolding(crate::specs::Rooms::grid_line))]
fn push_grid_line(bytes: &mut Vec<u8>, place: u32) -> Result<(), AllocError>
    ensures { OnOk result (bytes.new.items ≡ bytes.old.items ++ grid_line place) }
{
    push_pieces(
        bytes,
        &[
            Piece::Fixed("<line class=\"grid\" x1=\""),
            Piece::Place(place),
            Piece::Fixed("\" x2=\""),
            Piece::Place(place),
            Piece::Fixed("\" y1=\"0\" y2=\"22\"/>"),
        ],
    )
}

/// Appends the line of a decade, where the scale reaches it.
#[tactic(auto, unfolding(crate::specs::Rooms::line_text))]
fn push_line(bytes: &mut Vec<u8>, least: u128, full: u128, power: u64) -> Result<(), AllocError>
    requires least { least < 2 ^ 80 }
    requires full { full < 2 ^ 80 }
    ensures { OnOk result (bytes.new.items ≡ bytes.old.items ++ line_text least full power) }
{
    let power = u128::from(power);
    if !is_reached(least, full, power) {
        return Ok(());
    }
    push_grid_line(bytes, room_place(least, full, power))
}

/// Appends the texts of these decades on the axis.
fn push_ticks(
    bytes: &mut Vec<u8>,
    least: u128,
    full: u128,
    powers: &[u64],
) -> Result<(), AllocError>
    requires least { least < 2 ^ 80 }
    requires full { full < 2 ^ 80 }
    ensures { OnOk result
        (bytes.new.items ≡ bytes.old.items ++ flat_map (tick_text least full) powers.now) }
{
    'powers: for power in powers {
        push_tick(bytes, least, full, *power)?;
    }
    Ok(())
}

/// Appends the lines of these decades on the axis.
fn push_lines(
    bytes: &mut Vec<u8>,
    least: u128,
    full: u128,
    powers: &[u64],
) -> Result<(), AllocError>
    requires least { least < 2 ^ 80 }
    requires full { full < 2 ^ 80 }
    ensures { OnOk result
        (bytes.new.items ≡ bytes.old.items ++ flat_map (line_text least full) powers.now) }
{
    'powers: for power in powers {
        push_line(bytes, least, full, *power)?;
    }
    Ok(())
}

/// Appends the head of the table, with its axis from a time to another.
#[tactic(auto, unfolding(crate::specs::Rooms::axis_text))]
pub(crate) fn push_axis(bytes: &mut Vec<u8>, least: u128, full: u128) -> Result<(), AllocError>
    requires least { least < 2 ^ 80 }
    requires full { full < 2 ^ 80 }
    ensures { OnOk result (bytes.new.items ≡ bytes.old.items ++ axis_text least full) }
{
    push_table_start(bytes)?;
    push_ticks(bytes, least, full, &DECADES)?;
    push_lines_start(bytes)?;
    push_lines(bytes, least, full, &DECADES)?;
    push_rows_start(bytes)
}
