ghost use Rattle.std.specs.Prelude.{◌≡◌, ◌≤◌, ◌<◌, ◌^◌, ◌++◌, OnOk, length, ◌==◌};
ghost use Rattle.matrix_picture.specs.Matrices.{cell_text, counts_text, mark_text, shown_text};
ghost use Rattle.matrix_picture.specs.Matrices.{square_text};
ghost use Rattle.matrix_picture.specs.Places.{mark_place};

use crate::Mark;
use crate::labels::{cell_edge, push_box_name};
use crate::mark::{class_of, edge_of, mark_of};
use markup::{Piece, push_fixed, push_pieces};
use page_rows::{BetweenRow, BoxRow};
use std::alloc::AllocError;

/// Finds where a mark of this edge begins in the cell with this number.
fn mark_place(number: u128, cell: u32, edge: u32) -> u128
    requires number { number < 2 ^ 80 }
    requires cell { cell ≤ 16 }
    ensures value { result ≡ mark_place number cell edge }
    ensures small { result < 2 ^ 90 }
{
    number * u128::from(cell) + u128::from(cell.saturating_sub(edge) / 2)
}

/// Appends the square of a mark.
fn push_square(
    bytes: &mut Vec<u8>,
    mark: Mark,
    cell: u32,
    row: &BetweenRow,
) -> Result<(), AllocError>
    requires least { 9 ≤ cell }
    requires most { cell ≤ 16 }
    ensures { OnOk result (bytes.new.items ≡ bytes.old.items ++ square_text mark cell row.now) }
{
    let edge = edge_of(mark, cell, row);
    let x = mark_place(row.second.get(), cell, edge);
    let y = mark_place(row.first.get(), cell, edge);
    let class = class_of(mark);
    push_pieces(
        bytes,
        &[
            Piece::Fixed("<rect class=\""),
            Piece::Fixed(class),
            Piece::Fixed("\" x=\""),
            Piece::Number(220 + x),
            Piece::Fixed("\" y=\""),
            Piece::Number(y),
            Piece::Fixed("\" width=\""),
            Piece::Number(u128::from(edge)),
            Piece::Fixed("\" height=\""),
            Piece::Number(u128::from(edge)),
            Piece::Fixed("\"><title>"),
        ],
    )
}

/// Appends what a title says behind its two names.
fn push_counts(bytes: &mut Vec<u8>, row: &BetweenRow) -> Result<(), AllocError>
    ensures { OnOk result (bytes.new.items ≡ bytes.old.items ++ counts_text row.now) }
{
    let before = row.before.get();
    let both = row.both.get();
    let exclusive = row.exclusive.get();
    push_pieces(
        bytes,
        &[
            Piece::Fixed(": before in "),
            Piece::Number(before),
            Piece::Fixed(" of "),
            Piece::Number(both),
            Piece::Fixed(" pairs, exclusive in "),
            Piece::Number(exclusive),
            Piece::Fixed("</title></rect>"),
        ],
    )
}

/// Appends a mark with its title.
#[tactic(auto, unfolding(crate::specs::Matrices::mark_text))]
fn push_mark(
    bytes: &mut Vec<u8>,
    mark: Mark,
    cell: u32,
    boxes: &[BoxRow],
    row: &BetweenRow,
) -> Result<(), AllocError>
    requires least { 9 ≤ cell }
    requires most { cell ≤ 16 }
    ensures { OnOk result
        (bytes.new.items ≡ bytes.old.items ++ mark_text mark cell boxes.now row.now) }
{
    push_square(bytes, mark, cell, row)?;
    push_box_name(bytes, boxes, row.first.get())?;
    push_fixed(bytes, " / ")?;
    push_box_name(bytes, boxes, row.second.get())?;
    push_counts(bytes, row)
}

/// Appends a mark, if there is something to show.
fn push_shown(
    bytes: &mut Vec<u8>,
    mark: Mark,
    cell: u32,
    boxes: &[BoxRow],
    row: &BetweenRow,
) -> Result<(), AllocError>
    requires least { 9 ≤ cell }
    requires most { cell ≤ 16 }
    ensures { OnOk result
        (bytes.new.items ≡ bytes.old.items ++ shown_text mark cell boxes.now row.now) }
{
    match mark {
        Mark::Nothing => Ok(()),
        Mark::Full | Mark::Part | Mark::Exclusive | Mark::Overlap => push_mark(
            bytes, mark, cell, boxes, row,
        ),
    }
}

/// Appends the cell of two boxes, if both are in the matrix and there is something to show.
#[tactic(auto, unfolding(crate::specs::Matrices::cell_text))]
pub(crate) fn push_cell(
    bytes: &mut Vec<u8>,
    boxes: &[BoxRow],
    row: &BetweenRow,
) -> Result<(), AllocError>
    ensures { OnOk result (bytes.new.items ≡ bytes.old.items ++ cell_text boxes.now row.now) }
{
    let count = boxes.len() as u128;
    if row.first.get() < count && row.second.get() < count {
        return push_shown(bytes, mark_of(row), cell_edge(boxes.len()), boxes, row);
    }
    Ok(())
}
