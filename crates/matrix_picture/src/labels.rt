ghost use Rattle.std.specs.Prelude.{◌≡◌, ◌≤◌, ◌<◌, ◌^◌, ◌++◌, OnOk};
ghost use Rattle.std.specs.List.{flat_map};
ghost use Rattle.matrix_picture.specs.Matrices.{box_label, box_name, box_title, label_if, label_of};
ghost use Rattle.matrix_picture.specs.Matrices.{lower_label, name_if, row_end, row_start};
ghost use Rattle.matrix_picture.specs.Places.{cell_edge};

use markup::{Piece, push_fixed, push_pieces};
use page_rows::BoxRow;
use picture_parts::{push_isolated, push_title};
use std::alloc::AllocError;

/// Gives the edge of a cell in pixels: smaller where there are more boxes.
pub(crate) fn cell_edge(count: usize) -> u32
    ensures value { result ≡ cell_edge count }
    ensures least { 9 ≤ result }
    ensures most { result ≤ 16 }
{
    if count <= 24 {
        16
    } else if count <= 44 {
        12
    } else {
        9
    }
}

/// Appends the label of a box.
#[tactic(auto, unfolding(crate::specs::Matrices::box_label))]
fn push_box_label(bytes: &mut Vec<u8>, row: &BoxRow) -> Result<(), AllocError>
    ensures { OnOk result (bytes.new.items ≡ bytes.old.items ++ box_label row.now) }
{
    push_isolated(bytes, &row.name.task)?;
    if row.name.end.as_str().is_empty() {
        return Ok(());
    }
    push_fixed(bytes, ": ")?;
    push_isolated(bytes, &row.name.end)
}

/// Appends what a title says of a box.
fn push_box_title(bytes: &mut Vec<u8>, row: &BoxRow) -> Result<(), AllocError>
    ensures { OnOk result (bytes.new.items ≡ bytes.old.items ++ box_title row.now) }
{
    if row.name.end.as_str().is_empty() {
        return push_isolated(bytes, &row.name.task);
    }
    push_title(bytes, &row.name)
}

/// Appends the name of a box, if it has this number.
fn push_name_if(bytes: &mut Vec<u8>, number: u128, row: &BoxRow) -> Result<(), AllocError>
    ensures { OnOk result (bytes.new.items ≡ bytes.old.items ++ name_if number row.now) }
{
    if row.number.get() != number {
        return Ok(());
    }
    push_box_title(bytes, row)
}

/// Appends the name of the box with this number.
pub(crate) fn push_box_name(
    bytes: &mut Vec<u8>,
    boxes: &[BoxRow],
    number: u128,
) -> Result<(), AllocError>
    ensures { OnOk result (bytes.new.items ≡ bytes.old.items ++ box_name boxes.now number) }
{
    'boxes: for row in boxes {
        push_name_if(bytes, number, row)?;
    }
    Ok(())
}

/// Begins the label at the left of the box with this number, in a row with this edge.
fn push_row_start(bytes: &mut Vec<u8>, edge: u32, number: u128) -> Result<(), AllocError>
    requires least { 9 ≤ edge }
    requires most { edge ≤ 16 }
    requires number { number < 2 ^ 80 }
    ensures { OnOk result (bytes.new.items ≡ bytes.old.items ++ row_start edge number) }
{
    let edge = u128::from(edge);
    push_pieces(
        bytes,
        &[
            Piece::Fixed("<svg x=\"0\" y=\""),
            Piece::Number(number * edge),
            Piece::Fixed("\" width=\"216\" height=\""),
            Piece::Number(edge),
            Piece::Fixed("\"><text class=\"ml\" x=\"212\" y=\""),
            Piece::Number(edge - 3),
            Piece::Fixed("\">"),
        ],
    )
}

/// Ends the label at the left of the box with this number.
#[tactic(auto, unfolding(crate::specs::Matrices::row_end))]
fn push_row_end(bytes: &mut Vec<u8>, number: u128) -> Result<(), AllocError>
    requires { number < 2 ^ 80 }
    ensures { OnOk result (bytes.new.items ≡ bytes.old.items ++ row_end number) }
{
    push_pieces(
        bytes,
        &[
            Piece::Fixed(" "),
            Piece::Number(number + 1),
            Piece::Fixed("</text></svg>"),
        ],
    )
}

/// Appends the label of the box with this number below so many rows.
fn push_lower_label(
    bytes: &mut Vec<u8>,
    edge: u32,
    count: usize,
    number: u128,
) -> Result<(), AllocError>
    requires most { edge ≤ 16 }
    requires number { number < 2 ^ 80 }
    ensures { OnOk result (bytes.new.items ≡ bytes.old.items ++ lower_label edge count number) }
{
    let edge = u128::from(edge);
    push_pieces(
        bytes,
        &[
            Piece::Fixed("<text class=\"mc\" x=\""),
            Piece::Number(220 + number * edge + edge / 2),
            Piece::Fixed("\" y=\""),
            Piece::Number(count as u128 * edge + 11),
            Piece::Fixed("\">"),
            Piece::Number(number + 1),
            Piece::Fixed("</text>"),
        ],
    )
}

/// Appends the labels of a box.
#[tactic(auto, unfolding(crate::specs::Matrices::label_of))]
fn push_label(bytes: &mut Vec<u8>, count: usize, row: &BoxRow) -> Result<(), AllocError>
    ensures { OnOk result (bytes.new.items ≡ bytes.old.items ++ label_of count row.now) }
{
    let edge = cell_edge(count);
    let number = row.number.get();
    push_row_start(bytes, edge, number)?;
    push_box_label(bytes, row)?;
    push_row_end(bytes, number)?;
    push_lower_label(bytes, edge, count, number)
}

/// Appends the labels of a box, if it is in the matrix.
pub(crate) fn push_label_if(
    bytes: &mut Vec<u8>,
    count: usize,
    row: &BoxRow,
) -> Result<(), AllocError>
    ensures { OnOk result (bytes.new.items ≡ bytes.old.items ++ label_if count row.now) }
{
    if row.number.get() >= count as u128 {
        return Ok(());
    }
    push_label(bytes, count, row)
}
