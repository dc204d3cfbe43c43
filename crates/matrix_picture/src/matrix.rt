ghost use Rattle.std.specs.Prelude.{◌≡◌, ◌++◌, OnOk};
ghost use Rattle.std.specs.List.{flat_map};
ghost use Rattle.matrix_picture.specs.Matrices.{cell_text, label_if, matrix_class, matrix_text};
ghost use Rattle.matrix_picture.specs.Matrices.{picture_start};

use crate::cell::push_cell;
use crate::frames::push_frames;
use crate::labels::{cell_edge, push_label_if};
use crate::texts::{push_matrix_end, push_matrix_start};
use markup::{Piece, push_pieces};
use page_rows::{BetweenRow, BoxRow, Page};
use std::alloc::AllocError;

/// Gives the class of the picture of so many boxes.
fn matrix_class(count: usize) -> &'static str
    ensures { result.now ≡ matrix_class count }
{
    if count <= 44 {
        "matrix"
    } else {
        "matrix dense"
    }
}

/// Begins the picture of so many boxes.
fn push_picture_start(bytes: &mut Vec<u8>, count: usize) -> Result<(), AllocError>
    ensures { OnOk result (bytes.new.items ≡ bytes.old.items ++ picture_start count) }
{
    let edge = u128::from(cell_edge(count));
    let class = matrix_class(count);
    push_pieces(
        bytes,
        &[
            Piece::Fixed("<svg class=\""),
            Piece::Fixed(class),
            Piece::Fixed("\" width=\""),
            Piece::Number(220 + count as u128 * edge + 4),
            Piece::Fixed("\" height=\""),
            Piece::Number(count as u128 * edge + 16),
            Piece::Fixed("\" role=\"img\" aria-label=\"Matrix of relations\">"),
        ],
    )
}

/// Appends the labels of boxes.
fn push_labels(bytes: &mut Vec<u8>, count: usize, boxes: &[BoxRow]) -> Result<(), AllocError>
    ensures { OnOk result (bytes.new.items ≡ bytes.old.items ++ flat_map (label_if count) boxes.now) }
{
    'boxes: for row in boxes {
        push_label_if(bytes, count, row)?;
    }
    Ok(())
}

/// Appends the cells of pairs of boxes.
fn push_cells(
    bytes: &mut Vec<u8>,
    boxes: &[BoxRow],
    betweens: &[BetweenRow],
) -> Result<(), AllocError>
    ensures { OnOk result
        (bytes.new.items ≡ bytes.old.items ++ flat_map (cell_text boxes.now) betweens.now) }
{
    'betweens: for row in betweens {
        push_cell(bytes, boxes, row)?;
    }
    Ok(())
}

/// Appends the matrix of a page. The only error is out of memory, after which the bytes may end in
/// the middle of it.
#[tactic(auto, unfolding(crate::specs::Matrices::matrix_text))]
pub fn push_matrix(bytes: &mut Vec<u8>, page: &Page) -> Result<(), AllocError>
    ensures { OnOk result (bytes.new.items ≡ bytes.old.items ++ matrix_text page.now) }
{
    let count = page.boxes().len();
    push_matrix_start(bytes)?;
    push_picture_start(bytes, count)?;
    push_labels(bytes, count, page.boxes())?;
    push_cells(bytes, page.boxes(), page.betweens())?;
    push_frames(bytes, page.boxes(), page.pipes())?;
    push_matrix_end(bytes)
}
