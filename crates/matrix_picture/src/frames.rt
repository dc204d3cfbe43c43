ghost use Rattle.std.specs.Prelude.{◌≡◌, ◌≤◌, ◌<◌, ◌^◌, ◌++◌, length, OnOk};
ghost use Rattle.std.specs.List.{flat_map};
ghost use Rattle.matrix_picture.specs.Frames.{frame_if, frame_start, frame_text};
ghost use Rattle.matrix_picture.specs.Frames.{is_of_task, pipe_frames, row_frames};

use crate::labels::cell_edge;
use markup::{Piece, push_fixed, push_pieces};
use page_rows::{BoxRow, PipeRow};
use picture_parts::push_isolated;
use std::alloc::AllocError;
use trace_types::Text;

/// Tells whether a box of the matrix is of a task.
fn is_of_task(count: usize, task: &Text, row: &BoxRow) -> bool
    ensures { result ≡ is_of_task count task.now row.now }
{
    row.name.task.as_str() == task.as_str() && row.number.get() < count as u128
}

/// Begins a frame around the cell of a row and a column, from 0.
fn push_frame_start(
    bytes: &mut Vec<u8>,
    cell: u32,
    row: u128,
    column: u128,
) -> Result<(), AllocError>
    requires least { 9 ≤ cell }
    requires most { cell ≤ 16 }
    requires row { row < 2 ^ 80 }
    requires column { column < 2 ^ 80 }
    ensures { OnOk result (bytes.new.items ≡ bytes.old.items ++ frame_start cell row column) }
{
    let cell = u128::from(cell);
    push_pieces(
        bytes,
        &[
            Piece::Fixed("<rect class=\"pip\" x=\""),
            Piece::Number(220 + column * cell),
            Piece::Fixed("\" y=\""),
            Piece::Number(row * cell),
            Piece::Fixed("\" width=\""),
            Piece::Number(cell - 1),
            Piece::Fixed("\" height=\""),
            Piece::Number(cell - 1),
            Piece::Fixed("\"><title>pipeline: "),
        ],
    )
}

/// Appends a frame.
#[tactic(auto, unfolding(crate::specs::Frames::frame_text))]
fn push_frame(
    bytes: &mut Vec<u8>,
    cell: u32,
    row: u128,
    column: u128,
    pipe: &PipeRow,
) -> Result<(), AllocError>
    requires least { 9 ≤ cell }
    requires most { cell ≤ 16 }
    requires row { row < 2 ^ 80 }
    requires column { column < 2 ^ 80 }
    ensures { OnOk result
        (bytes.new.items ≡ bytes.old.items ++ frame_text cell row column pipe.now) }
{
    push_frame_start(bytes, cell, row, column)?;
    push_isolated(bytes, &pipe.first)?;
    push_fixed(bytes, ", ")?;
    push_isolated(bytes, &pipe.second)?;
    push_fixed(bytes, "</title></rect>")
}

/// Appends the frame of two boxes, if the task of the second is that of a pipeline.
fn push_frame_if(
    bytes: &mut Vec<u8>,
    count: usize,
    pipe: &PipeRow,
    row: &BoxRow,
    column: &BoxRow,
) -> Result<(), AllocError>
    ensures { OnOk result
        (bytes.new.items ≡ bytes.old.items ++ frame_if count pipe.now row.now column.now) }
{
    if is_of_task(count, &pipe.second, column) {
        let cell = cell_edge(count);
        return push_frame(bytes, cell, row.number.get(), column.number.get(), pipe);
    }
    Ok(())
}

/// Appends the frames of the row of a box.
fn push_columns(
    bytes: &mut Vec<u8>,
    boxes: &[BoxRow],
    pipe: &PipeRow,
    row: &BoxRow,
) -> Result<(), AllocError>
    ensures { OnOk result (bytes.new.items ≡ bytes.old.items
        ++ flat_map (frame_if (length boxes.now) pipe.now row.now) boxes.now) }
{
    let count = boxes.len();
    'boxes: for column in boxes {
        push_frame_if(bytes, count, pipe, row, column)?;
    }
    Ok(())
}

/// Appends the frames of the row of a box, if its task is the first of a pipeline.
fn push_row(
    bytes: &mut Vec<u8>,
    boxes: &[BoxRow],
    pipe: &PipeRow,
    row: &BoxRow,
) -> Result<(), AllocError>
    ensures { OnOk result
        (bytes.new.items ≡ bytes.old.items ++ row_frames boxes.now pipe.now row.now) }
{
    if is_of_task(boxes.len(), &pipe.first, row) {
        return push_columns(bytes, boxes, pipe, row);
    }
    Ok(())
}

/// Appends the frames of a pipeline.
fn push_pipe(bytes: &mut Vec<u8>, boxes: &[BoxRow], pipe: &PipeRow) -> Result<(), AllocError>
    ensures { OnOk result (bytes.new.items ≡ bytes.old.items ++ pipe_frames boxes.now pipe.now) }
{
    'boxes: for row in boxes {
        push_row(bytes, boxes, pipe, row)?;
    }
    Ok(())
}

/// Appends the frames of pipelines.
pub(crate) fn push_frames(
    bytes: &mut Vec<u8>,
    boxes: &[BoxRow],
    pipes: &[PipeRow],
) -> Result<(), AllocError>
    ensures { OnOk result
        (bytes.new.items ≡ bytes.old.items ++ flat_map (pipe_frames boxes.now) pipes.now) }
{
    'pipes: for pipe in pipes {
        push_pipe(bytes, boxes, pipe)?;
    }
    Ok(())
}
