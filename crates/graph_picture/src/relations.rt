ghost use Rattle.std.specs.Prelude.{◌≡◌, ◌≤◌, ◌++◌, bytes_eq, IfOk, OnOk};
ghost use Rattle.graph_picture.specs.Relations.{are_boxes, box_of, is_exclusive, is_relation};
ghost use Rattle.graph_picture.specs.Relations.{pair_of};
ghost use Rattle.graph_picture.specs.Relations.{pipe_of, pipes_of, relation_of, relations_of};

use page_rows::{BetweenRow, BoxRow, PipeRow};
use std::alloc::{AllocError, Global};
use trace_types::Text;

/// Tells whether these are two boxes of the graph.
fn are_boxes(count: u128, first: u128, second: u128) -> bool
    ensures { result ≡ are_boxes count first second }
{
    first < count && second < count && first != second
}

/// Tells whether a row is a relation.
fn is_relation(count: u128, row: &BetweenRow) -> bool
    ensures { result ≡ is_relation count row.now }
{
    are_boxes(count, row.first.get(), row.second.get())
        && 0 < row.both.get()
        && row.both.get() <= row.before.get()
}

/// Tells whether the names of two boxes are mutually exclusive.
pub(crate) fn is_exclusive(count: u128, row: &BetweenRow) -> bool
    ensures { result ≡ is_exclusive count row.now }
{
    are_boxes(count, row.first.get(), row.second.get())
        && row.first.get() < row.second.get()
        && 0 < row.both.get()
        && row.both.get() <= row.exclusive.get()
}

/// Appends the relation of a row, if it is one.
fn add_relation(
    pairs: &mut Vec<(u32, u32)>,
    count: u128,
    row: &BetweenRow,
) -> Result<(), AllocError>
    requires { count ≤ 128 }
    ensures { OnOk result (pairs.new.items ≡ pairs.old.items ++ relation_of count row.now) }
{
    if is_relation(count, row) {
        pairs.push((row.first.get() as u32, row.second.get() as u32))?;
    }
    Ok(())
}

/// Lists the relations of all rows. The only error is out of memory.
pub(crate) fn relations_of(
    alloc: Global,
    count: u128,
    rows: &[BetweenRow],
) -> Result<Vec<(u32, u32)>, AllocError>
    requires { count ≤ 128 }
    ensures { IfOk result (λ pairs. pairs.items ≡ relations_of count rows.now) }
{
    let mut pairs = Vec::new(alloc);
    'rows: for row in rows {
        add_relation(&mut pairs, count, row)?;
    }
    Ok(pairs)
}

/// Tells whether a box is of a task.
fn is_of(row: &BoxRow, task: &Text) -> bool
    ensures { result ≡ bytes_eq row.now.name.0 task.now }
{
    row.name.task.as_str() == task.as_str()
}

/// Finds the number of the first box of a task.
fn box_of(count: u128, boxes: &[BoxRow], task: &Text) -> u128
    ensures { result ≡ box_of count boxes.now task.now }
{
    'boxes: for row in boxes {
        if is_of(row, task) {
            return row.number.get();
        }
    }
    count
}

/// Appends the pipeline between two boxes, if they are in the graph.
fn add_pair(
    pairs: &mut Vec<(u32, u32)>,
    count: u128,
    first: u128,
    second: u128,
) -> Result<(), AllocError>
    requires { count ≤ 128 }
    ensures { OnOk result (pairs.new.items ≡ pairs.old.items ++ pair_of count first second) }
{
    if are_boxes(count, first, second) {
        pairs.push((first as u32, second as u32))?;
    }
    Ok(())
}

/// Appends the pipeline of a row, if it is one between boxes of the graph.
fn add_pipe(
    pairs: &mut Vec<(u32, u32)>,
    count: u128,
    boxes: &[BoxRow],
    row: &PipeRow,
) -> Result<(), AllocError>
    requires { count ≤ 128 }
    ensures { OnOk result (pairs.new.items ≡ pairs.old.items ++ pipe_of count boxes.now row.now) }
{
    let first = box_of(count, boxes, &row.first);
    let second = box_of(count, boxes, &row.second);
    add_pair(pairs, count, first, second)
}

/// Lists the pipelines of all rows. The only error is out of memory.
pub(crate) fn pipes_of(
    alloc: Global,
    count: u128,
    boxes: &[BoxRow],
    rows: &[PipeRow],
) -> Result<Vec<(u32, u32)>, AllocError>
    requires { count ≤ 128 }
    ensures { IfOk result (λ pairs. pairs.items ≡ pipes_of count boxes.now rows.now) }
{
    let mut pairs = Vec::new(alloc);
    'rows: for row in rows {
        add_pipe(&mut pairs, count, boxes, row)?;
    }
    Ok(pairs)
}
