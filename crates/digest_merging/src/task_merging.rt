ghost use Rattle.std.specs.Prelude.{◌≡◌, ◌++◌, ℕ, [], length, map, List, OnOk, IfOk};
ghost use Rattle.std.specs.List.{AllZip};
ghost use Rattle.std.specs.Cmp.Lexicographic.{slice_cmp};
ghost use Rattle.std.specs.Ordering.{nat_cmp};
ghost use Rattle.digest_merging.specs.declared.places.Places.{Places};
ghost use Rattle.digest_facts.specs.Digests.{Rises, union};
ghost use Rattle.digest_merging.specs.inner.MergedRows.{ArePlaces, IsPlaceIn, mark_by, marks_at};
ghost use Rattle.digest_merging.specs.inner.MergedRows.{placed_rows};

use crate::marks::marks_by;
use crate::places::Places;
use digest_text::TaskRow;
use std::alloc::{AllocError, Global};
use std::cmp::Ordering;
use trace_types::Text;

/// Appends the tasks of rows, in order. The only error is out of memory.
fn copy_rest(alloc: Global, tasks: &mut Vec<Text>, rows: &[TaskRow]) -> Result<(), AllocError>
    ensures { OnOk result (tasks.new.items ≡ tasks.old.items ++ map (λ r. r.0) rows.now) }
{
    'rows: for row in rows {
        tasks.push(row.task.copy(alloc)?)?;
    }
    Ok(())
}

/// Makes the list of the tasks of both, each once, in their order. The only error is out of memory.
pub(crate) fn union_of_tasks(
    alloc: Global,
    first: &[TaskRow],
    second: &[TaskRow],
) -> Result<Vec<Text>, AllocError>
    ensures { IfOk result (λ v. Rises (slice_cmp nat_cmp) (map (λ r. r.0) first.now)
        → Rises (slice_cmp nat_cmp) (map (λ r. r.0) second.now)
        → v.items ≡ union (slice_cmp nat_cmp) (map (λ r. r.0) first.now) (map (λ r. r.0) second.now)) }
{
    let mut tasks = Vec::new(alloc);
    let mut i = 0usize;
    let mut j = 0usize;
    'both: while i < first.len() && j < second.len() {
        let left = &first[i];
        let right = &second[j];
        match left.task.cmp(&right.task) {
            Ordering::Less => {
                tasks.push(left.task.copy(alloc)?)?;
                i += 1;
            }
            Ordering::Greater => {
                tasks.push(right.task.copy(alloc)?)?;
                j += 1;
            }
            Ordering::Equal => {
                tasks.push(left.task.copy(alloc)?)?;
                i += 1;
                j += 1;
            }
        }
    }
    copy_rest(alloc, &mut tasks, &first[i..])?;
    copy_rest(alloc, &mut tasks, &second[j..])?;
    Ok(tasks)
}

/// Finds where a task stands in rows that rise.
fn place_in(rows: &[TaskRow], task: &Text) -> Option<usize>
    ensures { Rises (slice_cmp nat_cmp) (map (λ r. r.0) rows.now)
        → IsPlaceIn (map (λ r. r.0) rows.now) task.now result }
{
    rows.binary_search_by(|row| row.task.cmp(task)).ok()
}

/// Finds where each task stands in rows of both that rise. The only error is out of memory.
fn places_in(
    alloc: Global,
    tasks: &[Text],
    first: &[TaskRow],
    second: &[TaskRow],
) -> Result<Vec<Places>, AllocError>
    ensures count { IfOk result (λ v. length v.items ≡ length tasks.now) }
    ensures places { IfOk result (λ v. Rises (slice_cmp nat_cmp) (map (λ r. r.0) first.now)
        → Rises (slice_cmp nat_cmp) (map (λ r. r.0) second.now)
        → AllZip (ArePlaces (map (λ r. r.0) first.now) (map (λ r. r.0) second.now)) tasks.now
        v.items) }
{
    let mut places = Vec::with_capacity(alloc, tasks.len())?;
    'tasks: for task in tasks {
        places.push(Places {
            left: place_in(first, task),
            right: place_in(second, task),
        })?;
    }
    Ok(places)
}

/// Finds the marks of the row at a place; none where there is no row.
fn marks_at(rows: &[TaskRow], place: Option<usize>) -> &[u8]
    ensures { result.now ≡ marks_at rows.now place }
{
    let Some(place) = place else {
        return &[];
    };
    match rows.get(place) {
        Some(row) => &row.marks,
        None => &[],
    }
}

/// Makes the marks of a task, by its places and those of the tasks before it. The only error is out
/// of memory.
fn marks_of(
    alloc: Global,
    first: &[TaskRow],
    second: &[TaskRow],
    earlier: &[Places],
    at: Places,
) -> Result<Vec<u8>, AllocError>
    ensures { IfOk result (λ v.
        v.items ≡ map (λ q. mark_by first.now second.now q at) earlier.now) }
{
    let left = marks_at(first, at.left);
    let right = marks_at(second, at.right);
    marks_by(alloc, left, right, earlier)
}

/// Makes the row of each task, by their places. The only error is out of memory.
fn rows_by(
    alloc: Global,
    tasks: Vec<Text>,
    places: &[Places],
    first: &[TaskRow],
    second: &[TaskRow],
) -> Result<Vec<TaskRow>, AllocError>
    requires { length places.now ≡ length tasks.items }
    ensures { IfOk result (λ v.
        v.items ≡ placed_rows (mark_by first.now second.now) [] tasks.items places.now) }
{
    let mut rows = Vec::with_capacity(alloc, tasks.len())?;
    let mut k = 0usize;
    'rows: for task in tasks {
        let marks = marks_of(alloc, first, second, &places[..k], places[k])?;
        rows.push(TaskRow { task, marks })?;
        k += 1;
    }
    Ok(rows)
}

/// Makes the rows of these tasks, which both have, with the marks of both. The only error is out of
/// memory.
pub(crate) fn merge_task_rows(
    alloc: Global,
    tasks: Vec<Text>,
    first: &[TaskRow],
    second: &[TaskRow],
) -> Result<Vec<TaskRow>, AllocError>
    ensures { IfOk result (λ v. (places : List Places) × (Rises (slice_cmp nat_cmp) (map (λ r. r.0) first.now)
        → Rises (slice_cmp nat_cmp) (map (λ r. r.0) second.now)
        → AllZip (ArePlaces (map (λ r. r.0) first.now) (map (λ r. r.0) second.now)) tasks.items places)
        × (v.items ≡ placed_rows (mark_by first.now second.now) [] tasks.items places)) }
{
    let places = places_in(alloc, &tasks, first, second)?;
    Ok(rows_by(alloc, tasks, &places, first, second)?)
}
