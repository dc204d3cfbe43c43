ghost use Rattle.std.specs.Prelude.{◌≡◌, ◌+◌, ◌<◌, ◌≤◌, ◌^◌, ◌&&◌, [], length, map, codes};
ghost use Rattle.std.specs.Prelude.{Ok, IfErr, IfOk};
ghost use Rattle.std.specs.Str.{bytes_eq};
ghost use Rattle.std.specs.Cmp.Lexicographic.{slice_cmp};
ghost use Rattle.std.specs.List.{list_all};
ghost use Rattle.std.specs.Ordering.{nat_cmp};
ghost use Rattle.digest_reading.specs.DigestRows.{are_marks, comes_after, is_task_mark};
ghost use Rattle.digest_reading.specs.DigestRows.{task_of_fields, task_row, task_said};
ghost use Rattle.digest_reading.specs.Readings.{IsDigestFault, rows_said};

use crate::DigestFault;
use crate::fields::first_fields;
use crate::lines::first_line;
use crate::marks::copy_marks;
use crate::read_to::ReadTo;
use crate::texts::read_text;
use digest_text::TaskRow;
use std::alloc::{AllocError, Global};
use trace_types::Text;

/// Tells whether a byte is a mark of two tasks.
pub(crate) fn is_task_mark(byte: u8) -> bool
    ensures { result ≡ is_task_mark byte }
{
    byte == b'.' || (b'0' <= byte && byte <= b'3')
}

/// Tells whether all bytes are marks of two tasks.
fn all_task_marks(marks: &[u8]) -> bool
    ensures { result ≡ list_all is_task_mark marks.now }
{
    marks.iter().all(|byte| is_task_mark(*byte))
}

/// Tells whether bytes are so many marks of two tasks, and nothing else.
fn are_task_marks(count: usize, marks: &[u8]) -> bool
    ensures { result ≡ are_marks is_task_mark count marks.now }
{
    marks.len() == count && all_task_marks(marks)
}

/// Tells whether the row of a task begins with this word and ends in so many marks.
fn is_task_row(count: usize, word: &[u8], marks: &[u8]) -> bool
    ensures { result ≡ (bytes_eq word.now (codes "task") && are_marks is_task_mark count marks.now) }
{
    word == b"task".as_slice() && are_task_marks(count, marks)
}

/// Tells whether a task comes after the last of the rows before it.
fn comes_after(earlier: &[TaskRow], task: &Text) -> bool
    ensures { result ≡ comes_after (slice_cmp nat_cmp) (map (λ r. r.0) earlier.now) task.now }
{
    match earlier.last() {
        Some(last) => last.task.cmp(task).is_lt(),
        None => true,
    }
}

/// Makes the row of a task with these marks; none where it does not come after those before it. The
/// only error is out of memory.
fn make_row(
    alloc: Global,
    earlier: &[TaskRow],
    task: Text,
    marks: &[u8],
) -> Result<Option<TaskRow>, AllocError>
    ensures { IfOk result (λ row. row ≡ task_row earlier.now task marks.now) }
{
    if !comes_after(earlier, &task) {
        return Ok(None);
    }
    Ok(Some(TaskRow {
        task,
        marks: copy_marks(alloc, marks)?,
    }))
}

/// Reads the row of a task from the fields of a line; none where they have another form. The only
/// error is out of memory.
fn read_fields(
    alloc: Global,
    earlier: &[TaskRow],
    fields: &[&[u8]],
) -> Result<Option<TaskRow>, AllocError>
    ensures { IfOk result (λ row.
        row ≡ task_of_fields earlier.now (map (λ f. f.now) fields.now)) }
{
    if fields.len() != 3 {
        return Ok(None);
    }
    if !is_task_row(earlier.len(), fields[0], fields[2]) {
        return Ok(None);
    }
    match read_text(alloc, fields[1])? {
        Some(task) => make_row(alloc, earlier, task, fields[2]),
        None => Ok(None),
    }
}

/// Reads the row of a task from a line; none where the line has another form. The only error is out
/// of memory.
fn read_task(alloc: Global, earlier: &[TaskRow], line: &[u8]) -> Result<Option<TaskRow>, AllocError>
    ensures { IfOk result (λ row. row ≡ task_said earlier.now line.now) }
{
    let fields = first_fields(alloc, line)?;
    read_fields(alloc, earlier, &fields)
}

/// Reads so many rows of tasks, of which the first has this number. The errors are `Memory`, and
/// `Bad` with the number of the first line outside the form.
pub(crate) fn read_tasks(
    alloc: Global,
    count: u32,
    first: u32,
    bytes: &[u8],
) -> Result<ReadTo<'_, Vec<TaskRow>>, DigestFault>
    requires { first + length bytes.now < 2 ^ 32 }
    ensures read { IfOk result (λ r. rows_said task_said count [] first bytes.now
        ≡ Ok (record { value = r.value.items; number = r.number; left = r.left.now })) }
    ensures bad { IfErr result (IsDigestFault (rows_said task_said count [] first bytes.now)) }
    ensures room { IfOk result (λ r.
        r.number + length r.left.now ≤ first + length bytes.now) }
    ensures later { IfOk result (λ r. first ≤ r.number) }
{
    let mut tasks = Vec::new(alloc);
    let mut number = first;
    let mut left = bytes;
    'rows: while tasks.len() < count as usize {
        let Some(line) = first_line(left) else {
            return Err(DigestFault::Bad { line: number });
        };
        let Some(row) = read_task(alloc, &tasks, line.line)? else {
            return Err(DigestFault::Bad { line: number });
        };
        tasks.push(row)?;
        number += 1;
        left = line.rest;
    }
    Ok(ReadTo {
        value: tasks,
        number,
        left,
    })
}
