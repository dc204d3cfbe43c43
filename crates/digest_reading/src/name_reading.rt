ghost use Rattle.std.specs.Prelude.{◌≡◌, ◌+◌, ◌<◌, ◌≤◌, ◌^◌, ◌&&◌, [], length, map, codes};
ghost use Rattle.std.specs.Prelude.{Ok, IfErr, IfOk};
ghost use Rattle.digest_reading.specs.DigestRows.{are_marks, are_named, comes_after, has_task};
ghost use Rattle.digest_reading.specs.DigestRows.{is_name_mark, name_of_fields, name_row};
ghost use Rattle.digest_reading.specs.DigestRows.{name_said};
ghost use Rattle.digest_reading.specs.Readings.{IsDigestFault, rows_said};
ghost use Rattle.std.specs.List.{list_all, list_any};
ghost use Rattle.std.specs.Str.{bytes_eq};
ghost use Rattle.trace_types.specs.NameOrder.{name_cmp};

use crate::DigestFault;
use crate::fields::first_fields;
use crate::lines::first_line;
use crate::marks::copy_marks;
use crate::read_to::ReadTo;
use crate::task_reading::is_task_mark;
use crate::texts::read_name;
use digest_text::{NameRow, TaskRow};
use std::alloc::{AllocError, Global};
use trace_types::{NameText, Text};

/// Tells whether a byte is a mark of two names.
fn is_name_mark(byte: u8) -> bool
    ensures { result ≡ is_name_mark byte }
{
    is_task_mark(byte) || byte == b'7'
}

/// Tells whether all bytes are marks of two names.
fn all_name_marks(marks: &[u8]) -> bool
    ensures { result ≡ list_all is_name_mark marks.now }
{
    marks.iter().all(|byte| is_name_mark(*byte))
}

/// Tells whether bytes are so many marks of two names, and nothing else.
fn are_name_marks(count: usize, marks: &[u8]) -> bool
    ensures { result ≡ are_marks is_name_mark count marks.now }
{
    marks.len() == count && all_name_marks(marks)
}

/// Tells whether the row of a name begins with this word and ends in so many marks.
fn is_name_row(count: usize, word: &[u8], marks: &[u8]) -> bool
    ensures { result ≡ (bytes_eq word.now (codes "name") && are_marks is_name_mark count marks.now) }
{
    word == b"name".as_slice() && are_name_marks(count, marks)
}

/// Tells whether a name comes after the last of the rows before it.
fn comes_after(earlier: &[NameRow], name: &NameText) -> bool
    ensures { result ≡ comes_after name_cmp (map (λ r. r.0) earlier.now) name.now }
{
    match earlier.last() {
        Some(last) => last.name.cmp(name).is_lt(),
        None => true,
    }
}

/// Tells whether one of the rows is of this task.
fn has_task(tasks: &[TaskRow], task: &Text) -> bool
    ensures { result ≡ has_task tasks.now task.now }
{
    tasks.iter().any(|row| row.task == *task)
}

/// Makes the row of a name with these marks; none where its task has no row, or it does not come
/// after those before it. The only error is out of memory.
fn make_row(
    alloc: Global,
    tasks: &[TaskRow],
    earlier: &[NameRow],
    name: NameText,
    marks: &[u8],
) -> Result<Option<NameRow>, AllocError>
    ensures { IfOk result (λ row. row ≡ name_row tasks.now earlier.now name marks.now) }
{
    if !has_task(tasks, &name.task) || !comes_after(earlier, &name) {
        return Ok(None);
    }
    Ok(Some(NameRow {
        name,
        marks: copy_marks(alloc, marks)?,
    }))
}

/// Reads the row of a name from the fields of a line; none where they have another form. The only
/// error is out of memory.
fn read_fields(
    alloc: Global,
    tasks: &[TaskRow],
    earlier: &[NameRow],
    fields: &[&[u8]],
) -> Result<Option<NameRow>, AllocError>
    ensures { IfOk result (λ row.
        row ≡ name_of_fields tasks.now earlier.now (map (λ f. f.now) fields.now)) }
{
    if fields.len() != 5 {
        return Ok(None);
    }
    if !is_name_row(earlier.len(), fields[0], fields[4]) {
        return Ok(None);
    }
    match read_name(alloc, fields[1], fields[2], fields[3])? {
        Some(name) => make_row(alloc, tasks, earlier, name, fields[4]),
        None => Ok(None),
    }
}

/// Reads the row of a name from a line; none where the line has another form. The only error is out
/// of memory.
fn read_name_row(
    alloc: Global,
    tasks: &[TaskRow],
    earlier: &[NameRow],
    line: &[u8],
) -> Result<Option<NameRow>, AllocError>
    ensures { IfOk result (λ row. row ≡ name_said tasks.now earlier.now line.now) }
{
    let fields = first_fields(alloc, line)?;
    read_fields(alloc, tasks, earlier, &fields)
}

/// Reads so many rows of names under these tasks, of which the first has this number. The errors
/// are `Memory`, and `Bad` with the number of the first line outside the form.
pub(crate) fn read_names<'b>(
    alloc: Global,
    tasks: &[TaskRow],
    count: u32,
    first: u32,
    bytes: &'b [u8],
) -> Result<ReadTo<'b, Vec<NameRow>>, DigestFault>
    requires { first + length bytes.now < 2 ^ 32 }
    ensures read { IfOk result (λ r. rows_said (name_said tasks.now) count [] first bytes.now
        ≡ Ok (record { value = r.value.items; number = r.number; left = r.left.now })) }
    ensures bad { IfErr result
        (IsDigestFault (rows_said (name_said tasks.now) count [] first bytes.now)) }
    ensures room { IfOk result (λ r.
        r.number + length r.left.now ≤ first + length bytes.now) }
    ensures later { IfOk result (λ r. first ≤ r.number) }
{
    let mut names = Vec::new(alloc);
    let mut number = first;
    let mut left = bytes;
    'rows: while names.len() < count as usize {
        let Some(line) = first_line(left) else {
            return Err(DigestFault::Bad { line: number });
        };
        let Some(row) = read_name_row(alloc, tasks, &names, line.line)? else {
            return Err(DigestFault::Bad { line: number });
        };
        names.push(row)?;
        number += 1;
        left = line.rest;
    }
    Ok(ReadTo {
        value: names,
        number,
        left,
    })
}

/// Tells whether a name is of this task.
fn is_named(names: &[NameRow], task: &Text) -> bool
    ensures { result ≡ list_any (λ n. bytes_eq n.0.0 task.now) names.now }
{
    names.iter().any(|row| row.name.task == *task)
}

/// Tells whether each task has a name.
pub(crate) fn are_named(tasks: &[TaskRow], names: &[NameRow]) -> bool
    ensures { result ≡ are_named tasks.now names.now }
{
    tasks.iter().all(|row| is_named(names, &row.task))
}
