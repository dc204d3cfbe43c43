ghost use Rattle.std.specs.Prelude.{◌≡◌, ◌++◌, length, map, IfOk, OnOk};
ghost use Rattle.std.specs.List.{flat_map};
ghost use Rattle.text_rows.specs.Rows.{row_of};
ghost use Rattle.digest_facts.specs.Texts.{day_fields, header_fields, name_fields, table_text};
ghost use Rattle.digest_facts.specs.Texts.{task_fields};

use crate::row_bytes::{make_digits, make_figure, put_row};
use crate::{DigestTable, NameRow, TaskRow};
use std::alloc::{AllocError, Global};

/// Appends the header: how many traces, days, tasks and names there are.
fn put_header(alloc: Global, text: &mut Vec<u8>, table: &DigestTable) -> Result<(), AllocError>
    ensures { OnOk result (text.new.items ≡ text.old.items ++ row_of (header_fields table.now)) }
{
    let traces = make_figure(alloc, b"traces", table.traces)?;
    let days = make_figure(alloc, b"days", table.days.len() as u64)?;
    let tasks = make_figure(alloc, b"tasks", table.tasks.len() as u64)?;
    let names = make_figure(alloc, b"names", table.names.len() as u64)?;
    put_row(
        text,
        &[b"summary".as_slice(), &traces, &days, &tasks, &names],
    )
}

/// Appends the row of a day.
fn put_day(alloc: Global, text: &mut Vec<u8>, day: u32) -> Result<(), AllocError>
    ensures { OnOk result (text.new.items ≡ text.old.items ++ row_of (day_fields day)) }
{
    let digits = make_digits(alloc, u64::from(day))?;
    put_row(text, &[b"day".as_slice(), &digits])
}

/// Appends the row of each day, in order.
fn put_days(alloc: Global, text: &mut Vec<u8>, days: &[u32]) -> Result<(), AllocError>
    ensures { OnOk result (text.new.items ≡ text.old.items
        ++ flat_map row_of (map day_fields days.now)) }
{
    'days: for day in days {
        put_day(alloc, text, *day)?;
    }
    Ok(())
}

/// Appends the row of a task.
fn put_task(text: &mut Vec<u8>, row: &TaskRow) -> Result<(), AllocError>
    ensures { OnOk result (text.new.items ≡ text.old.items ++ row_of (task_fields row.now)) }
{
    put_row(
        text,
        &[b"task".as_slice(), row.task.as_str().as_bytes(), &row.marks],
    )
}

/// Appends the row of each task, in order.
fn put_tasks(text: &mut Vec<u8>, tasks: &[TaskRow]) -> Result<(), AllocError>
    ensures { OnOk result (text.new.items ≡ text.old.items
        ++ flat_map row_of (map task_fields tasks.now)) }
{
    'tasks: for row in tasks {
        put_task(text, row)?;
    }
    Ok(())
}

/// Appends the row of a name.
fn put_name(text: &mut Vec<u8>, row: &NameRow) -> Result<(), AllocError>
    ensures { OnOk result (text.new.items ≡ text.old.items ++ row_of (name_fields row.now)) }
{
    let name = &row.name;
    put_row(
        text,
        &[
            b"name".as_slice(),
            name.task.as_str().as_bytes(),
            name.start.as_str().as_bytes(),
            name.end.as_str().as_bytes(),
            &row.marks,
        ],
    )
}

/// Appends the row of each name, in order.
fn put_names(text: &mut Vec<u8>, names: &[NameRow]) -> Result<(), AllocError>
    ensures { OnOk result (text.new.items ≡ text.old.items
        ++ flat_map row_of (map name_fields names.now)) }
{
    'names: for row in names {
        put_name(text, row)?;
    }
    Ok(())
}

/// Makes the text of a digest's table: a header, and a row for each day, each task and each name.
/// The only error is out of memory.
pub fn make_text(alloc: Global, table: &DigestTable) -> Result<Vec<u8>, AllocError>
    ensures { IfOk result (λ text. text.items ≡ table_text table.now) }
{
    let mut text = Vec::new(alloc);
    put_header(alloc, &mut text, table)?;
    put_days(alloc, &mut text, &table.days)?;
    put_tasks(&mut text, &table.tasks)?;
    put_names(&mut text, &table.names)?;
    Ok(text)
}
