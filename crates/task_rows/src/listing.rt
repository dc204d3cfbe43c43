ghost use Rattle.std.specs.Prelude.{◌≡◌, ◌<◌, ◌≤◌, ◌++◌, ℕ, All, IfOk, OnOk, length};
ghost use Rattle.evidence_rules.specs.EvidenceRows.{rows_where, supported};
ghost use Rattle.task_rows.specs.Kinds.{sharing_at, is_told, traces_of};
ghost use Rattle.task_rows.specs.inner.Listings.{rows_of_pair, rows_of_place};

use crate::{SharingTable, TaskKind};
use evidence_rules::{PairRow, Sharing};
use std::alloc::{AllocError, Global};

/// Appends the row of the tasks at two places where it is told and so many traces support it.
fn add_pair(
    table: &SharingTable,
    tasks: &[u32],
    kind: TaskKind,
    least: u32,
    pair: (u32, u32),
    rows: &mut Vec<PairRow<Sharing>>,
) -> Result<(), AllocError>
    requires tasks { All (λ n. n < table.now.tasks) tasks.now }
    requires first { pair.0 < length tasks.now }
    requires second { pair.1 < length tasks.now }
    ensures { OnOk result (rows.new.items ≡ rows.old.items
        ++ rows_of_pair table.now tasks.now kind least pair.0 pair.1) }
{
    let (first, second) = pair;
    let figures = table.between(tasks[first as usize], tasks[second as usize]);
    if kind.is_told(first, second, &figures) && least <= figures.traces {
        rows.push(PairRow {
            first,
            second,
            figures,
        })?;
    }
    Ok(())
}

/// Appends those of the task at one place with all.
fn add_place(
    table: &SharingTable,
    tasks: &[u32],
    kind: TaskKind,
    least: u32,
    first: u32,
    rows: &mut Vec<PairRow<Sharing>>,
) -> Result<(), AllocError>
    requires tasks { All (λ n. n < table.now.tasks) tasks.now }
    requires few { length tasks.now ≤ 512 }
    requires first { first < length tasks.now }
    ensures { OnOk result (rows.new.items ≡ rows.old.items
        ++ rows_of_place table.now tasks.now kind least (length tasks.now) first) }
{
    let count = tasks.len() as u32;
    'seconds: for second in 0..count {
        add_pair(table, tasks, kind, least, (first, second), rows)?;
    }
    Ok(())
}

/// Lists the rows of a kind of the tasks with these numbers that so many traces support, by the
/// first task and then by the second. The only error is out of memory.
pub fn list_rows(
    alloc: Global,
    table: &SharingTable,
    tasks: &[u32],
    kind: TaskKind,
    least: u32,
) -> Result<Vec<PairRow<Sharing>>, AllocError>
    requires tasks { All (λ n. n < table.now.tasks) tasks.now }
    requires few { length tasks.now ≤ 512 }
    ensures { IfOk result (λ rows. rows.items ≡ rows_where (sharing_at table.now tasks.now)
        (supported traces_of least (is_told kind)) (length tasks.now)) }
{
    let count = tasks.len() as u32;
    let mut rows = Vec::new(alloc);
    'firsts: for first in 0..count {
        add_place(table, tasks, kind, least, first, &mut rows)?;
    }
    Ok(rows)
}
