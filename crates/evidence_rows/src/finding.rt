ghost use Rattle.std.specs.Prelude.{◌<◌, ◌≤◌, All, IfOk, length};
ghost use Rattle.evidence_rules.specs.EvidenceRows.{AreRows};
ghost use Rattle.evidence_text.specs.Naming.{rows_of};
ghost use Rattle.name_rows.specs.Kinds.{between_at};
ghost use Rattle.task_rows.specs.Kinds.{sharing_at};

use crate::of_names::{order_rows, sorted_rows};
use crate::of_tasks::kind_rows;
use evidence_rules::Choice;
use evidence_text::EvidenceRows;
use name_meetings::MeetingTable;
use name_rows::list_rows;
use std::alloc::{AllocError, Global};
use task_rows::{SharingTable, TaskKind};

/// Finds the rows of each kind of the names and the tasks with these numbers, by their places in
/// the two lists. The only error is out of memory.
pub fn find_rows(
    alloc: Global,
    choice: Choice,
    meetings: &MeetingTable,
    names: &[u32],
    sharings: &SharingTable,
    tasks: &[u32],
) -> Result<EvidenceRows, AllocError>
    requires names { All (λ n. n < meetings.now.names) names.now }
    requires few_names { length names.now ≤ 512 }
    requires tasks { All (λ n. n < sharings.now.tasks) tasks.now }
    requires few_tasks { length tasks.now ≤ 512 }
    ensures { IfOk result (λ rows. AreRows choice (length names.now) (length tasks.now)
        (between_at meetings.now names.now) (sharing_at sharings.now tasks.now) (rows_of rows)) }
{
    let lists = list_rows(alloc, meetings, names, choice.least)?;
    let count = names.len() as u32;
    Ok(EvidenceRows {
        orders: order_rows(alloc, choice.reduced, count, &lists.orders)?,
        exclusions: sorted_rows(alloc, &lists.exclusions)?,
        pipes: kind_rows(alloc, choice, sharings, tasks, TaskKind::Pipe)?,
        nearly_orders: sorted_rows(alloc, &lists.nearly_orders)?,
        nearly_exclusions: sorted_rows(alloc, &lists.nearly_exclusions)?,
        nearly_pipes: kind_rows(alloc, choice, sharings, tasks, TaskKind::NearlyPipe)?,
    })
}
