ghost use Rattle.std.specs.Prelude.{◌<◌, ◌≤◌, All, IfOk, length};
ghost use Rattle.evidence_rules.specs.EvidenceRows.{AreTaskRows};
ghost use Rattle.task_rows.specs.Kinds.{is_told, sharing_at};

use evidence_rules::{Choice, PairRow, Sharing};
use std::alloc::{AllocError, Global};
use task_rows::{SharingTable, TaskKind, list_rows, sort_rows};

/// Lists the rows of a kind, in the order of their support.
pub(crate) fn kind_rows(
    alloc: Global,
    choice: Choice,
    table: &SharingTable,
    tasks: &[u32],
    kind: TaskKind,
) -> Result<Vec<PairRow<Sharing>>, AllocError>
    requires tasks { All (λ n. n < table.now.tasks) tasks.now }
    requires few { length tasks.now ≤ 512 }
    ensures { IfOk result (λ rows. AreTaskRows choice (length tasks.now)
        (sharing_at table.now tasks.now) (is_told kind) rows.items) }
{
    let rows = list_rows(alloc, table, tasks, kind, choice.least)?;
    sort_rows(alloc, &rows)
}
