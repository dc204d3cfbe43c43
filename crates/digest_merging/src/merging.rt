ghost use Rattle.std.specs.Prelude.{IfErr, IfOk};
ghost use Rattle.digest_merging.specs.Merges.{IsMergeFault, IsMergeOf};

use crate::day_merging::union_of_days;
use crate::limits::{MOST_NAMES, MOST_TASKS};
use crate::name_merging::{merge_name_rows, union_of_names};
use crate::task_merging::{merge_task_rows, union_of_tasks};
use crate::{DigestLimit, MergeFault};
use digest_text::DigestTable;
use std::alloc::Global;

/// Merges the digests of two tables: the table of the digest of the traces of both. The errors are
/// `Memory`, and `Limit` where the merged digest has more than 512 names, 64 tasks or
/// 18,446,744,073,709,551,615 traces, with the first of these.
pub fn merge_digests(
    alloc: Global,
    first: &DigestTable,
    second: &DigestTable,
) -> Result<DigestTable, MergeFault>
    ensures merge { IfOk result (λ table. IsMergeOf first.now second.now table) }
    ensures fault { IfErr result (IsMergeFault first.now second.now) }
{
    let names = union_of_names(alloc, &first.names, &second.names)?;
    if names.len() > MOST_NAMES {
        let count = names.len() as u64;
        return Err(MergeFault::Limit(DigestLimit::Names { count }));
    }
    let tasks = union_of_tasks(alloc, &first.tasks, &second.tasks)?;
    if tasks.len() > MOST_TASKS {
        let count = tasks.len() as u64;
        return Err(MergeFault::Limit(DigestLimit::Tasks { count }));
    }
    let Some(traces) = first.traces.checked_add(second.traces) else {
        return Err(MergeFault::Limit(DigestLimit::Traces));
    };
    let days = union_of_days(alloc, &first.days, &second.days)?;
    let tasks = merge_task_rows(alloc, tasks, &first.tasks, &second.tasks)?;
    let names = merge_name_rows(alloc, names, &first.names, &second.names)?;
    Ok(DigestTable {
        traces,
        days,
        tasks,
        names,
    })
}
