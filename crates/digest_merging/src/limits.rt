ghost use Rattle.std.specs.Prelude.{◌≡◌, ◌++◌, ◌^◌, ◌<◌, ◌≤◌, List, ℕ, None, map, IfErr, IfNone, IfOk, IfSome, OnOk};
ghost use Rattle.trace_types.specs.Segments.{SegmentName};
ghost use Rattle.digest_facts.specs.Digests.{Digest};
ghost use Rattle.digest_merging.specs.Limits.{limit_passed};
ghost use Rattle.digest_merging.specs.Merges.{IsFaultOfAll, IsGivenBy};
ghost use Rattle.digest_merging.specs.inner.AllTables.{all_counts, all_names, all_tasks};

use crate::different::count_different;
use crate::{DigestLimit, MergeFault};
use digest_text::{DigestTable, NameRow, TaskRow};
use std::alloc::{AllocError, Global};
use trace_types::{NameText, Text};

/// The most names of a digest.
pub(crate) const MOST_NAMES: usize = 512;

/// The most tasks of a digest.
pub(crate) const MOST_TASKS: usize = 64;

/// Appends the names of rows, in order.
fn add_names<'a>(names: &mut Vec<&'a NameText>, rows: &'a [NameRow]) -> Result<(), AllocError>
    ensures { OnOk result (map (λ r. r.now) names.new.items
        ≡ map (λ r. r.now) names.old.items ++ map (λ r. r.0) rows.now) }
{
    'rows: for row in rows {
        names.push(&row.name)?;
    }
    Ok(())
}

/// Lists the names of all tables, one table after another. The only error is out of memory.
fn names_of_all<'a>(
    alloc: Global,
    tables: &'a [DigestTable],
) -> Result<Vec<&'a NameText>, AllocError>
    ensures { IfOk result (λ v. map (λ r. r.now) v.items ≡ all_names tables.now) }
{
    let mut names = Vec::new(alloc);
    'tables: for table in tables {
        add_names(&mut names, &table.names)?;
    }
    Ok(names)
}

/// Appends the tasks of rows, in order.
fn add_tasks<'a>(tasks: &mut Vec<&'a Text>, rows: &'a [TaskRow]) -> Result<(), AllocError>
    ensures { OnOk result (map (λ r. r.now) tasks.new.items
        ≡ map (λ r. r.now) tasks.old.items ++ map (λ r. r.0) rows.now) }
{
    'rows: for row in rows {
        tasks.push(&row.task)?;
    }
    Ok(())
}

/// Lists the tasks of all tables, one table after another. The only error is out of memory.
fn tasks_of_all<'a>(alloc: Global, tables: &'a [DigestTable]) -> Result<Vec<&'a Text>, AllocError>
    ensures { IfOk result (λ v. map (λ r. r.now) v.items ≡ all_tasks tables.now) }
{
    let mut tasks = Vec::new(alloc);
    'tables: for table in tables {
        add_tasks(&mut tasks, &table.tasks)?;
    }
    Ok(tasks)
}

/// Adds up how many traces the tables have; none where they are 2^64 or more.
fn count_traces(tables: &[DigestTable]) -> Option<u64>
    ensures sum { IfSome result (λ n. n ≡ all_counts tables.now) }
    ensures few { IfSome result (λ n. all_counts tables.now < 2 ^ 64) }
    ensures over { IfNone result (2 ^ 64 ≤ all_counts tables.now) }
{
    let mut count = 0u64;
    'tables: for table in tables {
        count = count.checked_add(table.traces)?;
    }
    Some(count)
}

/// Tells the first limit that the merge of all tables passes. The errors are this, and out of
/// memory.
pub(crate) fn check_limits(alloc: Global, tables: &[DigestTable]) -> Result<(), MergeFault>
    ensures within { IfOk result (λ _. (given : Digest SegmentName (List ℕ))
        → IsGivenBy tables.now given → limit_passed given ≡ None) }
    ensures fault { IfErr result (IsFaultOfAll tables.now) }
{
    let names = count_different(names_of_all(alloc, tables)?);
    if names > MOST_NAMES {
        let count = names as u64;
        return Err(MergeFault::Limit(DigestLimit::Names { count }));
    }
    let tasks = count_different(tasks_of_all(alloc, tables)?);
    if tasks > MOST_TASKS {
        let count = tasks as u64;
        return Err(MergeFault::Limit(DigestLimit::Tasks { count }));
    }
    if count_traces(tables).is_none() {
        return Err(MergeFault::Limit(DigestLimit::Traces));
    }
    Ok(())
}
