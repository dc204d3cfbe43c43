ghost use Rattle.std.specs.Prelude.{◌≡◌, ◌<◌, ◌≤◌, All, IfOk, filter, length, nat_lt};
ghost use Rattle.certificate_rows.specs.Orders.{name_number_cmp, task_number_cmp};
ghost use Rattle.evidence_printing.specs.inner.Numbered.{HasName, HasTask};
ghost use Rattle.name_meetings.specs.Tables.{figures_of as name_figures};
ghost use Rattle.task_rows.specs.Tables.{figures_of as task_figures};
ghost use Rattle.trace_types.specs.Listing.{ListsExactly};

use certificate_rows::{names_in_order, tasks_in_order};
use name_meetings::MeetingTable;
use segment_names::Catalogue;
use std::alloc::{AllocError, Global};
use task_rows::SharingTable;

/// Keeps of the numbers those of names that some trace has.
fn keep_names(alloc: Global, table: &MeetingTable, numbers: &[u32]) -> Result<Vec<u32>, AllocError>
    requires { All (λ n. n < table.now.names) numbers.now }
    ensures { IfOk result (λ kept. kept.items
        ≡ filter (λ n. nat_lt 0 (name_figures table.now n n).traces) numbers.now) }
{
    let mut kept = Vec::new(alloc);
    'numbers: for at in 0..numbers.len() {
        let number = numbers[at];
        if 0 < table.between(number, number).traces {
            kept.push(number)?;
        }
    }
    Ok(kept)
}

/// Keeps of the numbers those of tasks that handle an element in some trace.
fn keep_tasks(alloc: Global, table: &SharingTable, numbers: &[u32]) -> Result<Vec<u32>, AllocError>
    requires { All (λ n. n < table.now.tasks) numbers.now }
    ensures { IfOk result (λ kept. kept.items
        ≡ filter (λ n. nat_lt 0 (task_figures table.now n n).traces) numbers.now) }
{
    let mut kept = Vec::new(alloc);
    'numbers: for at in 0..numbers.len() {
        let number = numbers[at];
        if 0 < table.between(number, number).traces {
            kept.push(number)?;
        }
    }
    Ok(kept)
}

/// Lists the numbers of the names that some trace has, in name order. The only error is out of
/// memory.
pub(crate) fn kept_names(
    alloc: Global,
    catalogue: &Catalogue,
    table: &MeetingTable,
) -> Result<Vec<u32>, AllocError>
    requires { table.now.names ≡ length catalogue.now.names }
    ensures listed { IfOk result (λ names. ListsExactly (name_number_cmp catalogue.now)
        (HasName catalogue.now table.now) names.items) }
    ensures few { IfOk result (λ names. length names.items ≤ 512) }
{
    let names = names_in_order(alloc, catalogue)?;
    keep_names(alloc, table, &names)
}

/// Lists the numbers of the tasks that handle an element in some trace, in the order of their
/// texts, likewise.
pub(crate) fn kept_tasks(
    alloc: Global,
    catalogue: &Catalogue,
    table: &SharingTable,
) -> Result<Vec<u32>, AllocError>
    requires { table.now.tasks ≡ length catalogue.now.tasks }
    ensures listed { IfOk result (λ tasks. ListsExactly (task_number_cmp catalogue.now)
        (HasTask catalogue.now table.now) tasks.items) }
    ensures few { IfOk result (λ tasks. length tasks.items ≤ 512) }
{
    let tasks = tasks_in_order(alloc, catalogue)?;
    keep_tasks(alloc, table, &tasks)
}
