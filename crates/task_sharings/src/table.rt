ghost use Rattle.std.specs.Prelude.{◌≡◌, ◌<◌, ◌≤◌, ◌^◌, IfOk, length, map};
ghost use Rattle.std.specs.Borrow.{Bor};
ghost use Rattle.task_rows.specs.Tables.{IsTableOf};
ghost use Rattle.trace_types.specs.declared.named_trace.NamedTrace.{NamedTrace};

use crate::noting::note_trace;
use evidence_rules::Sharing;
use std::alloc::{AllocError, Global};
use task_rows::SharingTable;
use trace_types::NamedTrace;

/// Makes the table of the figures of the elements that each two of so many tasks share in traces, in
/// one pass over the traces. The only error is out of memory.
pub fn share_all(
    alloc: Global,
    tasks: u32,
    traces: &[&NamedTrace],
) -> Result<SharingTable, AllocError>
    requires few { length traces.now < 2 ^ 32 }
    requires few_tasks { tasks ≤ 64 }
    ensures tasks { IfOk result (λ table. table.tasks ≡ tasks) }
    ensures told { IfOk result
        (IsTableOf tasks (map (λ (t : Bor NamedTrace). t.now) traces.now)) }
{
    let none = Sharing {
        traces: 0,
        elements: 0,
        refuted: 0,
        first_refuted: traces.len() as u32,
    };
    let mut figures = Vec::from_elem(alloc, none, tasks as usize * tasks as usize)?;
    'traces: for index in 0..traces.len() {
        note_trace(
            alloc,
            tasks,
            figures.as_mut_slice(),
            index as u32,
            traces[index],
        )?;
    }
    Ok(SharingTable::of(tasks, figures))
}
