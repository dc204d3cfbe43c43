//! Batches of one part, which tests make of the lines of one trace.
ghost use Rattle.std.specs.Prelude.{◌≤◌, length};

use event_table::{EventFields, EventTable, GatheredEvents, TextHints, gather};
use std::alloc::{AllocError, Global};
use std::process::Abort;
use std::test::Fail;
use std::thread::Threads;

/// A line of a trace: its machine, task, event and time, and the messages that it sends and
/// receives.
pub(crate) type Row<'a> = (
    &'a str,
    &'a str,
    &'a str,
    u64,
    Option<&'a str>,
    Option<&'a str>,
);

/// Appends these lines, numbered from 1.
fn push_rows(
    alloc: Global,
    hints: &mut TextHints,
    table: &mut EventTable,
    rows: &[Row],
) -> Result<(), AllocError> {
    for row in rows {
        let fields = EventFields {
            request: "r1",
            machine: row.0,
            task: row.1,
            event: row.2,
            time: row.3,
            send: row.4,
            recv: row.5,
        };
        if table.len() >= 5000 {
            return Err(AllocError);
        }
        let line = table.len() as u32 + 1;
        table.push(alloc, hints, line, &fields)?;
    }
    Ok(())
}

/// Makes the table of these lines.
fn make_table(alloc: Global, rows: &[Row]) -> Result<EventTable, AllocError> {
    let mut hints = TextHints::new(alloc)?;
    let mut table = EventTable::new(alloc);
    push_rows(alloc, &mut hints, &mut table, rows)?;
    Ok(table)
}

/// Gathers the events of one table.
pub(crate) fn gather_one<R: Threads + Sync>(
    rt: &R,
    alloc: Global,
    table: EventTable,
) -> Result<GatheredEvents, AllocError>
    requires { length table ≤ 5000 }
{
    let mut parts = Vec::new(alloc);
    parts.push(table)?;
    gather(rt, alloc, parts, 1)
}

/// Gathers these lines.
pub(crate) fn gather_rows<R: Abort + AllocGlobal + Threads + Sync>(
    rt: &R,
    rows: &[Row],
) -> Result<GatheredEvents, Fail> {
    let table = make_table(rt.alloc(), rows)?;
    assert!(rt; table.len() == rows.len() && table.len() <= 5000);
    Ok(gather_one(rt, rt.alloc(), table)?)
}
