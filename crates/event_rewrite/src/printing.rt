ghost use Rattle.std.specs.Prelude.{◌≡◌, ◌≤◌, ◌<◌, ◌+◌, ◌++◌, length, OnOk};
ghost use Rattle.event_lines.specs.LineParts.{lines_of_control, lines_of_events, lines_of_run};
ghost use Rattle.event_lines.specs.LineParts.{lines_of_runs};
ghost use Rattle.event_rewrite.specs.WithoutWaits.{with_tasks_from};
ghost use Rattle.event_rewrite.specs.inner.Counting.{event_count};
ghost use Rattle.event_text.specs.LineTexts.{lines_text};

use event_lines::{ControlLine, LineRun};
use event_table::EventTable;
use event_text::{push_command, push_event};
use std::alloc::AllocError;
use task_pieces::TaskNames;

/// Appends the lines of events, of which the first has this index, under these names of their
/// tasks.
fn print_events(
    events: &EventTable,
    names: &TaskNames,
    first: usize,
    bytes: &mut Vec<u8>,
) -> Result<(), AllocError>
    requires within { first + length events.now ≤ length names.now }
    requires few { length names.now < u32.MAX }
    ensures { OnOk result (bytes.new.items ≡ bytes.old.items
        ++ lines_text (with_tasks_from names.now first (lines_of_events events.now))) }
{
    for at in 0..events.len() {
        let name = names.name(first + at).as_str().as_bytes();
        push_event(bytes, &events.event(at), name)?;
    }
    Ok(())
}

/// Appends a control line, if there is one.
fn print_control(control: &Option<ControlLine>, bytes: &mut Vec<u8>) -> Result<(), AllocError>
    ensures { OnOk result (bytes.new.items
        ≡ bytes.old.items ++ lines_text (lines_of_control control.now)) }
{
    match control {
        Some(control) => push_command(bytes, control.command),
        None => Ok(()),
    }
}

/// Appends the lines of runs, under these names of the tasks of their events.
pub(crate) fn print_runs(
    runs: &[LineRun],
    names: &TaskNames,
    bytes: &mut Vec<u8>,
) -> Result<(), AllocError>
    requires within { event_count (lines_of_runs runs.now) ≤ length names.now }
    requires few { length names.now < u32.MAX }
    ensures { OnOk result (bytes.new.items ≡ bytes.old.items
        ++ lines_text (with_tasks_from names.now 0 (lines_of_runs runs.now))) }
{
    let mut first = 0;
    for run in runs {
        print_events(&run.events, names, first, bytes)?;
        print_control(&run.control, bytes)?;
        first += run.events.len();
    }
    Ok(())
}
