ghost use Rattle.std.specs.Prelude.{◌≡◌, ◌≤◌, ◌<◌, ◌+◌, ◌++◌, length, IfOk, OnOk};
ghost use Rattle.event_lines.specs.LineParts.{lines_of_control, lines_of_events, lines_of_runs};
ghost use Rattle.event_rewrite.specs.TaskLines.{task_event, task_events, task_events_from};
ghost use Rattle.event_rewrite.specs.inner.Counting.{batch_through};
ghost use Rattle.event_table.specs.LentEvents.{event_lent};
ghost use Rattle.task_pieces.specs.TaskKeys.{event_of_key, events_of_keys};

use event_lines::{Command, ControlLine, LineRun};
use event_table::{EventTable, LentEvent};
use std::alloc::{AllocError, Global};
use task_pieces::TaskKey;

/// Makes the key of an event.
fn key_of<'a>(event: &LentEvent<'a>, batch: u64, index: u32) -> TaskKey<'a>
    ensures { event_of_key result ≡ task_event batch index (event_lent event.now) }
{
    TaskKey {
        batch,
        request: event.request.as_str(),
        task: event.task.as_str(),
        time: event.time,
        index,
        sends: event.send.is_some(),
        receives: event.recv.is_some(),
    }
}

/// Appends the keys of the events of a batch.
fn push_keys<'a>(
    events: &'a EventTable,
    batch: u64,
    keys: &mut Vec<TaskKey<'a>>,
) -> Result<(), AllocError>
    requires few { length keys.old.items + length events.now < u32.MAX }
    ensures keys { OnOk result (events_of_keys keys.new.items ≡ events_of_keys keys.old.items
        ++ task_events_from batch (length keys.old.items) (lines_of_events events.now)) }
{
    for at in 0..events.len() {
        let index = keys.len() as u32;
        keys.push(key_of(&events.event(at), batch, index))?;
    }
    Ok(())
}

/// Gives the batch of the events after a control line, if there is one.
fn batch_behind(batch: u64, control: &Option<ControlLine>) -> u64
    requires { batch < u64.MAX }
    ensures batch { result ≡ batch_through batch (lines_of_control control.now) }
    ensures most { result ≤ batch + 1 }
{
    match control {
        Some(
            ControlLine {
                command: Command::Add,
                ..
            },
        ) => batch + 1,
        _ => batch,
    }
}

/// Makes the keys of all events. The only error is out of memory.
pub(crate) fn keys_of(alloc: Global, runs: &[LineRun]) -> Result<Vec<TaskKey<'_>>, AllocError>
    requires few { length (lines_of_runs runs.now) < u32.MAX }
    ensures events { IfOk result (λ keys.
        events_of_keys keys.items ≡ task_events (lines_of_runs runs.now)) }
{
    let mut keys = Vec::new(alloc);
    let mut batch = 0u64;
    for run in runs {
        push_keys(&run.events, batch, &mut keys)?;
        batch = batch_behind(batch, &run.control);
    }
    Ok(keys)
}
