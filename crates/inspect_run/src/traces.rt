ghost use Rattle.std.specs.Prelude.{◌≡◌, ◌<◌, ◌^◌, All, IfOk, length};
ghost use Rattle.event_lines.specs.GoodLines.{IsTimely};
ghost use Rattle.event_lines.specs.LineParts.{lines_of_runs};
ghost use Rattle.trace_types.specs.Batch.{PlainTrace, traces_of};
ghost use Rattle.trace_types.specs.Times.{AreTimely};
ghost use Rattle.inspect_run.specs.Logged.{logged_events};

use event_lines::{EventParts, LineRun};
use event_table::laws::traces_keep_facts;
use event_table::{GatheredEvents, gather};
use std::alloc::{AllocError, Global};
use std::thread::Threads;
use trace_quality::laws::traces_are_few;
use worker_limit::WorkerLimit;

/// Takes the events out of runs of lines.
fn take_events(alloc: Global, runs: Vec<LineRun>) -> Result<EventParts, AllocError>
    ensures { IfOk result (λ events. events ≡ logged_events (lines_of_runs runs.items)) }
{
    let mut events = EventParts::new(alloc);
    'runs: for run in runs {
        events.push_part(run.events)?;
    }
    Ok(events)
}

/// Gathers the events of lines into traces. The only error is out of memory.
pub(crate) fn gather_traces<R: Threads + Sync>(
    workers: &WorkerLimit<'_, R>,
    alloc: Global,
    runs: Vec<LineRun>,
) -> Result<GatheredEvents, AllocError>
    requires short { length (lines_of_runs runs.items) < 2 ^ 31 }
    requires known { All IsTimely (lines_of_runs runs.items) }
    ensures traces { IfOk result (λ g. g.traces
        ≡ traces_of (logged_events (lines_of_runs runs.items))) }
    ensures count { IfOk result (λ g. length g.traces < 2 ^ 32) }
    ensures few { IfOk result
        (λ g. All (λ (t : PlainTrace). length t.events < 2 ^ 32) g.traces) }
    ensures timely { IfOk result (λ g. All (λ (t : PlainTrace). AreTimely t.events) g.traces) }
{
    // For the proof alone.
    traces_keep_facts();
    traces_are_few();
    let events = take_events(alloc, runs)?;
    gather(workers.runtime, alloc, events.into_parts(), workers.most)
}
