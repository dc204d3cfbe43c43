ghost use Rattle.std.specs.Prelude.{◌≡◌, ◌<◌, ◌^◌, ℕ, All, IfOk, length, slice_index_or};
ghost use Rattle.std.specs.List.{AllZip};
ghost use Rattle.trace_types.specs.Batch.{PlainTrace};
ghost use Rattle.trace_types.specs.Times.{AreTimely};
ghost use Rattle.trace_quality.specs.Facts.{IsFacts};
ghost use Rattle.trace_quality.specs.inner.Finding.{HasFound};

use crate::TraceFacts;
use crate::clocks::count_clocks;
use crate::messages::count_messages;
use crate::times::find_times;
use crate::verdicts::judge;
use event_table::{GatheredEvents, RawEvents};
use std::alloc::{AllocError, Global};
use std::thread;
use std::thread::Threads;
use worker_limit::WorkerLimit;

/// Finds the facts of a trace.
fn facts_of(alloc: Global, raw: &RawEvents<'_>) -> Result<TraceFacts, AllocError>
    requires few { length raw.now.trace.events < 2 ^ 32 }
    requires timely { AreTimely raw.now.trace.events }
    ensures { IfOk result (IsFacts raw.now.trace) }
{
    let verdict = judge(alloc, raw)?;
    Ok(TraceFacts {
        times: find_times(raw),
        verdict,
        messages: count_messages(alloc, raw)?,
        clocks: count_clocks(alloc, raw, verdict)?,
    })
}

/// Finds the facts of each trace, by up to as many threads as the limit allows: nothing of a trace
/// for which memory ran out.
fn find_each<R: Threads + Sync>(
    workers: &WorkerLimit<'_, R>,
    alloc: Global,
    gathered: &GatheredEvents,
    found: &mut [Option<TraceFacts>],
)
    requires long { length found.old ≡ length gathered.now.traces }
    requires few { All (λ (t : PlainTrace). length t.events < 2 ^ 32) gathered.now.traces }
    requires timely { All (λ (t : PlainTrace). AreTimely t.events) gathered.now.traces }
    ensures long { length found.new ≡ length found.old }
    ensures each { (k : ℕ) (d : _) → k < length found.old
        → HasFound gathered.now.traces k (slice_index_or found.new k d) }
{
    thread::for_each_mut(
        workers.runtime,
        found,
        workers.most.max(1) as usize,
        &|index, place: &mut Option<TraceFacts>|
            requires index { index < length gathered.now.traces }
            requires few { All (λ (t : PlainTrace). length t.events < 2 ^ 32)
                gathered.now.traces }
            requires timely { All (λ (t : PlainTrace). AreTimely t.events)
                gathered.now.traces }
            ensures { HasFound gathered.entry.now.traces index place.new }
        { *place = facts_of(alloc, &gathered.trace(index)).ok() },
    );
}

/// Lists the facts that were found of each trace, where none is missing.
fn list_found(
    alloc: Global,
    gathered: &GatheredEvents,
    found: &[Option<TraceFacts>],
) -> Result<Vec<TraceFacts>, AllocError>
    requires long { length found.now ≡ length gathered.now.traces }
    requires each { (k : ℕ) (d : _) → k < length gathered.now.traces
        → HasFound gathered.now.traces k (slice_index_or found.now k d) }
    ensures { IfOk result (λ facts. AllZip IsFacts gathered.now.traces facts.items) }
{
    let mut facts = Vec::with_capacity(alloc, found.len())?;
    'places: for index in 0..found.len() {
        let Some(one) = found[index] else {
            return Err(AllocError);
        };
        facts.push(one)?;
    }
    Ok(facts)
}

/// Finds the facts of each trace of a batch, in their order, by up to as many threads as the limit
/// allows. Each trace has fewer than 2^32 events and no event later than
/// `trace_types::LATEST_TIME`; `GatheredEvents::is_short` and `is_timely` tell. The only error is
/// out of memory.
pub fn find_facts<R: Threads + Sync>(
    workers: &WorkerLimit<'_, R>,
    alloc: Global,
    gathered: &GatheredEvents,
) -> Result<Vec<TraceFacts>, AllocError>
    requires few { All (λ (t : PlainTrace). length t.events < 2 ^ 32) gathered.now.traces }
    requires timely { All (λ (t : PlainTrace). AreTimely t.events) gathered.now.traces }
    ensures { IfOk result (λ facts. AllZip IsFacts gathered.now.traces facts.items) }
{
    let mut found = Vec::from_elem(alloc, None, gathered.len())?;
    find_each(workers, alloc, gathered, found.as_mut_slice());
    list_found(alloc, gathered, &found)
}
