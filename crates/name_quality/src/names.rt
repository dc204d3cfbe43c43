ghost use Rattle.std.specs.Prelude.{◌≡◌, ◌++◌, ◌<◌, ◌^◌, All, IfOk, OnOk, length, map};
ghost use Rattle.trace_types.specs.Batch.{PlainTrace};
ghost use Rattle.trace_types.specs.Times.{AreTimely};
ghost use Rattle.name_quality.specs.Names.{AreNames, numbers_of};
ghost use Rattle.name_quality.specs.inner.Adding.{AddsNames};

use event_table::{GatheredEvents, RawEvents};
use segment_cut::{CutSegment, TraceFault, cut};
use std::alloc::{AllocError, Global};

/// A segment's name, by the numbers of its task, its start event and its end event among the texts
/// of a batch.
pub type NameNumbers = (u32, u32, u32);

/// Gives the numbers of the name of a segment.
fn numbers_of(segment: &CutSegment) -> NameNumbers
    ensures { result ≡ numbers_of segment.now }
{
    (segment.task, segment.start_event, segment.end_event)
}

/// Appends the names of segments.
fn push_names(names: &mut Vec<NameNumbers>, segments: &[CutSegment]) -> Result<(), AllocError>
    ensures { OnOk result (names.new.items ≡ names.old.items ++ map numbers_of segments.now) }
{
    'segments: for index in 0..segments.len() {
        names.push(numbers_of(&segments[index]))?;
    }
    Ok(())
}

/// Appends the names of the segments of a trace, if it is valid.
fn add_trace(
    alloc: Global,
    raw: &RawEvents<'_>,
    names: &mut Vec<NameNumbers>,
) -> Result<(), AllocError>
    requires few { length raw.now.trace.events < 2 ^ 32 }
    requires timely { AreTimely raw.now.trace.events }
    ensures { OnOk result (AddsNames raw.now names.old.items names.new.items) }
{
    match cut(alloc, raw) {
        Ok(trace) => push_names(names, trace.segments()),
        Err(TraceFault::Memory) => Err(AllocError),
        Err(_fault) => Ok(()),
    }
}

/// Gathers the names of the segments of the valid traces of a batch, segment after segment. Each
/// trace has fewer than 2^32 events and no event later than `trace_types::LATEST_TIME`;
/// `GatheredEvents::is_short` and `is_timely` tell. The only error is out of memory.
pub fn gather_names(
    alloc: Global,
    gathered: &GatheredEvents,
) -> Result<Vec<NameNumbers>, AllocError>
    requires few { All (λ (t : PlainTrace). length t.events < 2 ^ 32) gathered.now.traces }
    requires timely { All (λ (t : PlainTrace). AreTimely t.events) gathered.now.traces }
    ensures { IfOk result (λ names. AreNames gathered.now.texts gathered.now.traces names.items) }
{
    let mut names = Vec::new(alloc);
    'traces: for index in 0..gathered.len() {
        add_trace(alloc, &gathered.trace(index), &mut names)?;
    }
    Ok(names)
}
