ghost use Rattle.std.specs.Prelude.{◌≡◌, ◌<◌, ◌≤ℤ◌, ℕ, ℤ, IfOk, All, List, length};
ghost use Rattle.std.specs.List.{AllZip};
ghost use Rattle.clock_offsets.specs.FirstEvents.{AreFirstEvents};
ghost use Rattle.clock_offsets.specs.declared.first_events.Field.TheVariants.{Task};
ghost use Rattle.trace_types.specs.Events.{named_events};
ghost use Rattle.trace_types.specs.Repeats.{AreDistinct};
ghost use Rattle.segment_cut.specs.AdjustedTimes.{adjusted_at};
ghost use Rattle.segment_cut.specs.inner.Segments.{AreListed};
ghost use Rattle.segment_cut.specs.Cutting.{IsSegment};
ghost use Rattle.segment_cut.specs.NumberedCuts.{HasTexts, segment_under, segments_under};
ghost use Rattle.segment_cut.specs.inner.Keys.{AreInLineOrder, HaveTimes, IsKeyBefore};
ghost use Rattle.segment_cut.specs.inner.Keys.{adjacent_pairs, key_at, key_times};

use crate::CutSegment;
use crate::ordering::sort_keys;
use event_table::RawEvents;
use std::alloc::{AllocError, Global};

/// Makes the segment from one event to another, by their keys.
fn make_segment(
    trace: &RawEvents<'_>,
    start: (usize, i64, usize),
    end: (usize, i64, usize),
) -> CutSegment
    requires start { start.2 < length trace.now.trace.events }
    requires end { end.2 < length trace.now.trace.events }
    requires ordered { start.1 ≤ℤ end.1 }
    ensures segment { (times : List ℤ) → adjusted_at times start.2 ≡ start.1
        → adjusted_at times end.2 ≡ end.1
        → IsSegment trace.now.trace.events times (start.2, end.2)
        (segment_under trace.now.texts result) }
    ensures texts { HasTexts trace.now.texts result }
{
    CutSegment {
        task: trace.task(start.2),
        start_event: trace.event(start.2),
        end_event: trace.event(end.2),
        start: start.1,
        end: end.1,
    }
}

/// Makes the segment of each two adjacent keys of one task.
fn make_segments(
    alloc: Global,
    trace: &RawEvents<'_>,
    keys: &[(usize, i64, usize)],
) -> Result<Vec<CutSegment>, AllocError>
    requires within { (p : ℕ) → p < length keys.now
        → (key_at keys.now p).2 < length trace.now.trace.events }
    requires rising { (p q : ℕ) → p < q → q < length keys.now
        → IsKeyBefore (key_at keys.now p) (key_at keys.now q) }
    ensures segments { IfOk result (λ segments. (times : List ℤ) → HaveTimes keys.now times
        → AllZip (IsSegment trace.now.trace.events times) (adjacent_pairs keys.now)
        (segments_under trace.now.texts segments.items)) }
    ensures texts { IfOk result (λ segments. All (HasTexts trace.now.texts) segments.items) }
{
    let mut segments = Vec::with_capacity(alloc, keys.len())?;
    for at in 1..keys.len() {
        let start = keys[at - 1];
        let end = keys[at];
        if start.0 == end.0 {
            segments.push(make_segment(trace, start, end))?;
        }
    }
    Ok(segments)
}

/// Lists the segments of the events, by the first line of their task and then by their order in it.
/// The keys of the events stand in the order of lines.
pub(crate) fn list_segments(
    alloc: Global,
    trace: &RawEvents<'_>,
    tasks: &[usize],
    keys: Vec<(usize, i64, usize)>,
) -> Result<Vec<CutSegment>, AllocError>
    requires tasks { AreFirstEvents Task trace.now.trace.events tasks.now }
    requires made { AreInLineOrder tasks.now keys.items }
    requires named { AreDistinct (named_events trace.now.trace.events) }
    ensures segments { IfOk result (λ segments. AreListed trace.now.trace.events
        (key_times keys.items) (segments_under trace.now.texts segments.items)) }
    ensures texts { IfOk result (λ segments. All (HasTexts trace.now.texts) segments.items) }
{
    let sorted = sort_keys(alloc, tasks, keys)?;
    make_segments(alloc, trace, &sorted)
}
