ghost use Rattle.std.specs.Prelude.{◌≡◌, MatchOption, MatchResult, IfOk, length};
ghost use Rattle.clock_offsets.specs.Offsets.{AreOffsets, adjusted_time};
ghost use Rattle.segment_cut.specs.AdjustedTimes.{IsInClockRange, IsLineOutOfRange};
ghost use Rattle.segment_cut.specs.inner.Keys.{AreInLineOrder, key_times};
ghost use Rattle.segment_cut.specs.inner.Times.{AreTimes};

use event_table::RawEvents;
use std::alloc::{AllocError, Global};
use trace_types::LATEST_TIME;

/// The latest time of an event, as a signed number.
const LATEST: i128 = LATEST_TIME as i128;

/// Subtracts the offset of a machine from a time, where the difference is in the range of adjusted
/// times.
fn adjust(time: u64, offset: i128) -> Option<i64>
    ensures { MatchOption result (IsInClockRange (adjusted_time time offset) → ⊥)
        (λ t. (t ≡ adjusted_time time offset) × IsInClockRange t) }
{
    let adjusted = i128::from(time).checked_sub(offset)?;
    if adjusted < -LATEST || adjusted > 2 * LATEST {
        return None;
    }
    Some(adjusted as i64)
}

/// Makes the key of each event, in the order of lines, or else finds the first line whose adjusted
/// time is out of range. The key is the index of its task's first event, its adjusted time and its
/// own index.
pub(crate) fn make_keys(
    alloc: Global,
    trace: &RawEvents<'_>,
    tasks: &[usize],
    offsets: &[i128],
) -> Result<Result<Vec<(usize, i64, usize)>, u32>, AllocError>
    requires each { length tasks.now ≡ length trace.now.trace.events }
    requires offsets { AreOffsets trace.now.trace.events offsets.now }
    ensures { IfOk result (λ r. MatchResult r
        (λ keys. AreInLineOrder tasks.now keys.items
        × AreTimes trace.now.trace.events (key_times keys.items))
        (IsLineOutOfRange trace.now.trace.events)) }
{
    let mut keys = Vec::with_capacity(alloc, trace.len())?;
    for at in 0..trace.len() {
        let Some(time) = adjust(trace.time(at), offsets[at]) else {
            return Ok(Err(trace.line(at)));
        };
        keys.push((tasks[at], time, at))?;
    }
    Ok(Ok(keys))
}
