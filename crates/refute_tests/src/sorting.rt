ghost use Rattle.std.specs.Prelude.{◌≡◌, IfOk, IsPermutation, OnOk};
ghost use Rattle.refute_tests.specs.inner.Hits.{NamesRise};
ghost use Rattle.refute_tests.specs.inner.Sorting.{EndsFall, EndsRise, StartsFall, StartsRise};

use std::alloc::{AllocError, Global};
use trace_types::{NamedSegment, NamedTrace};

/// Sorts the segments of a trace by name, in this room: what it held is dropped, and its memory
/// serves again.
pub(crate) fn sort_by_name(
    trace: &NamedTrace,
    room: &mut Vec<NamedSegment>,
) -> Result<(), AllocError>
    ensures same { OnOk result (IsPermutation trace.now.segments room.new.items) }
    ensures rising { OnOk result (NamesRise room.new.items) }
{
    room.clear();
    room.extend_from_slice(trace.segments.items())?;
    room.sort_unstable_by_key(|s| s.name);
    Ok(())
}

/// Sorts segments by start.
pub(crate) fn by_start(
    alloc: Global,
    segments: &[NamedSegment],
) -> Result<Vec<NamedSegment>, AllocError>
    ensures same { IfOk result (λ sorted. IsPermutation segments.now sorted.items) }
    ensures rising { IfOk result (λ sorted. StartsRise sorted.items) }
{
    let mut sorted = segments.to_vec(alloc)?;
    sorted.sort_unstable_by_key(|s| s.start);
    Ok(sorted)
}

/// Sorts segments by end.
pub(crate) fn by_end(
    alloc: Global,
    segments: &[NamedSegment],
) -> Result<Vec<NamedSegment>, AllocError>
    ensures same { IfOk result (λ sorted. IsPermutation segments.now sorted.items) }
    ensures rising { IfOk result (λ sorted. EndsRise sorted.items) }
{
    let mut sorted = segments.to_vec(alloc)?;
    sorted.sort_unstable_by_key(|s| s.end);
    Ok(sorted)
}

/// Turns segments that are sorted by start round.
pub(crate) fn turn_starts(mut segments: Vec<NamedSegment>) -> Vec<NamedSegment>
    requires rising { StartsRise segments.items }
    ensures same { IsPermutation segments.items result.items }
    ensures falling { StartsFall result.items }
{
    segments.reverse();
    segments
}

/// Turns segments that are sorted by end round.
pub(crate) fn turn_ends(mut segments: Vec<NamedSegment>) -> Vec<NamedSegment>
    requires rising { EndsRise segments.items }
    ensures same { IsPermutation segments.items result.items }
    ensures falling { EndsFall result.items }
{
    segments.reverse();
    segments
}
