ghost use Rattle.std.specs.Prelude.{◌^◌, ◌<◌, IfOk, length};
ghost use Rattle.trace_graph.specs.inner.Keys.{AreKeys};

use std::alloc::{AllocError, Global};
use trace_types::NamedSegment;

/// Sorts the segments by start, then by end, and then by index. The key of each has the three.
pub(crate) fn sort_keys(
    alloc: Global,
    segments: &[NamedSegment],
) -> Result<Vec<(i64, i64, u32)>, AllocError>
    requires { length segments.now < 2 ^ 32 }
    ensures { IfOk result (λ keys. AreKeys segments.now keys.items) }
{
    let mut keys = Vec::with_capacity(alloc, segments.len())?;
    for (at, segment) in segments.iter().enumerate() {
        keys.push((segment.start, segment.end, at as u32))?;
    }
    keys.sort_unstable();
    Ok(keys)
}
