ghost use Rattle.std.specs.Prelude.{◌≡◌, ◌<◌, ℕ, IfOk, length, slice_index_or};
ghost use Rattle.segment_cut.specs.inner.Keys.{AreInLineOrder, AreKeys, key_times};

use crate::line_order::list_keys_by_line;
use std::alloc::{AllocError, Global};

/// The most events that are sorted at once.
const FEW: usize = 20;

/// Sorts the keys of the events: by the first event of their task, then by adjusted time, and then
/// by line. In most traces the lines of each task rise so already, and then more than `FEW` events
/// are not sorted.
pub(crate) fn sort_keys(
    alloc: Global,
    tasks: &[usize],
    keys: Vec<(usize, i64, usize)>,
) -> Result<Vec<(usize, i64, usize)>, AllocError>
    requires made { AreInLineOrder tasks.now keys.items }
    requires within { (k : ℕ) → k < length tasks.now
        → slice_index_or tasks.now k 0 < length tasks.now }
    ensures { IfOk result (λ sorted. AreKeys tasks.now (key_times keys.items) sorted.items) }
{
    if tasks.len() > FEW
        && let Some(sorted) = list_keys_by_line(alloc, tasks, &keys)?
    {
        return Ok(sorted);
    }
    let mut sorted = keys;
    sorted.sort_unstable();
    Ok(sorted)
}
