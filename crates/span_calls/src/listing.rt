ghost use Rattle.std.specs.Prelude.{◌≡◌, ◌<◌, All, length, IfOk};
ghost use Rattle.span_calls.specs.Calls.{AreListed};
ghost use Rattle.span_calls.specs.inner.CallKeys.{all_moments};
ghost use Rattle.span_requests.specs.CallerNumbers.{AreCallers, HaveLastCallers};

use crate::call_key::CallKey;
use call_trees::{group_below, order_by, walk};
use std::alloc::{AllocError, Global};

/// Lists the numbers of the spans of the requests with these entries, each caller before what it
/// calls, in order. The only error is out of memory.
pub(crate) fn list_calls(
    alloc: Global,
    callers: &[Option<usize>],
    keys: &[CallKey<'_>],
    entries: &[usize],
) -> Result<Vec<usize>, AllocError>
    requires called { AreCallers callers.now }
    requires ends { HaveLastCallers callers.now }
    requires same { length keys.now ≡ length callers.now }
    requires within { All (λ e. e < length callers.now) entries.now }
    ensures listed { IfOk result (λ numbers.
        AreListed (all_moments keys.now) callers.now entries.now numbers.items) }
    ensures within { IfOk result (λ numbers. All (λ n. n < length callers.now) numbers.items) }
{
    let order = order_by(alloc, keys)?;
    let below = group_below(alloc, callers, &order)?;
    walk(alloc, &below, entries)
}
