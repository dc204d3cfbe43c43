ghost use Rattle.std.specs.Prelude.{◌≡◌, ◌<◌, All, Some, length, IfOk, IfSome};
ghost use Rattle.context_forks.specs.Partners.{later_of};
ghost use Rattle.context_forks.specs.inner.Siblings.{AreLast, last_with};

use span_calls::Call;
use std::alloc::{AllocError, Global};

/// Gives which of these two calls ends last; of several the first.
fn later(calls: &[Call<'_>], best: usize, call: usize) -> usize
    requires best { best < length calls.now }
    requires call { call < length calls.now }
    ensures { result ≡ later_of calls.now best call }
{
    let one = &calls[best];
    let other = &calls[call];
    if one.end < other.end { call } else { best }
}

/// Gives which call ends last, where one more comes; of several the first.
fn last_with(calls: &[Call<'_>], best: Option<usize>, call: usize) -> usize
    requires best { IfSome best (λ b. b < length calls.now) }
    requires call { call < length calls.now }
    ensures { result ≡ last_with calls.now best call }
{
    match best {
        Some(best) => later(calls, best, call),
        None => call,
    }
}

/// Gives for each call of one caller the one that ends last of those up to it. The only error is
/// out of memory.
pub(crate) fn last_so_far(
    alloc: Global,
    calls: &[Call<'_>],
    below: &[usize],
) -> Result<Vec<usize>, AllocError>
    requires { All (λ i. i < length calls.now) below.now }
    ensures { IfOk result (λ last. AreLast calls.now below.now last.items) }
{
    let mut last = Vec::with_capacity(alloc, below.len())?;
    let mut best = None;
    for at in 0..below.len() {
        let new = last_with(calls, best, below[at]);
        best = Some(new);
        last.push(new)?;
    }
    Ok(last)
}
