ghost use Rattle.std.specs.Prelude.{◌≡◌, ◌<◌, ◌≤◌, Some, filter, length, slice_index, take};
ghost use Rattle.context_forks.specs.Partners.{outlasts, partner, partner_of};
ghost use Rattle.context_forks.specs.inner.Siblings.{AreLast, AreSiblings};

use span_calls::Call;

/// Tells whether a call ends by more than the grace after another one starts.
fn outlasts(calls: &[Call<'_>], call: usize, other: usize, grace: u64) -> bool
    requires call { call < length calls.now }
    requires other { other < length calls.now }
    ensures { result ≡ outlasts calls.now grace call other }
{
    let one = &calls[call];
    let two = &calls[other];
    one.end.saturating_sub(two.start) > grace
}

/// Gives how many of the earlier calls of its caller a call outlasts: these are the first ones.
fn count_outlasted(calls: &[Call<'_>], earlier: &[usize], call: usize, grace: u64) -> usize
    requires siblings { AreSiblings calls.now earlier.now }
    requires call { call < length calls.now }
    ensures within { result ≤ length earlier.now }
    ensures first { filter (λ j. outlasts calls.now grace call j) earlier.now
        ≡ take result earlier.now }
{
    let mut low = 0;
    let mut high = earlier.len();
    'halves: while low < high {
        let middle = low + (high - low) / 2;
        if outlasts(calls, call, earlier[middle], grace) {
            low = middle + 1;
        } else {
            high = middle;
        }
    }
    low
}

/// Gives this call, if it outlasts that one.
fn if_outlasts(calls: &[Call<'_>], call: usize, other: usize, grace: u64) -> Option<usize>
    requires call { call < length calls.now }
    requires other { other < length calls.now }
    ensures { result ≡ partner_of calls.now grace (Some call) other }
{
    if outlasts(calls, call, other, grace) {
        Some(call)
    } else {
        None
    }
}

/// Finds the earlier call of the same caller that this one overlaps and that ends last.
pub(crate) fn find_partner(
    calls: &[Call<'_>],
    below: &[usize],
    last: &[usize],
    index: usize,
    grace: u64,
) -> Option<usize>
    requires index { index < length below.now }
    requires siblings { AreSiblings calls.now below.now }
    requires last { AreLast calls.now below.now last.now }
    ensures { result
        ≡ partner calls.now grace (take index below.now) (slice_index below.now index) }
{
    let call = below[index];
    let count = count_outlasted(calls, &below[..index], call, grace);
    if count == 0 {
        return None;
    }
    if_outlasts(calls, last[count - 1], call, grace)
}
