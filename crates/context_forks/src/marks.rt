ghost use Rattle.std.specs.Prelude.{◌≡◌, ◌<◌, ◌||◌, All, None, Some, length, slice_index_or, IfOk};
ghost use Rattle.call_trees.specs.Tables.{table_of};
ghost use Rattle.context_forks.specs.Forks.{callers_of, has_reaching, is_linked};
ghost use Rattle.context_forks.specs.Partners.{reaches_out};
ghost use Rattle.context_forks.specs.inner.Marks.{AreMarked};
ghost use Rattle.linked_groups.specs.Groups.{AreLinksBelow};
ghost use Rattle.span_calls.specs.Calls.{AreBefore};

use span_calls::Call;
use std::alloc::{AllocError, Global};

/// Tells whether a call begins before this caller or ends after it, by more than the grace.
fn reaches_out_of(calls: &[Call<'_>], caller: usize, call: usize, grace: u64) -> bool
    requires caller { caller < length calls.now }
    requires call { call < length calls.now }
    ensures { result ≡ reaches_out calls.now grace (Some caller) call }
{
    let caller = &calls[caller];
    let call = &calls[call];
    call.end.saturating_sub(caller.span.end) > grace
        || caller.span.start.saturating_sub(call.start) > grace
}

/// Tells whether a call begins before its caller or ends after it, by more than the grace.
fn reaches_out(calls: &[Call<'_>], call: usize, grace: u64) -> bool
    requires before { AreBefore calls.now }
    requires call { call < length calls.now }
    ensures { result
        ≡ reaches_out calls.now grace (slice_index_or (callers_of calls.now) call None) call }
{
    let own = &calls[call];
    match own.caller {
        Some(caller) => reaches_out_of(calls, caller, call, grace),
        None => false,
    }
}

/// Marks the contexts of calls that reach out of their callers.
fn mark_reaching(calls: &[Call<'_>], numbers: &[usize], grace: u64, forked: &mut [bool])
    requires before { AreBefore calls.now }
    requires same { length numbers.now ≡ length calls.now }
    requires within { All (λ n. n < length forked.old) numbers.now }
    ensures { AreMarked (has_reaching grace calls.now numbers.now) forked.old forked.new }
{
    for at in 0..calls.len() {
        if reaches_out(calls, at, grace) {
            forked[numbers[at]] = true;
        }
    }
}

/// Marks the contexts that are linked.
fn mark_linked(links: &[(usize, usize)], forked: &mut [bool])
    requires { AreLinksBelow (length forked.old) links.now }
    ensures { AreMarked (is_linked links.now) forked.old forked.new }
{
    for at in 0..links.len() {
        let link = links[at];
        forked[link.0] = true;
        forked[link.1] = true;
    }
}

/// Marks the contexts that are linked, or of which a call reaches out of its caller.
fn mark_all(
    calls: &[Call<'_>],
    numbers: &[usize],
    links: &[(usize, usize)],
    grace: u64,
    forked: &mut [bool],
)
    requires before { AreBefore calls.now }
    requires same { length numbers.now ≡ length calls.now }
    requires within { All (λ n. n < length forked.old) numbers.now }
    requires linked { AreLinksBelow (length forked.old) links.now }
    ensures { AreMarked (λ x. has_reaching grace calls.now numbers.now x || is_linked links.now x)
        forked.old forked.new }
{
    mark_reaching(calls, numbers, grace, forked);
    mark_linked(links, forked);
}

/// Tells for each of so many contexts whether it is forked. The only error is out of memory.
pub(crate) fn find_forked(
    alloc: Global,
    calls: &[Call<'_>],
    numbers: &[usize],
    links: &[(usize, usize)],
    count: usize,
    grace: u64,
) -> Result<Vec<bool>, AllocError>
    requires before { AreBefore calls.now }
    requires same { length numbers.now ≡ length calls.now }
    requires within { All (λ n. n < count) numbers.now }
    requires linked { AreLinksBelow count links.now }
    ensures { IfOk result (λ forked. forked.items ≡ table_of
        (λ x. has_reaching grace calls.now numbers.now x || is_linked links.now x) count) }
{
    let mut forked = vec![in alloc; false; count]?;
    mark_all(calls, numbers, links, grace, &mut forked);
    Ok(forked)
}
