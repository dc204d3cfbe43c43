ghost use Rattle.std.specs.Prelude.{◌≡◌, ◌<◌, All, length, option_copied, take, IfOk};
ghost use Rattle.call_trees.specs.Tables.{table_of};
ghost use Rattle.span_calls.specs.Calls.{AreBefore, AreCalls, AreCallsAt, StartInOrder, moments_at};
ghost use Rattle.span_calls.specs.Calls.{position_at};
ghost use Rattle.span_calls.specs.inner.CallKeys.{all_moments};
ghost use Rattle.span_requests.specs.CallerNumbers.{AreCallers, AreRoots, HaveLastCallers};
ghost use Rattle.span_requests.specs.SpansOnce.{lent_spans};

use crate::Call;
use crate::asking::asked_entries;
use crate::call_key::CallKey;
use crate::listing::list_calls;
use crate::positions::find_positions;
use crate::seeing::see_all;
use span_requests::Requests;
use span_types::Span;
use std::alloc::{AllocError, Global};

/// Gives the same number as an index.
fn as_index(number: Option<u32>) -> Option<usize>
    ensures { result ≡ number }
{
    match number {
        Some(number) => Some(number as usize),
        None => None,
    }
}

/// Gives the same numbers as indexes. The only error is out of memory.
fn as_indexes(alloc: Global, numbers: &[Option<u32>]) -> Result<Vec<Option<usize>>, AllocError>
    ensures { IfOk result (λ indexes. indexes.items ≡ numbers.now) }
{
    let mut indexes = Vec::with_capacity(alloc, numbers.len())?;
    for number in numbers {
        indexes.push(as_index(*number))?;
    }
    Ok(indexes)
}

/// Makes the calls with these numbers. The only error is out of memory.
fn make_calls<'a>(
    alloc: Global,
    spans: &[&'a Span],
    callers: &[Option<usize>],
    keys: &[CallKey<'a>],
    numbers: &[usize],
) -> Result<Vec<Call<'a>>, AllocError>
    requires called { AreCallers callers.now }
    requires same { length callers.now ≡ length spans.now }
    requires keys { all_moments keys.now
        ≡ table_of (moments_at (lent_spans spans.now) callers.now) (length spans.now) }
    requires within { All (λ n. n < length spans.now) numbers.now }
    ensures { IfOk result (λ calls.
        AreCallsAt (lent_spans spans.now) callers.now numbers.now calls.items) }
{
    let positions = find_positions(alloc, numbers, callers)?;
    let mut calls = Vec::with_capacity(alloc, numbers.len())?;
    for at in 0..numbers.len() {
        let number = numbers[at];
        calls.push(Call {
            span: spans[number],
            caller: positions[at],
            start: keys[number].start,
            end: keys[number].end,
        })?;
    }
    Ok(calls)
}

/// Lists the calls of the requests that are asked for, each caller before what it calls, in order.
/// The only error is out of memory.
pub fn find_calls<'a>(
    alloc: Global,
    requests: &Requests<'a>,
    asked: Option<&str>,
) -> Result<Vec<Call<'a>>, AllocError>
    requires called { AreCallers requests.now.callers.items }
    requires ends { HaveLastCallers requests.now.callers.items }
    requires same { length requests.now.callers.items ≡ length requests.now.spans.items }
    requires within { All (λ e. e < length requests.now.spans.items) requests.now.entries.items }
    ensures calls { IfOk result (λ calls. AreCalls (lent_spans requests.now.spans.items)
        requests.now.callers.items (option_copied asked.entry) requests.now.entries.items calls.items) }
    ensures before { IfOk result (λ calls. AreBefore calls.items) }
    ensures rise { IfOk result (λ calls. AreRoots requests.now.callers.items requests.now.entries.items
        → StartInOrder calls.items) }
{
    let callers = as_indexes(alloc, &requests.callers)?;
    let keys = see_all(alloc, &requests.spans, &callers)?;
    let entries = asked_entries(alloc, &requests.spans, &requests.entries, asked)?;
    let numbers = list_calls(alloc, &callers, &keys, &entries)?;
    make_calls(alloc, &requests.spans, &callers, &keys, &numbers)
}
