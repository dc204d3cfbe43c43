ghost use Rattle.std.specs.Prelude.{◌≡◌, ◌<◌, None, Some, length, IfOk, IfSome};
ghost use Rattle.call_trees.specs.Tables.{table_of};
ghost use Rattle.span_calls.specs.Calls.{moments_at, moments_by};
ghost use Rattle.span_calls.specs.Seen.{caller_in, duration, is_moved, seen_end_by, seen_start};
ghost use Rattle.span_calls.specs.Seen.{seen_start_by};
ghost use Rattle.span_calls.specs.inner.CallKeys.{all_moments, moments_of};
ghost use Rattle.span_requests.specs.CallerNumbers.{AreCallers};
ghost use Rattle.span_requests.specs.SpansOnce.{lent_spans};

use crate::call_key::CallKey;
use span_types::Span;
use std::alloc::{AllocError, Global};

/// Gives how long a span is, in nanoseconds.
fn duration(span: &Span) -> u64
    ensures { result ≡ duration span.now }
{
    span.end.saturating_sub(span.start)
}

/// Tells whether a call lies outside of its caller, on another machine.
fn is_moved(caller: &Span, call: &Span) -> bool
    ensures { result ≡ is_moved caller.now call.now }
{
    caller.machine != call.machine && !(caller.start <= call.start && call.end <= caller.end)
}

/// Gives when a call starts as its caller sees it.
fn seen_start(caller: &Span, call: &Span) -> u64
    ensures { result ≡ seen_start caller.now call.now }
{
    if is_moved(caller, call) {
        let spare = duration(caller).saturating_sub(duration(call));
        return caller.start.saturating_add(spare / 2);
    }
    call.start
}

/// Gives what a span with this caller is ordered by.
fn see_call<'a>(caller: &Span, call: &'a Span) -> CallKey<'a>
    ensures { moments_of result ≡ moments_by (Some caller.now) call.now }
{
    let start = seen_start(caller, call);
    CallKey {
        start,
        end: start.saturating_add(duration(call)),
        id: call.id.as_str(),
    }
}

/// Gives what a span without a caller is ordered by.
fn see_entry(span: &Span) -> CallKey<'_>
    ensures { moments_of result ≡ moments_by None span.now }
{
    CallKey {
        start: span.start,
        end: span.end,
        id: span.id.as_str(),
    }
}

/// Gives what a span is ordered by.
fn see<'a>(spans: &[&'a Span], caller: Option<usize>, span: &'a Span) -> CallKey<'a>
    requires { IfSome caller (λ c. c < length spans.now) }
    ensures { moments_of result ≡ moments_by (caller_in (lent_spans spans.now) caller) span.now }
{
    match caller {
        Some(caller) => see_call(spans[caller], span),
        None => see_entry(span),
    }
}

/// Gives what each span is ordered by. The only error is out of memory.
pub(crate) fn see_all<'a>(
    alloc: Global,
    spans: &[&'a Span],
    callers: &[Option<usize>],
) -> Result<Vec<CallKey<'a>>, AllocError>
    requires callers { AreCallers callers.now }
    requires same { length callers.now ≡ length spans.now }
    ensures { IfOk result (λ keys. all_moments keys.items
        ≡ table_of (moments_at (lent_spans spans.now) callers.now) (length spans.now)) }
{
    let mut keys = Vec::with_capacity(alloc, spans.len())?;
    for at in 0..spans.len() {
        keys.push(see(spans, callers[at], spans[at]))?;
    }
    Ok(keys)
}
