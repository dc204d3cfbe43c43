ghost use Rattle.std.specs.Prelude.{◌≡◌, ◌<◌, All, is_some, length, IfOk};
ghost use Rattle.std.specs.List.{position_or_len};
ghost use Rattle.span_types.specs.declared.span.Span.{Span};
ghost use Rattle.std.specs.Str.{bytes_eq};
ghost use Rattle.span_requests.specs.CallerNumbers.{AreRoots};
ghost use Rattle.span_requests.specs.Callers.{is_consumer};
ghost use Rattle.span_requests.specs.Entries.{AreEntries, spans_at, traces_of};
ghost use Rattle.span_requests.specs.inner.EntryKeys.{AreKeys, entry_numbers, indexes_of};
ghost use Rattle.span_requests.specs.inner.Ids.{lent_spans, lent_texts};
ghost use Rattle.span_requests.specs.inner.Numbering.{caller_numbers};

use crate::callers::is_consumer;
use crate::entry_key::EntryKey;
use crate::traces::{find_trace, put_traces};
use indexmap::IndexSet;
use span_types::Span;
use std::alloc::{AllocError, Global};

/// Makes the key of an entry with this number.
fn key_of<'a>(traces: &IndexSet<&str>, span: &'a Span, index: u32) -> EntryKey<'a>
    requires { length (lent_texts traces.now.keys) < u32.MAX }
    ensures sight { result.first_sight
        ≡ position_or_len (bytes_eq span.now.trace) (lent_texts traces.now.keys) }
    ensures consumer { result.consumer ≡ is_consumer span.now.kind }
    ensures parented { result.parented ≡ is_some span.now.parent }
    ensures start { result.start ≡ span.now.start }
    ensures id { result.id.now ≡ span.now.id }
    ensures index { result.index ≡ index }
{
    EntryKey {
        first_sight: find_trace(traces, span.trace.as_str()) as u32,
        consumer: is_consumer(span.kind),
        parented: span.parent.is_some(),
        start: span.start,
        id: span.id.as_str(),
        index,
    }
}

/// Makes the keys of the spans that no span called. The only error is out of memory.
fn entry_keys<'a>(
    alloc: Global,
    spans: &[&'a Span],
    callers: &[Option<u32>],
    traces: &IndexSet<&str>,
) -> Result<Vec<EntryKey<'a>>, AllocError>
    requires traces { lent_texts traces.now.keys ≡ traces_of (lent_spans spans.now) }
    requires same { length callers.now ≡ length spans.now }
    requires few { length spans.now < u32.MAX }
    ensures keys { IfOk result (λ keys. AreKeys (lent_spans spans.now) keys.items) }
    ensures indexes { IfOk result (λ keys.
        indexes_of keys.items ≡ entry_numbers callers.now (length spans.now)) }
{
    let mut keys = Vec::new(alloc);
    for at in 0..spans.len() {
        if callers[at].is_none() {
            keys.push(key_of(traces, spans[at], at as u32))?;
        }
    }
    Ok(keys)
}

/// Gives the numbers of keys, in order.
fn numbers_of(alloc: Global, keys: &[EntryKey<'_>]) -> Result<Vec<u32>, AllocError>
    ensures { IfOk result (λ numbers. numbers.items ≡ indexes_of keys.now) }
{
    let mut numbers = Vec::with_capacity(alloc, keys.len())?;
    for key in keys {
        numbers.push(key.index)?;
    }
    Ok(numbers)
}

/// Finds the entries of spans, in the order of their requests. The only error is out of memory.
pub(crate) fn find_entries(
    alloc: Global,
    spans: &[&Span],
    callers: &[Option<u32>],
) -> Result<Vec<u32>, AllocError>
    requires callers { callers.now ≡ caller_numbers (lent_spans spans.now) }
    requires few { length spans.now < u32.MAX }
    ensures entries { IfOk result (λ entries. (d : Span) →
        AreEntries (lent_spans spans.now) (spans_at (lent_spans spans.now) d entries.items)) }
    ensures within { IfOk result (λ entries. All (λ n. n < length spans.now) entries.items) }
    ensures roots { IfOk result (λ entries. AreRoots callers.now entries.items) }
{
    let mut traces = IndexSet::new(alloc);
    put_traces(spans, &mut traces)?;
    let mut keys = entry_keys(alloc, spans, callers, &traces)?;
    keys.sort_unstable();
    numbers_of(alloc, &keys)
}
