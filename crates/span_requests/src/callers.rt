ghost use Rattle.std.specs.Prelude.{◌≡◌, ◌<◌, ◌&&◌, None, length, IfOk};
ghost use Rattle.std.specs.Prelude.{if◌then◌else◌, is_none, is_some};
ghost use Rattle.std.specs.List.{count_by};
ghost use Rattle.span_requests.specs.Callers.{is_consumer, misses_parent};
ghost use Rattle.span_requests.specs.inner.Ids.{lent_spans, pairs_of, pairs_of_keys};
ghost use Rattle.span_requests.specs.inner.Numbering.{caller_numbers, parent_numbers, parent_place};

use crate::ids::find_id;
use crate::span_id::SpanId;
use indexmap::IndexSet;
use span_types::{Span, SpanKind};
use std::alloc::{AllocError, Global};

/// Tells whether a span takes a message from a queue.
pub(crate) fn is_consumer(kind: SpanKind) -> bool
    ensures { result ≡ is_consumer kind }
{
    matches!(kind, SpanKind::Consumer)
}

/// Finds the number of the parent of a span.
fn find_parent(ids: &IndexSet<SpanId<'_>>, span: &Span) -> Option<u32>
    requires { length (pairs_of_keys ids.now.keys) < u32.MAX }
    ensures { result ≡ parent_place (pairs_of_keys ids.now.keys) span.now.trace span.now.parent }
{
    let Some(parent) = &span.parent else {
        return None;
    };
    let id = SpanId {
        trace: span.trace.as_str(),
        id: parent.as_str(),
    };
    match find_id(ids, id) {
        Some(number) => Some(number as u32),
        None => None,
    }
}

/// Finds the number of the parent of each span. The only error is out of memory.
pub(crate) fn find_parents(
    alloc: Global,
    spans: &[&Span],
    ids: &IndexSet<SpanId<'_>>,
) -> Result<Vec<Option<u32>>, AllocError>
    requires ids { pairs_of_keys ids.now.keys ≡ pairs_of (lent_spans spans.now) }
    requires few { length spans.now < u32.MAX }
    ensures { IfOk result (λ parents. parents.items ≡ parent_numbers (lent_spans spans.now)) }
{
    let mut parents = Vec::with_capacity(alloc, spans.len())?;
    for span in spans {
        parents.push(find_parent(ids, span))?;
    }
    Ok(parents)
}

/// Tells whether a span has a parent of which no number is known.
fn misses_parent(span: &Span, parent: Option<u32>) -> bool
    ensures { result ≡ (is_some span.now.parent && is_none parent) }
{
    span.parent.is_some() && parent.is_none()
}

/// Counts the spans whose parent is missing.
pub(crate) fn count_missing(spans: &[&Span], parents: &[Option<u32>]) -> usize
    requires { parents.now ≡ parent_numbers (lent_spans spans.now) }
    ensures { result ≡ count_by (misses_parent (lent_spans spans.now)) (lent_spans spans.now) }
{
    let mut count = 0;
    for at in 0..spans.len() {
        if misses_parent(spans[at], parents[at]) {
            count += 1;
        }
    }
    count
}

/// Gives the number of the caller of a span, from that of its parent.
fn caller_by(span: &Span, parent: Option<u32>) -> Option<u32>
    ensures { result ≡ (if is_consumer span.now.kind then None else parent) }
{
    if is_consumer(span.kind) { None } else { parent }
}

/// Makes the numbers of callers from those of parents. The only error is out of memory.
pub(crate) fn find_callers(
    alloc: Global,
    spans: &[&Span],
    parents: &[Option<u32>],
) -> Result<Vec<Option<u32>>, AllocError>
    requires { parents.now ≡ parent_numbers (lent_spans spans.now) }
    ensures { IfOk result (λ callers. callers.items ≡ caller_numbers (lent_spans spans.now)) }
{
    let mut callers = Vec::with_capacity(alloc, spans.len())?;
    for at in 0..spans.len() {
        callers.push(caller_by(spans[at], parents[at]))?;
    }
    Ok(callers)
}
