ghost use Rattle.std.specs.Prelude.{◌≡◌, ◌<◌, [], length, IfErr, IfOk, OnOk};
ghost use Rattle.std.specs.List.{count_by};
ghost use Rattle.span_requests.specs.Callers.{caller_numbers, misses_parent};
ghost use Rattle.span_requests.specs.Faults.{HaveEntries, HaveOwnIds, IsFaultOf};
ghost use Rattle.span_requests.specs.Requests.{AreRequests};
ghost use Rattle.span_requests.specs.SpansOnce.{lent_spans, spans_once};
ghost use Rattle.span_requests.specs.inner.Ids.{pairs_of, pairs_of_keys};
ghost use Rattle.span_requests.specs.inner.Numbering.{AreNumbered};

use crate::SpanFault;
use crate::callers::{count_missing, find_callers, find_parents};
use crate::circles::find_circle;
use crate::entries::find_entries;
use crate::numbering::number_spans;
use crate::repeats::find_repeat;
use crate::span_id::SpanId;
use indexmap::IndexSet;
use span_types::Span;
use std::alloc::Global;

/// The spans of an input by number: their index in the order of first sight, from 0.
#[derive(Debug, Drop)]
pub struct Requests<'a> {
    /// The spans, each once.
    pub spans: Vec<&'a Span>,
    /// The number of the caller of each span, where it has one.
    pub callers: Vec<Option<u32>>,
    /// The numbers of the spans without a caller, in the order of their requests.
    pub entries: Vec<u32>,
    /// How many spans have a parent that is not among the spans.
    pub missing: usize,
}

/// Numbers the spans of an input, and refuses those that repeat an id with other content.
fn take_once<'a>(
    alloc: Global,
    input: &'a [Span],
    ids: &mut IndexSet<SpanId<'a>>,
    spans: &mut Vec<&'a Span>,
) -> Result<Vec<u32>, SpanFault>
    requires no_ids { ids.old.keys ≡ [] }
    requires no_spans { spans.old.items ≡ [] }
    requires few { length input.now < u32.MAX }
    ensures spans { OnOk result (lent_spans spans.new.items ≡ spans_once input.now) }
    ensures ids { OnOk result (pairs_of_keys ids.new.keys ≡ pairs_of (spans_once input.now)) }
    ensures numbers { IfOk result (λ numbers.
        AreNumbered input.now (spans_once input.now) numbers.items) }
    ensures own { OnOk result (HaveOwnIds input.now) }
    ensures fault { IfErr result (λ fault. IsFaultOf input.now fault) }
{
    let numbers = number_spans(alloc, input, ids, spans)?;
    match find_repeat(input, spans, &numbers) {
        Some(span) => Err(SpanFault::RepeatedId { span }),
        None => Ok(numbers),
    }
}

/// Finds the callers of spans, and refuses parents that form a circle; counts the spans whose
/// parent is missing.
fn take_callers(
    alloc: Global,
    input: &[Span],
    spans: &[&Span],
    ids: &IndexSet<SpanId<'_>>,
    numbers: &[u32],
    missing: &mut usize,
) -> Result<Vec<Option<u32>>, SpanFault>
    requires spans { lent_spans spans.now ≡ spans_once input.now }
    requires ids { pairs_of_keys ids.now.keys ≡ pairs_of (spans_once input.now) }
    requires numbers { AreNumbered input.now (spans_once input.now) numbers.now }
    requires own { HaveOwnIds input.now }
    requires few { length input.now < u32.MAX }
    ensures callers { IfOk result (λ callers.
        callers.items ≡ caller_numbers (spans_once input.now)) }
    ensures missing { OnOk result
        (missing.new ≡ count_by (misses_parent (spans_once input.now)) (spans_once input.now)) }
    ensures ends { OnOk result (HaveEntries input.now) }
    ensures fault { IfErr result (λ fault. IsFaultOf input.now fault) }
{
    let parents = find_parents(alloc, spans, ids)?;
    *missing = count_missing(spans, &parents);
    let callers = find_callers(alloc, spans, &parents)?;
    match find_circle(alloc, numbers, &callers)? {
        Some(span) => Err(SpanFault::Circle { span }),
        None => Ok(callers),
    }
}

/// Finds the requests of spans: which span called which, and which begin a request. A span that
/// stands twice counts once.
pub fn find_requests<'a>(alloc: Global, input: &'a [Span]) -> Result<Requests<'a>, SpanFault>
    requires few { length input.now < u32.MAX }
    ensures requests { IfOk result (λ r. AreRequests input.now r) }
    ensures own { OnOk result (HaveOwnIds input.now) }
    ensures ends { OnOk result (HaveEntries input.now) }
    ensures fault { IfErr result (λ fault. IsFaultOf input.now fault) }
{
    let mut ids = IndexSet::new(alloc);
    let mut spans = Vec::new(alloc);
    let mut missing = 0;
    let numbers = take_once(alloc, input, &mut ids, &mut spans)?;
    let callers = take_callers(alloc, input, &spans, &ids, &numbers, &mut missing)?;
    let entries = find_entries(alloc, &spans, &callers)?;
    Ok(Requests {
        spans,
        callers,
        entries,
        missing,
    })
}
