ghost use Rattle.std.specs.Prelude.{◌≡◌, ◌<◌, ◌==◌, ◌++◌, ◌∷◌, [], length, map, IfOk, OnOk};
ghost use Rattle.std.specs.Prelude.{if◌then◌else◌};
ghost use Rattle.span_requests.specs.SpansOnce.{spans_once};
ghost use Rattle.span_requests.specs.inner.Ids.{lent_spans, pairs_of, pairs_of_keys};
ghost use Rattle.span_requests.specs.inner.Numbering.{AreNumbered};

use crate::ids::number_id;
use crate::span_id::SpanId;
use indexmap::IndexSet;
use span_types::Span;
use std::alloc::{AllocError, Global};

/// Appends a span, if its number is the next one.
fn push_first<'a>(
    spans: &mut Vec<&'a Span>,
    span: &'a Span,
    number: usize,
) -> Result<(), AllocError>
    ensures { OnOk result (lent_spans spans.new.items
        ≡ (if number == length spans.old.items then lent_spans spans.old.items ++ span.now ∷ []
        else lent_spans spans.old.items)) }
{
    if number == spans.len() {
        spans.push(span)?;
    }
    Ok(())
}

/// Numbers the spans of an input by their ids, from 0 in the order of first sight: gives the number
/// of each, and appends those that are first with their ids. The only error is out of memory.
pub(crate) fn number_spans<'a>(
    alloc: Global,
    input: &'a [Span],
    ids: &mut IndexSet<SpanId<'a>>,
    spans: &mut Vec<&'a Span>,
) -> Result<Vec<u32>, AllocError>
    requires no_ids { ids.old.keys ≡ [] }
    requires no_spans { spans.old.items ≡ [] }
    requires few { length input.now < u32.MAX }
    ensures spans { OnOk result (lent_spans spans.new.items ≡ spans_once input.now) }
    ensures ids { OnOk result (pairs_of_keys ids.new.keys ≡ pairs_of (spans_once input.now)) }
    ensures numbers { IfOk result (λ numbers.
        AreNumbered input.now (spans_once input.now) numbers.items) }
{
    let mut numbers = Vec::with_capacity(alloc, input.len())?;
    for span in input {
        let number = number_id(ids, SpanId::of(span))?;
        push_first(spans, span, number)?;
        numbers.push(number as u32)?;
    }
    Ok(numbers)
}
