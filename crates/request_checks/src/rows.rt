use span_requests::{Requests, SpanFault, find_requests};
use span_types::{Span, SpanKind};
use std::alloc::{AllocError, Global};
use std::process::Abort;
use std::test::Fail;
use trace_types::Text;

/// A span: its trace, its id, its parent, with an empty text for none, its kind and its start.
#[derive(Clone, Copy)]
pub(crate) struct Row<'a>(
    pub(crate) &'a str,
    pub(crate) &'a str,
    pub(crate) &'a str,
    pub(crate) SpanKind,
    pub(crate) u64,
);

/// Makes the parent of a row.
fn parent(alloc: Global, id: &str) -> Result<Option<Text>, AllocError> {
    if id.is_empty() {
        return Ok(None);
    }
    Ok(Some(Text::new(alloc, id)?))
}

/// Makes the span of a row.
fn span(alloc: Global, row: Row<'_>) -> Result<Span, AllocError> {
    Ok(Span {
        trace: Text::new(alloc, row.0)?,
        id: Text::new(alloc, row.1)?,
        parent: parent(alloc, row.2)?,
        service: Text::new(alloc, "s")?,
        machine: Text::new(alloc, "h")?,
        name: Text::new(alloc, "a")?,
        kind: row.3,
        start: row.4,
        end: row.4.saturating_add(5),
    })
}

/// Makes the spans of rows.
fn all_spans(alloc: Global, rows: &[Row<'_>]) -> Result<Vec<Span>, AllocError> {
    let mut spans = Vec::new(alloc);
    for row in rows {
        spans.push(span(alloc, *row)?)?;
    }
    Ok(spans)
}

/// Gives the requests of spans as a text, or the fault.
fn answer(alloc: Global, found: &Result<Requests<'_>, SpanFault>) -> Result<String, AllocError> {
    match found {
        Ok(r) => format!(in alloc;
            "{} spans, entries {:?}, callers {:?}, {} missing",
            r.spans.len(),
            r.entries,
            r.callers,
            r.missing
        ),
        Err(fault) => format!(in alloc; "{fault:?}"),
    }
}

/// Finds the requests of spans, of which there are few.
fn find(alloc: Global, spans: &[Span]) -> Result<String, AllocError> {
    if spans.len() >= 1000 {
        return Err(AllocError);
    }
    answer(alloc, &find_requests(alloc, spans))
}

/// Expects these requests of the spans of rows, or this fault.
pub(crate) fn expect<R: Abort>(
    rt: &R,
    alloc: Global,
    rows: &[Row<'_>],
    wanted: &str,
) -> Result<(), Fail> {
    let spans = all_spans(alloc, rows)?;
    let given = find(alloc, &spans)?;
    assert_eq!(rt; given.as_str(), wanted);
    Ok(())
}
