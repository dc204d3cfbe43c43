ghost use Rattle.std.specs.Prelude.{◌≡◌, ◌<◌, length, IfOk};

use span_lines::{SpanText, print_spans};
use span_requests::SpanFault;
use span_types::{Span, SpanKind};
use std::alloc::{AllocError, Global};
use trace_types::Text;

/// A span: trace, id and parent (an empty one for none); service, machine and operation; its kind;
/// when it starts and ends.
#[derive(Clone, Copy, Debug)]
pub(crate) struct Row {
    ids: [&'static str; 3],
    names: [&'static str; 3],
    kind: SpanKind,
    times: [u64; 2],
}

/// Makes a row.
pub(crate) fn make_row(
    ids: [&'static str; 3],
    names: [&'static str; 3],
    kind: SpanKind,
    times: [u64; 2],
) -> Row {
    Row {
        ids,
        names,
        kind,
        times,
    }
}

/// Makes the parent of a span, if it has one.
fn parent_of(alloc: Global, id: &str) -> Result<Option<Text>, AllocError> {
    if id.is_empty() {
        return Ok(None);
    }
    Ok(Some(Text::new(alloc, id)?))
}

/// Makes the span of a row.
fn span_of(alloc: Global, row: &Row) -> Result<Span, AllocError> {
    Ok(Span {
        trace: Text::new(alloc, row.ids[0])?,
        id: Text::new(alloc, row.ids[1])?,
        parent: parent_of(alloc, row.ids[2])?,
        service: Text::new(alloc, row.names[0])?,
        machine: Text::new(alloc, row.names[1])?,
        name: Text::new(alloc, row.names[2])?,
        kind: row.kind,
        start: row.times[0],
        end: row.times[1],
    })
}

/// Makes the spans of rows.
pub(crate) fn made(alloc: Global, rows: &[Row]) -> Result<Vec<Span>, AllocError>
    ensures { IfOk result (λ spans. length spans.items ≡ length rows.now) }
{
    let mut spans = Vec::with_capacity(alloc, rows.len())?;
    for row in rows {
        spans.push(span_of(alloc, row)?)?;
    }
    Ok(spans)
}

/// Prints the lines of the spans of rows.
pub(crate) fn print(
    alloc: Global,
    rows: &[Row],
    grace: u64,
    entry: Option<&str>,
) -> Result<SpanText, SpanFault>
    requires { length rows.now < u32.MAX }
{
    let spans = made(alloc, rows)?;
    print_spans(alloc, &spans, grace, entry)
}
