ghost use Rattle.std.specs.Prelude.{◌≡◌, IfOk};
ghost use Rattle.span_text.specs.Spans.{origin_view, name_or_unknown, span_with};

use span_types::{Span, SpanKind};
use std::alloc::{AllocError, Global};
use trace_types::Text;

/// Who recorded a span: a service, and the machine whose clock its times are of.
#[derive(Clone, Copy, Debug)]
pub struct Origin<'a> {
    /// The service.
    pub service: &'a str,
    /// The machine.
    pub machine: &'a str,
}

/// The ids of a span.
#[derive(Debug, Drop)]
pub struct SpanIds {
    /// The id of its trace.
    pub trace: Text,
    /// Its own id.
    pub id: Text,
    /// The id of its parent.
    pub parent: Option<Text>,
}

/// Gives the name of a span; an empty one is unknown.
fn name_or_unknown(name: &str) -> &str
    ensures { result.now ≡ name_or_unknown name.now }
{
    if name.is_empty() { "unknown" } else { name }
}

/// Makes a span of its parts. The only error is out of memory.
pub fn make_span(
    alloc: Global,
    ids: SpanIds,
    origin: &Origin<'_>,
    name: &str,
    kind: SpanKind,
    times: (u64, u64),
) -> Result<Span, AllocError>
    ensures { IfOk result (λ s. s ≡ span_with ids (origin_view origin.now) name.now kind times) }
{
    Ok(Span {
        trace: ids.trace,
        id: ids.id,
        parent: ids.parent,
        service: Text::new(alloc, origin.service)?,
        machine: Text::new(alloc, origin.machine)?,
        name: Text::new(alloc, name_or_unknown(name))?,
        kind,
        start: times.0,
        end: times.1,
    })
}
