ghost use Rattle.std.specs.Prelude.{◌≡◌};
ghost use Rattle.span_requests.specs.SpansOnce.{have_one_content, have_one_parent, kind_number};

use span_types::{Span, SpanKind};
use trace_types::Text;

/// Tells whether two spans have one parent, or none.
fn have_one_parent(first: &Option<Text>, second: &Option<Text>) -> bool
    ensures { result ≡ have_one_parent first.now second.now }
{
    match (first, second) {
        (None, None) => true,
        (Some(first), Some(second)) => first == second,
        _ => false,
    }
}

/// Gives the number of a kind in OpenTelemetry's protocol.
fn kind_number(kind: SpanKind) -> u8
    ensures { result ≡ kind_number kind }
{
    match kind {
        SpanKind::Unspecified => 0,
        SpanKind::Internal => 1,
        SpanKind::Server => 2,
        SpanKind::Client => 3,
        SpanKind::Producer => 4,
        SpanKind::Consumer => 5,
    }
}

/// Tells whether two spans say the same besides their ids.
pub(crate) fn have_one_content(first: &Span, second: &Span) -> bool
    ensures { result ≡ have_one_content first.now second.now }
{
    have_one_parent(&first.parent, &second.parent)
        && first.service == second.service
        && first.machine == second.machine
        && first.name == second.name
        && kind_number(first.kind) == kind_number(second.kind)
        && first.start == second.start
        && first.end == second.end
}
