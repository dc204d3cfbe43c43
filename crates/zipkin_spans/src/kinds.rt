ghost use Rattle.std.specs.Prelude.{◌≡◌};
ghost use Rattle.json.specs.Value.{value_view};
ghost use Rattle.span_text.specs.Outcomes.{Gives};
ghost use Rattle.zipkin_spans.specs.Kinds.{kind_named, kind_at};

use json::Value;
use span_text::{Member, ReadError, Why, optional_text};
use span_types::SpanKind;

/// Finds the kind with this name.
fn kind_named(name: &str) -> Option<SpanKind>
    ensures { result ≡ kind_named name.now }
{
    if name == "SERVER" {
        Some(SpanKind::Server)
    } else if name == "CLIENT" {
        Some(SpanKind::Client)
    } else if name == "PRODUCER" {
        Some(SpanKind::Producer)
    } else if name == "CONSUMER" {
        Some(SpanKind::Consumer)
    } else {
        None
    }
}

/// Reads the kind of a span; internal where it is absent.
#[tactic(auto, unfolding(crate::specs::Kinds::kind_at))]
pub(crate) fn read_kind(span: &Value<'_>) -> Result<SpanKind, ReadError>
    ensures { Gives (λ k. k) result (kind_at (value_view span.now)) }
{
    let Some(name) = optional_text(span, Member::Kind)? else {
        return Ok(SpanKind::Internal);
    };
    match kind_named(name) {
        Some(kind) => Ok(kind),
        None => Err(ReadError::Refused(Why::Bad(Member::Kind))),
    }
}
