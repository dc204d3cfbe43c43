ghost use Rattle.std.specs.Prelude.{◌≡◌};
ghost use Rattle.json.specs.Value.{value_view};
ghost use Rattle.span_text.specs.Outcomes.{Gives};
ghost use Rattle.otlp_values.specs.Kinds.{kind_numbered, kind_named, kind_of, kind_at};

use json::Value;
use span_text::{Member, ReadError, Why, given, whole_number};
use span_types::SpanKind;

/// Finds the kind with this number.
fn kind_numbered(number: u64) -> Option<SpanKind>
    ensures { result ≡ kind_numbered number }
{
    match number {
        0 => Some(SpanKind::Unspecified),
        1 => Some(SpanKind::Internal),
        2 => Some(SpanKind::Server),
        3 => Some(SpanKind::Client),
        4 => Some(SpanKind::Producer),
        5 => Some(SpanKind::Consumer),
        _ => None,
    }
}

/// Finds the kind with this name.
fn kind_named(name: &str) -> Option<SpanKind>
    ensures { result ≡ kind_named name.now }
{
    if name == "SPAN_KIND_UNSPECIFIED" {
        Some(SpanKind::Unspecified)
    } else if name == "SPAN_KIND_INTERNAL" {
        Some(SpanKind::Internal)
    } else if name == "SPAN_KIND_SERVER" {
        Some(SpanKind::Server)
    } else if name == "SPAN_KIND_CLIENT" {
        Some(SpanKind::Client)
    } else if name == "SPAN_KIND_PRODUCER" {
        Some(SpanKind::Producer)
    } else if name == "SPAN_KIND_CONSUMER" {
        Some(SpanKind::Consumer)
    } else {
        None
    }
}

/// Finds the kind that a value is the number or the name of.
fn kind_of(value: &Value<'_>) -> Option<SpanKind>
    ensures { result ≡ kind_of (value_view value.now) }
{
    match value {
        Value::Number(text) => kind_numbered(whole_number(*text)?),
        Value::String(name) => kind_named(*name),
        _ => None,
    }
}

/// Reads the kind of a span; unspecified where it is absent.
pub(crate) fn read_kind(span: &Value<'_>) -> Result<SpanKind, ReadError>
    ensures { Gives (λ k. k) result (kind_at (value_view span.now)) }
{
    match given(span, Member::Kind) {
        None => Ok(SpanKind::Unspecified),
        Some(value) => match kind_of(value) {
            Some(kind) => Ok(kind),
            None => Err(ReadError::Refused(Why::Bad(Member::Kind))),
        },
    }
}
