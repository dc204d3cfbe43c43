ghost use Rattle.std.specs.Prelude.{◌≡◌};
ghost use Rattle.json.specs.Value.{value_view};
ghost use Rattle.span_text.specs.Outcomes.{Gives};
ghost use Rattle.span_text.specs.Spans.{origin_view};
ghost use Rattle.otlp_values.specs.SpansOfOtlp.{ids_at, times_at, span_of};

use crate::kinds::read_kind;
use json::Value;
use span_text::{
    Member, Origin, ReadError, SpanIds, make_span, optional_id, required_id, required_text,
    required_whole, times,
};
use span_types::Span;
use std::alloc::Global;

/// Reads the ids of a span.
#[tactic(auto, unfolding(crate::specs::SpansOfOtlp::ids_at))]
fn read_ids(alloc: Global, span: &Value<'_>) -> Result<SpanIds, ReadError>
    ensures { Gives (λ i. i) result (ids_at (value_view span.now)) }
{
    let trace = required_id(alloc, span, 32, 32, Member::TraceId)?;
    let id = required_id(alloc, span, 16, 16, Member::SpanId)?;
    let parent = optional_id(alloc, span, 16, 16, Member::ParentSpanId)?;
    Ok(SpanIds { trace, id, parent })
}

/// Reads the start and the end of a span.
#[tactic(auto, unfolding(crate::specs::SpansOfOtlp::times_at))]
fn read_times(span: &Value<'_>) -> Result<(u64, u64), ReadError>
    ensures { Gives (λ t. t) result (times_at (value_view span.now)) }
{
    let start = required_whole(span, Member::StartTimeUnixNano)?;
    let end = required_whole(span, Member::EndTimeUnixNano)?;
    times(start, end)
}

/// Reads a span that was recorded there.
#[tactic(auto, unfolding(crate::specs::SpansOfOtlp::span_of))]
pub(crate) fn read_span(
    alloc: Global,
    origin: &Origin<'_>,
    span: &Value<'_>,
) -> Result<Span, ReadError>
    ensures { Gives (λ s. s) result (span_of (origin_view origin.now) (value_view span.now)) }
{
    let kind = read_kind(span)?;
    let ids = read_ids(alloc, span)?;
    let name = required_text(span, Member::Name)?;
    let times = read_times(span)?;
    Ok(make_span(alloc, ids, origin, name, kind, times)?)
}
