ghost use Rattle.std.specs.Prelude.{◌≡◌, option_map};
ghost use Rattle.json.specs.Value.{value_view};
ghost use Rattle.span_text.specs.Outcomes.{Gives};
ghost use Rattle.jaeger_spans.specs.SpansOfJaeger.{links_with, links_at, times_at, span_of};
ghost use Rattle.jaeger_spans.specs.inner.ParentViews.{parent_view};
ghost use Rattle.jaeger_spans.specs.inner.LinksViews.{links_view};

use crate::kinds::kind_of;
use crate::origins::read_origin;
use crate::parents::{Parent, read_parent};
use json::Value;
use span_text::{
    Member, ReadError, SpanIds, make_span, micro_times, objects, required_id, required_text,
    required_whole,
};
use span_types::Span;
use std::alloc::Global;
use trace_types::Text;

/// The ids of a span, and whether it follows from its parent.
#[derive(Drop)]
struct Links {
    /// The ids.
    ids: SpanIds,
    /// It follows from its parent, which does not wait.
    follows: bool,
}

/// Makes links of the ids of a span and its parent.
fn links_with(trace: Text, id: Text, parent: Option<Parent>) -> Links
    ensures { links_view result ≡ links_with trace id (option_map parent_view parent) }
{
    match parent {
        Some(found) => Links {
            ids: SpanIds {
                trace,
                id,
                parent: Some(found.id),
            },
            follows: found.follows,
        },
        None => Links {
            ids: SpanIds {
                trace,
                id,
                parent: None,
            },
            follows: false,
        },
    }
}

/// Reads the ids of a span.
#[tactic(auto, unfolding(crate::specs::SpansOfJaeger::links_at))]
fn read_links(alloc: Global, span: &Value<'_>) -> Result<Links, ReadError>
    ensures { Gives links_view result (links_at (value_view span.now)) }
{
    let trace = required_id(alloc, span, 1, 32, Member::TraceIdOfJaeger)?;
    let id = required_id(alloc, span, 1, 16, Member::SpanIdOfJaeger)?;
    let parent = read_parent(alloc, trace.as_str(), span)?;
    Ok(links_with(trace, id, parent))
}

/// Reads the start and the end of a span.
#[tactic(auto, unfolding(crate::specs::SpansOfJaeger::times_at))]
fn read_times(span: &Value<'_>) -> Result<(u64, u64), ReadError>
    ensures { Gives (λ t. t) result (times_at (value_view span.now)) }
{
    let start = required_whole(span, Member::StartTime)?;
    let duration = required_whole(span, Member::Duration)?;
    micro_times(start, duration)
}

/// Reads a span of a trace.
#[tactic(auto, unfolding(crate::specs::SpansOfJaeger::span_of))]
pub(crate) fn read_span(
    alloc: Global,
    trace: &Value<'_>,
    span: &Value<'_>,
) -> Result<Span, ReadError>
    ensures { Gives (λ s. s) result (span_of (value_view trace.now) (value_view span.now)) }
{
    let origin = read_origin(trace, span)?;
    let links = read_links(alloc, span)?;
    let tags = objects(span, Member::Tags)?;
    let name = required_text(span, Member::OperationName)?;
    let times = read_times(span)?;
    let kind = kind_of(links.follows, tags);
    Ok(make_span(alloc, links.ids, &origin, name, kind, times)?)
}
