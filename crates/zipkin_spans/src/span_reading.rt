ghost use Rattle.std.specs.Prelude.{◌≡◌, option_map};
ghost use Rattle.json.specs.Value.{value_view};
ghost use Rattle.span_text.specs.Outcomes.{Gives};
ghost use Rattle.span_text.specs.Spans.{origin_view};
ghost use Rattle.zipkin_spans.specs.SpansOfZipkin.{ids_at, text_within, origin_with, origin_at};
ghost use Rattle.zipkin_spans.specs.SpansOfZipkin.{times_at, span_of};

use crate::kinds::read_kind;
use json::Value;
use span_text::{
    Member, Origin, ReadError, SpanIds, make_span, micro_times, optional_id, optional_object,
    optional_text, optional_whole, required_id, required_whole,
};
use span_types::Span;
use std::alloc::Global;

/// Reads the ids of a span.
#[tactic(auto, unfolding(crate::specs::SpansOfZipkin::ids_at))]
fn read_ids(alloc: Global, span: &Value<'_>) -> Result<SpanIds, ReadError>
    ensures { Gives (λ i. i) result (ids_at (value_view span.now)) }
{
    let trace = required_id(alloc, span, 1, 32, Member::TraceId)?;
    let id = required_id(alloc, span, 1, 16, Member::Id)?;
    let parent = optional_id(alloc, span, 1, 16, Member::ParentId)?;
    Ok(SpanIds { trace, id, parent })
}

/// Finds the text of a member of an object; none where the object is absent.
fn text_within<'v, 'a>(
    object: Option<&'v Value<'a>>,
    member: Member,
) -> Result<Option<&'v str>, ReadError>
    ensures { Gives (option_map (λ s. s.now)) result
        (text_within member (option_map (λ v. value_view v.now) object.entry)) }
{
    match object {
        Some(found) => optional_text(found, member),
        None => Ok(None),
    }
}

/// Takes the service and the machine, as far as they are named.
fn origin_with<'v>(
    service: Option<&'v str>,
    host: Option<&'v str>,
    address: Option<&'v str>,
) -> Origin<'v>
    ensures { origin_view result ≡ origin_with (option_map (λ s. s.now) service.entry)
        (option_map (λ s. s.now) host.entry) (option_map (λ s. s.now) address.entry) }
{
    let service = service.unwrap_or("unknown_service");
    let machine = host.unwrap_or(address.unwrap_or(service));
    Origin { service, machine }
}

/// Reads who recorded a span.
#[tactic(auto, unfolding(crate::specs::SpansOfZipkin::origin_at))]
fn read_origin<'v, 'a>(span: &'v Value<'a>) -> Result<Origin<'v>, ReadError>
    ensures { Gives origin_view result (origin_at (value_view span.now)) }
{
    let endpoint = optional_object(span, Member::LocalEndpoint)?;
    let service = text_within(endpoint, Member::ServiceName)?;
    let address = text_within(endpoint, Member::Ipv4)?;
    let tags = optional_object(span, Member::Tags)?;
    let host = text_within(tags, Member::HostName)?;
    Ok(origin_with(service, host, address))
}

/// Reads the start and the end of a span.
#[tactic(auto, unfolding(crate::specs::SpansOfZipkin::times_at))]
fn read_times(span: &Value<'_>) -> Result<(u64, u64), ReadError>
    ensures { Gives (λ t. t) result (times_at (value_view span.now)) }
{
    let start = required_whole(span, Member::Timestamp)?;
    let duration = optional_whole(span, Member::Duration)?;
    micro_times(start, duration)
}

/// Reads a span.
#[tactic(auto, unfolding(crate::specs::SpansOfZipkin::span_of))]
pub(crate) fn read_span(alloc: Global, span: &Value<'_>) -> Result<Span, ReadError>
    ensures { Gives (λ s. s) result (span_of (value_view span.now)) }
{
    let kind = read_kind(span)?;
    let ids = read_ids(alloc, span)?;
    let origin = read_origin(span)?;
    let name = optional_text(span, Member::Name)?.unwrap_or("");
    let times = read_times(span)?;
    Ok(make_span(alloc, ids, &origin, name, kind, times)?)
}
