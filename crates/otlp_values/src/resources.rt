ghost use Rattle.std.specs.Prelude.{◌≡◌, map, option_map, option_and_then, Some};
ghost use Rattle.json.specs.Value.{value_view};
ghost use Rattle.span_text.specs.Outcomes.{Gives, after};
ghost use Rattle.span_text.specs.Spans.{origin_view};
ghost use Rattle.otlp_values.specs.SpansOfOtlp.{placed_span, spans_of_scope, spans_of_resource};
ghost use Rattle.otlp_values.specs.SpansOfOtlp.{origin_of, attributes_of, scopes_of};

use crate::span_reading::read_span;
use json::Value;
use span_text::{
    ItemReader, Member, Origin, Placed, ReadError, TagForm, no_items, objects, optional_object,
    read_items, tag,
};
use std::alloc::Global;

/// Reads the spans of a scope.
#[derive(Drop)]
struct SpanReader<'a> {
    /// The number of the line.
    line: usize,
    /// Who recorded the spans.
    origin: Origin<'a>,
}

impl<'a> ItemReader for SpanReader<'a> {
    ghost says = { λ r. placed_span r.line (origin_view r.origin) };

    /// Appends a span.
    fn read_item(
        &self,
        alloc: Global,
        item: &Value<'_>,
        spans: &mut Vec<Placed>,
    ) -> Result<(), ReadError> {
        let span = read_span(alloc, &self.origin, item)?;
        let place = self.line;
        spans.push(Placed { place, span })?;
        Ok(())
    }
}

/// Reads the scopes of a resource.
#[derive(Drop)]
struct ScopeReader<'a> {
    /// The number of the line.
    line: usize,
    /// Who recorded the spans.
    origin: Origin<'a>,
}

impl<'a> ItemReader for ScopeReader<'a> {
    ghost says = { λ r. spans_of_scope r.line (origin_view r.origin) };

    /// Appends the spans of a scope.
    #[tactic(auto, unfolding(crate::specs::SpansOfOtlp::spans_of_scope))]
    fn read_item(
        &self,
        alloc: Global,
        item: &Value<'_>,
        spans: &mut Vec<Placed>,
    ) -> Result<(), ReadError> {
        let found = objects(item, Member::Spans)?;
        let reader = SpanReader {
            line: self.line,
            origin: self.origin,
        };
        read_items(alloc, &reader, found, spans)
    }
}

/// Takes the service and the machine that attributes name.
fn origin_of<'a>(attributes: &[Value<'a>]) -> Origin<'a>
    ensures { origin_view result ≡ origin_of (map value_view attributes.now) }
{
    let service = tag(TagForm::Kinds, "service.name", attributes).unwrap_or("unknown_service");
    let instance = tag(TagForm::Kinds, "service.instance.id", attributes).unwrap_or(service);
    let machine = tag(TagForm::Kinds, "host.name", attributes).unwrap_or(instance);
    Origin { service, machine }
}

/// Finds the attributes of a resource.
fn attributes_of<'v, 'a>(
    value: &'v Value<'a>,
    resource: Option<&'v Value<'a>>,
) -> Result<&'v [Value<'a>], ReadError>
    ensures { Gives (λ s. map value_view s.now) result
        (attributes_of (option_map (λ v. value_view v.now) resource.entry)) }
{
    match resource {
        Some(found) => objects(found, Member::Attributes),
        None => Ok(no_items(value)),
    }
}

/// Finds the scopes of a resource.
#[tactic(auto, unfolding(crate::specs::SpansOfOtlp::scopes_of))]
fn scopes_of<'v, 'a>(value: &'v Value<'a>) -> Result<&'v [Value<'a>], ReadError>
    ensures { Gives (λ s. map value_view s.now) result (scopes_of (value_view value.now)) }
{
    let scopes = objects(value, Member::ScopeSpans)?;
    if scopes.is_empty() {
        return objects(value, Member::InstrumentationLibrarySpans);
    }
    Ok(scopes)
}

/// Reads the resources of a value.
#[derive(Drop)]
pub(crate) struct ResourceReader {
    /// The number of the line.
    pub(crate) line: usize,
}

impl ItemReader for ResourceReader {
    ghost says = { λ r. spans_of_resource r.line };

    /// Appends the spans of a resource.
    #[tactic(auto, unfolding(crate::specs::SpansOfOtlp::spans_of_resource))]
    fn read_item(
        &self,
        alloc: Global,
        item: &Value<'_>,
        spans: &mut Vec<Placed>,
    ) -> Result<(), ReadError> {
        let resource = optional_object(item, Member::Resource)?;
        let attributes = attributes_of(item, resource)?;
        let scopes = scopes_of(item)?;
        let reader = ScopeReader {
            line: self.line,
            origin: origin_of(attributes),
        };
        read_items(alloc, &reader, scopes, spans)
    }
}
