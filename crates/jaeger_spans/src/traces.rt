ghost use Rattle.std.specs.Prelude.{◌≡◌, ◌+◌, length, map};
ghost use Rattle.json.specs.Value.{value_view};
ghost use Rattle.span_text.specs.Outcomes.{Gives, after};
ghost use Rattle.span_text.specs.Places.{GivesAt};
ghost use Rattle.jaeger_spans.specs.SpansOfJaeger.{required_objects, span_said, trace_said};

use crate::span_reading::read_span;
use json::Value;
use span_text::{
    Member, NumberedReader, Placed, ReadError, SpanError, objects_of, read_numbered_items, required,
};
use std::alloc::Global;

/// Finds the objects of a list that must be there.
#[tactic(auto, unfolding(crate::specs::SpansOfJaeger::required_objects))]
pub(crate) fn required_objects<'v, 'a>(
    value: &'v Value<'a>,
    member: Member,
) -> Result<&'v [Value<'a>], ReadError>
    ensures { Gives (λ s. map value_view s.now) result
        (required_objects member (value_view value.now)) }
{
    let found = required(value, member)?;
    objects_of(found, member)
}

/// Reads the spans of a trace.
#[derive(Drop)]
struct SpanReader<'v, 'a> {
    /// The trace.
    trace: &'v Value<'a>,
}

impl<'v, 'a> NumberedReader for SpanReader<'v, 'a> {
    ghost says = { λ r. span_said (value_view r.trace.now) };

    /// Appends a span.
    fn read_numbered_item(
        &self,
        alloc: Global,
        item: &Value<'_>,
        spans: &mut Vec<Placed>,
    ) -> Result<(), SpanError> {
        let place = spans.len() + 1;
        match read_span(alloc, self.trace, item) {
            Ok(span) => {
                spans.push(Placed { place, span })?;
                Ok(())
            }
            Err(error) => Err(error.at(place)),
        }
    }
}

/// Reads traces.
#[derive(Clone, Copy)]
pub(crate) struct TraceReader;

impl NumberedReader for TraceReader {
    ghost says = { λ _. trace_said };

    /// Appends the spans of a trace.
    fn read_numbered_item(
        &self,
        alloc: Global,
        item: &Value<'_>,
        spans: &mut Vec<Placed>,
    ) -> Result<(), SpanError> {
        match required_objects(item, Member::Spans) {
            Ok(found) => read_numbered_items(alloc, &SpanReader { trace: item }, found, spans),
            Err(error) => Err(error.at(spans.len() + 1)),
        }
    }
}
