ghost use Rattle.std.specs.Prelude.{◌≡◌, ◌+◌, length};
ghost use Rattle.json.specs.Value.{value_view};
ghost use Rattle.span_text.specs.Outcomes.{after};
ghost use Rattle.span_text.specs.Places.{GivesAt};
ghost use Rattle.zipkin_spans.specs.SpansOfZipkin.{span_said, element_said};

use crate::span_reading::read_span;
use json::Value;
use span_text::{NumberedReader, Placed, SpanError, list_items, read_numbered_items};
use std::alloc::Global;

/// Reads spans.
#[derive(Clone, Copy)]
pub(crate) struct SpanReader;

impl NumberedReader for SpanReader {
    ghost says = { λ _. span_said };

    /// Appends a span.
    fn read_numbered_item(
        &self,
        alloc: Global,
        item: &Value<'_>,
        spans: &mut Vec<Placed>,
    ) -> Result<(), SpanError> {
        let place = spans.len() + 1;
        match read_span(alloc, item) {
            Ok(span) => {
                spans.push(Placed { place, span })?;
                Ok(())
            }
            Err(error) => Err(error.at(place)),
        }
    }
}

/// Reads spans, and traces as lists of spans.
#[derive(Clone, Copy)]
pub(crate) struct ElementReader;

impl NumberedReader for ElementReader {
    ghost says = { λ _. element_said };

    /// Appends a span, or the spans of a trace.
    fn read_numbered_item(
        &self,
        alloc: Global,
        item: &Value<'_>,
        spans: &mut Vec<Placed>,
    ) -> Result<(), SpanError> {
        match list_items(item) {
            Some(items) => read_numbered_items(alloc, &SpanReader, items, spans),
            None => SpanReader.read_numbered_item(alloc, item, spans),
        }
    }
}
