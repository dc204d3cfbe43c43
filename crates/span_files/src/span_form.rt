ghost use Rattle.span_files.specs.SpansOfForms.{spans_by};
ghost use Rattle.span_text.specs.Places.{GivesAt};

use span_text::{Placed, SpanError};
use std::alloc::Global;

/// A form that spans are exported in.
#[derive(Clone, Copy, Debug, PartialEq, Eq)]
pub enum SpanForm {
    /// OpenTelemetry's protocol in JSON.
    Otlp,
    /// What Jaeger exports.
    Jaeger,
    /// What Zipkin exports.
    Zipkin,
}

impl SpanForm {
    /// Reads the spans of a file, each with its place there, in order.
    ///
    /// The errors are `Memory`, and `Refused` with the first fault.
    pub fn read(self, alloc: Global, bytes: &[u8]) -> Result<Vec<Placed>, SpanError>
        ensures { GivesAt (λ v. v.items) result (spans_by self bytes.now) }
    {
        match self {
            SpanForm::Otlp => otlp_spans::read_spans(alloc, bytes),
            SpanForm::Jaeger => jaeger_spans::read_spans(alloc, bytes),
            SpanForm::Zipkin => zipkin_spans::read_spans(alloc, bytes),
        }
    }
}
