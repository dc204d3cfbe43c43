//! Spans of distributed traces, as their exporters write them: what OpenTelemetry, Jaeger and Zipkin
//! have in common.
#![tactic(auto)]

mod span;
mod span_kind;

pub use span::Span;
pub use span_kind::SpanKind;
