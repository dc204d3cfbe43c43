use crate::SpanKind;
use trace_types::Text;

/// A span: an operation that a service carried out for a request. Times are in nanoseconds since
/// 1970 by the machine's own clock.
#[derive(Debug, Drop)]
pub struct Span {
    /// The id of its trace, in lower case.
    pub trace: Text,
    /// Its own id in the trace, in lower case.
    pub id: Text,
    /// The id of its parent in the trace.
    pub parent: Option<Text>,
    /// The service.
    pub service: Text,
    /// The machine whose clock its times are of.
    pub machine: Text,
    /// The operation.
    pub name: Text,
    /// Its side of a call.
    pub kind: SpanKind,
    /// When it starts.
    pub start: u64,
    /// When it ends.
    pub end: u64,
}
