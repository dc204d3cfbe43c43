ghost use Rattle.std.specs.Prelude.{◌≡◌};
ghost use Rattle.span_requests.specs.inner.Ids.{pair_of, pair_of_key};

use span_types::Span;

/// The id of a span, borrowed: that of its trace, and its own.
#[derive(Clone, Copy, Debug, PartialEq, Eq, Hash)]
pub(crate) struct SpanId<'a> {
    pub(crate) trace: &'a str,
    pub(crate) id: &'a str,
}

impl<'a> SpanId<'a> {
    /// Lends the id of a span.
    pub(crate) fn of(span: &'a Span) -> SpanId<'a>
        ensures { pair_of_key result ≡ pair_of span.now }
    {
        SpanId {
            trace: span.trace.as_str(),
            id: span.id.as_str(),
        }
    }
}
