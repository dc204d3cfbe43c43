ghost use Rattle.std.specs.Prelude.{◌≡◌, map};
ghost use Rattle.json.specs.Value.{value_view};
ghost use Rattle.jaeger_spans.specs.Kinds.{kind_named, kind_of};

use json::Value;
use span_text::{TagForm, tag};
use span_types::SpanKind;

/// Finds the kind with this name.
fn kind_named(name: &str) -> SpanKind
    ensures { result ≡ kind_named name.now }
{
    if name == "server" {
        SpanKind::Server
    } else if name == "client" {
        SpanKind::Client
    } else if name == "producer" {
        SpanKind::Producer
    } else if name == "consumer" {
        SpanKind::Consumer
    } else if name == "internal" {
        SpanKind::Internal
    } else {
        SpanKind::Unspecified
    }
}

/// Finds the kind of a span with these tags, given whether it follows from its parent.
pub(crate) fn kind_of(follows: bool, tags: &[Value<'_>]) -> SpanKind
    ensures { result ≡ kind_of follows (map value_view tags.now) }
{
    if follows {
        return SpanKind::Consumer;
    }
    match tag(TagForm::Plain, "span.kind", tags) {
        Some(name) => kind_named(name),
        None => SpanKind::Unspecified,
    }
}
