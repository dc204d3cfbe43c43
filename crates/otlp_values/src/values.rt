ghost use Rattle.json.specs.Value.{value_view};
ghost use Rattle.span_text.specs.Outcomes.{Gives, after};
ghost use Rattle.otlp_values.specs.SpansOfOtlp.{is_other_signal, spans_of_value};
ghost use Rattle.std.specs.Prelude.{◌≡◌};

use crate::resources::ResourceReader;
use json::Value;
use span_text::{Member, Placed, ReadError, Why, given, objects, read_items};
use std::alloc::Global;

/// Tells whether a value has metrics or log records.
fn is_other_signal(value: &Value<'_>) -> bool
    ensures { result ≡ is_other_signal (value_view value.now) }
{
    given(value, Member::ResourceMetrics).is_some() || given(value, Member::ResourceLogs).is_some()
}

/// Appends the spans of a value.
#[tactic(auto, unfolding(crate::specs::SpansOfOtlp::spans_of_value))]
pub fn read_value(
    alloc: Global,
    line: usize,
    value: &Value<'_>,
    spans: &mut Vec<Placed>,
) -> Result<(), ReadError>
    ensures { Gives (λ _. spans.new.items) result
        (after spans.old.items (spans_of_value line (value_view value.now))) }
{
    let resources = objects(value, Member::ResourceSpans)?;
    if given(value, Member::ResourceSpans).is_some() {
        return read_items(alloc, &ResourceReader { line }, resources, spans);
    }
    if is_other_signal(value) {
        return Ok(());
    }
    Err(ReadError::Refused(Why::Missing(Member::ResourceSpans)))
}
