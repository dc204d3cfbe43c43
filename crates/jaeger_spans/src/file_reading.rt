ghost use Rattle.std.specs.Prelude.{◌≡◌};
ghost use Rattle.json.specs.Value.{value_view};
ghost use Rattle.span_text.specs.Places.{GivesAt};
ghost use Rattle.jaeger_spans.specs.SpansOfJaeger.{value_said, spans_said};

use crate::traces::{TraceReader, required_objects};
use json::{Scratch, Value};
use span_text::{Fault, Member, Placed, SpanError, Why, parse, read_numbered_items};
use std::alloc::Global;

/// Reads the spans of a value.
fn read_value(alloc: Global, value: &Value<'_>) -> Result<Vec<Placed>, SpanError>
    ensures { GivesAt (λ v. v.items) result (value_said (value_view value.now)) }
{
    let traces = match required_objects(value, Member::Data) {
        Ok(traces) => traces,
        Err(error) => return Err(error.at(1)),
    };
    let mut spans = Vec::new(alloc);
    read_numbered_items(alloc, &TraceReader, traces, &mut spans)?;
    Ok(spans)
}

/// Reads the spans of a file of Jaeger, each with its number.
///
/// The errors are `Memory`, and `Refused` with the first fault.
pub fn read_spans(alloc: Global, bytes: &[u8]) -> Result<Vec<Placed>, SpanError>
    ensures { GivesAt (λ v. v.items) result (spans_said bytes.now) }
{
    let mut scratch = Scratch::new(alloc);
    let Some(value) = parse(alloc, bytes, &mut scratch)? else {
        let why = Why::NotJson;
        return Err(SpanError::Refused(Fault { place: 1, why }));
    };
    read_value(alloc, &value)
}
