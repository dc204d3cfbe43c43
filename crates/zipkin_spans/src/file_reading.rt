ghost use Rattle.std.specs.Prelude.{◌≡◌};
ghost use Rattle.json.specs.Value.{value_view};
ghost use Rattle.span_text.specs.Places.{GivesAt};
ghost use Rattle.zipkin_spans.specs.SpansOfZipkin.{value_said, bytes_said, spans_said};

use crate::elements::ElementReader;
use crate::halves::tell_apart;
use json::{Scratch, Value};
use span_text::{Fault, Placed, SpanError, Why, list_items, parse, read_numbered_items};
use std::alloc::Global;

/// Reads the spans of a value, as they stand there.
fn read_value(alloc: Global, value: &Value<'_>) -> Result<Vec<Placed>, SpanError>
    ensures { GivesAt (λ v. v.items) result (value_said (value_view value.now)) }
{
    let Some(items) = list_items(value) else {
        let why = Why::NotArray;
        return Err(SpanError::Refused(Fault { place: 1, why }));
    };
    let mut spans = Vec::new(alloc);
    read_numbered_items(alloc, &ElementReader, items, &mut spans)?;
    Ok(spans)
}

/// Reads the spans of the JSON value that bytes are, as they stand there.
fn read_bytes(alloc: Global, bytes: &[u8]) -> Result<Vec<Placed>, SpanError>
    ensures { GivesAt (λ v. v.items) result (bytes_said bytes.now) }
{
    let mut scratch = Scratch::new(alloc);
    let Some(value) = parse(alloc, bytes, &mut scratch)? else {
        let why = Why::NotJson;
        return Err(SpanError::Refused(Fault { place: 1, why }));
    };
    read_value(alloc, &value)
}

/// Reads the spans of a file of Zipkin, each with its number. The halves of a shared span are told
/// apart.
///
/// The errors are `Memory`, and `Refused` with the first fault.
pub fn read_spans(alloc: Global, bytes: &[u8]) -> Result<Vec<Placed>, SpanError>
    ensures { GivesAt (λ v. v.items) result (spans_said bytes.now) }
{
    let spans = read_bytes(alloc, bytes)?;
    Ok(tell_apart(alloc, spans)?)
}
