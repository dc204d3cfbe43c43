ghost use Rattle.std.specs.Prelude.{◌≡◌};
ghost use Rattle.span_text.specs.Outcomes.{after};
ghost use Rattle.span_text.specs.Places.{GivesAt};
ghost use Rattle.otlp_spans.specs.SpansOfFiles.{line_said};

use json::Scratch;
use otlp_values::read_value;
use span_text::{Fault, Placed, SpanError, Why, parse};
use std::alloc::Global;

/// Appends the spans of the value that a text is, which begins in this line.
pub(crate) fn read_text(
    alloc: Global,
    line: usize,
    text: &[u8],
    scratch: &mut Scratch,
    spans: &mut Vec<Placed>,
) -> Result<(), SpanError>
    ensures { GivesAt (λ _. spans.new.items) result
        (after spans.old.items (line_said (line, text.now))) }
{
    let Some(value) = parse(alloc, text, scratch)? else {
        let why = Why::NotJson;
        return Err(SpanError::Refused(Fault { place: line, why }));
    };
    match read_value(alloc, line, &value, spans) {
        Ok(()) => Ok(()),
        Err(error) => Err(error.at(line)),
    }
}
