ghost use Rattle.std.specs.Prelude.{◌≡◌};
ghost use Rattle.span_text.specs.Outcomes.{after};
ghost use Rattle.span_text.specs.Places.{GivesAt};
ghost use Rattle.otlp_spans.specs.SpansOfFiles.{lines_said, spans_said};
ghost use Rattle.otlp_spans.specs.inner.Lines.{lines_left, AreFew};

use crate::line_cuts::LinesLeft;
use crate::line_reading::read_text;
use json::Scratch;
use span_text::{Placed, SpanError, is_json};
use std::alloc::Global;

/// Appends the spans of the lines that are left, a value a line.
fn read_lines(
    alloc: Global,
    left: LinesLeft<'_>,
    scratch: &mut Scratch,
    spans: &mut Vec<Placed>,
) -> Result<(), SpanError>
    requires { AreFew left }
    ensures { GivesAt (λ _. spans.new.items) result
        (after spans.old.items (lines_said (lines_left left.entry))) }
{
    let mut left = left;
    'lines: while let Some(line) = left.next_line() {
        read_text(alloc, line.number, line.bytes, scratch, spans)?;
    }
    Ok(())
}

/// Reads the spans of a file of OpenTelemetry, each with the number of the line that its value
/// begins in.
///
/// The errors are `Memory`, and `Refused` with the first fault.
pub fn read_spans(alloc: Global, bytes: &[u8]) -> Result<Vec<Placed>, SpanError>
    ensures { GivesAt (λ v. v.items) result (spans_said bytes.now) }
{
    let mut spans = Vec::new(alloc);
    let mut scratch = Scratch::new(alloc);
    let mut left = LinesLeft::new(bytes);
    let Some(first) = left.next_line() else {
        return Ok(spans);
    };
    if is_json(first.bytes, &mut scratch)? {
        read_text(alloc, first.number, first.bytes, &mut scratch, &mut spans)?;
        read_lines(alloc, left, &mut scratch, &mut spans)?;
    } else {
        read_text(alloc, first.number, bytes, &mut scratch, &mut spans)?;
    }
    Ok(spans)
}
