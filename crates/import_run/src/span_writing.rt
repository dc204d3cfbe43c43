ghost use Rattle.std.specs.Prelude.{◌≡◌, ◌+◌, ◌*◌, ◌<◌, ◌≤◌, ◌^◌, ℕ, Some, length, slice_get, IfErr, IfOk};
ghost use Rattle.span_lines.specs.SpanTexts.{AreSpanLines};
ghost use Rattle.span_requests.specs.Faults.{IsFaultOf};
ghost use Rattle.import_run.specs.Endings.{named_spans};
ghost use Rattle.import_run.specs.inner.Leaving.{IsFaultOutcome, IsWithin, LeavesSink};
ghost use Rattle.import_run.specs.inner.Leaving.{WritesSpans, sink_faults_after};
ghost use Rattle.import_run.specs.inner.ParsedLines.{asked_view};
ghost use Rattle.import_run.specs.inner.Taken.{spans_view};

use crate::asked::Asked;
use crate::text_writing::write_all;
use crate::{Notes, Outcome, SpanReason};
use mystery_io::Sink;
use span_files::{FileSpans, SpanForm, SpanPlace};
use span_lines::{SpanText, fold_names, print_spans};
use span_requests::SpanFault;
use span_types::Span;
use std::alloc::Global;

/// The most spans of an input.
const MOST_SPANS: usize = 1_000_000_000;

/// Prints the event lines of spans, as asked.
fn print_asked(alloc: Global, asked: Asked<'_>, spans: &mut [Span]) -> Result<SpanText, SpanFault>
    requires { length spans.old ≤ 1000000000 }
    ensures lines { IfOk result (λ t. AreSpanLines (asked_view asked.entry).grace
        (asked_view asked.entry).entry (named_spans (asked_view asked.entry) spans.old) t) }
    ensures fault { IfErr result (IsFaultOf (named_spans (asked_view asked.entry) spans.old)) }
{
    if asked.fold {
        fold_names(alloc, spans)?;
    }
    print_spans(alloc, spans, asked.grace, asked.operation)
}

/// Finds how a run ends whose spans have a fault.
fn outcome_of(form: SpanForm, places: &[SpanPlace], fault: SpanFault) -> Outcome
    requires { IsWithin (length places.now) fault }
    ensures { IsFaultOutcome form places.now fault result }
{
    match fault {
        SpanFault::Memory => Outcome::Memory,
        SpanFault::RepeatedId { span } => Outcome::BadSpan {
            form,
            at: places[span],
            reason: SpanReason::RepeatedId,
        },
        SpanFault::Circle { span } => Outcome::BadSpan {
            form,
            at: places[span],
            reason: SpanReason::Circle,
        },
    }
}

/// Writes the event lines of spans in this form, as asked, and tells how that ended.
pub(crate) fn write_spans<S: Sink>(
    alloc: Global,
    form: SpanForm,
    asked: Asked<'_>,
    spans: FileSpans,
    out: &mut S,
) -> Outcome
    requires { length spans.spans.items ≡ length spans.places.items }
    ensures writes { WritesSpans result form (asked_view asked.entry) (spans_view spans)
        (S.written out.old) (S.written out.new) }
    ensures leaves { LeavesSink result out.old out.new }
    ensures counted { S.faults out.new ≡ sink_faults_after result (S.faults out.old) }
{
    let FileSpans { mut spans, places } = spans;
    if spans.len() > MOST_SPANS {
        return Outcome::TooMany;
    }
    match print_asked(alloc, asked, &mut spans) {
        Ok(printed) => {
            let notes = Notes {
                missing: printed.missing,
                long: printed.long,
            };
            write_all(&printed.text, notes, out)
        }
        Err(fault) => outcome_of(form, &places, fault),
    }
}
