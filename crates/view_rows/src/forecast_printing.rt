ghost use Rattle.std.specs.Prelude.{◌≡◌, ◌^◌, ◌<◌, ◌≤◌, ℕ, List, length, map, sum_by};
ghost use Rattle.std.specs.Borrow.{Bor};
ghost use Rattle.std.specs.List.{All};
ghost use Rattle.digest_facts.specs.Digests.{Digest};
ghost use Rattle.judged_books.specs.JudgedBooks.{IsJudgedOf};
ghost use Rattle.session_rules.specs.KeptTraces.{Kept};
ghost use Rattle.session_rules.specs.Parts.{IsPart};
ghost use Rattle.session_rules.specs.Sessions.{forecast_parts};
ghost use Rattle.text_rows.specs.Printing.{PrintsText, print_faults};
ghost use Rattle.text_rows.specs.TextsOfParts.{PrintsTexts};
ghost use Rattle.trace_rules.specs.declared.forecast.Forecast.{Forecast};
ghost use Rattle.trace_types.specs.Segments.{SegmentName};
ghost use Rattle.trace_types.specs.declared.named_trace.NamedTrace.{NamedTrace};
ghost use Rattle.view_rows.specs.inner.ForecastRows.{forecast_row, forecast_rows};
ghost use Rattle.view_rows.specs.inner.ForecastRows.{forecast_text, head_row};
ghost use Rattle.view_rows.specs.inner.NumberedForecasts.{IsShort};

use crate::forecasting::forecast_change;
use crate::shown::forecast_is_shown;
use judged_books::JudgedBook;
use judged_books::laws::judged_words_tell;
use model_meet::Model;
use mystery_io::Sink;
use session_rules::{NamedChange, SessionPart};
use std::alloc::Global;
use std::thread::Threads;
use text_rows::laws::{calls_follow, parts_follow, texts_follow};
use text_rows::{Field, PrintFault, RowBuffer, print_row};
use trace_paths::kept_traces;
use trace_rules::Forecast;
use trace_types::NamedTrace;
use worker_limit::WorkerLimit;

/// Adds up the lengths of forecasts: those now, and those with the change.
fn add_lengths(forecasts: &[Forecast]) -> (u128, u128)
    requires few { length forecasts.now < 2 ^ 32 }
    requires short { All IsShort forecasts.now }
    ensures before { result.0 ≡ sum_by (λ (f : Forecast). f.before) forecasts.now }
    ensures after { result.1 ≡ sum_by (λ (f : Forecast). f.after) forecasts.now }
{
    let mut before = 0;
    let mut after = 0;
    'forecasts: for forecast in forecasts {
        before += forecast.before;
        after += forecast.after;
    }
    (before, after)
}

/// Prints the header of forecasts.
fn print_head<S: Sink>(
    sink: &mut S,
    buffer: &mut RowBuffer,
    forecasts: &[Forecast],
) -> Result<(), PrintFault>
    requires few { length forecasts.now < 2 ^ 32 }
    requires short { All IsShort forecasts.now }
    ensures { PrintsText S.written S.faults result sink.old sink.new buffer.old buffer.new
        (head_row forecasts.now) }
{
    let (before, after) = add_lengths(forecasts);
    print_row(
        sink,
        buffer,
        &[
            Field::Word("whatif"),
            Field::Figure("traces", forecasts.len() as u128),
            Field::Figure("before", before),
            Field::Figure("after", after),
        ],
    )
}

/// Prints the row of a trace with its forecast.
fn print_forecast<S: Sink>(
    sink: &mut S,
    buffer: &mut RowBuffer,
    trace: &NamedTrace,
    forecast: &Forecast,
) -> Result<(), PrintFault>
    ensures { PrintsText S.written S.faults result sink.old sink.new buffer.old buffer.new
        (forecast_row trace.now forecast.now) }
{
    print_row(
        sink,
        buffer,
        &[
            Field::Word("forecast"),
            Field::Word(trace.request.as_str()),
            Field::Number(u128::from(trace.day)),
            Field::Number(forecast.before),
            Field::Number(forecast.after),
        ],
    )
}

/// Prints the row of each trace with its forecast.
fn print_each<S: Sink>(
    sink: &mut S,
    buffer: &mut RowBuffer,
    traces: &[&NamedTrace],
    forecasts: &[Forecast],
) -> Result<(), PrintFault>
    requires { length forecasts.now ≡ length traces.now }
    ensures { PrintsText S.written S.faults result sink.old sink.new buffer.old buffer.new
        (forecast_rows (map (λ (t : Bor NamedTrace). t.now) traces.now) forecasts.now) }
{
    // For the proof alone.
    texts_follow();
    calls_follow::<S>();
    for place in 0..traces.len() {
        print_forecast(sink, buffer, traces[place], &forecasts[place])?;
    }
    Ok(())
}

/// Prints the header and the row of each trace with its forecast.
fn print_all<S: Sink>(
    sink: &mut S,
    buffer: &mut RowBuffer,
    traces: &[&NamedTrace],
    forecasts: &[Forecast],
) -> Result<(), PrintFault>
    requires few { length forecasts.now < 2 ^ 32 }
    requires each { length forecasts.now ≡ length traces.now }
    requires short { All IsShort forecasts.now }
    ensures { PrintsText S.written S.faults result sink.old sink.new buffer.old buffer.new
        (forecast_text (map (λ (t : Bor NamedTrace). t.now) traces.now) forecasts.now) }
{
    // For the proof alone.
    calls_follow::<S>();
    print_head(sink, buffer, forecasts)?;
    print_each(sink, buffer, traces, forecasts)
}

/// Prints how long the critical path of each trace of a book is, and how long it would be with a
/// change of one name: a header with both sums, then a row for each trace, by day and within a day
/// in the order in which the traces were taken. A name that no trace has changes nothing. Times are
/// in nanoseconds.
///
/// All forecasts are made before the header is printed, by the workers. After an error a prefix
/// of the text was printed, and nothing is said of the buffer.
pub fn print_forecasts<R: Threads + Sync, S: Sink>(
    workers: &WorkerLimit<'_, R>,
    alloc: Global,
    book: &JudgedBook<'_>,
    change: &NamedChange,
    sink: &mut S,
    buffer: &mut RowBuffer,
) -> Result<(), PrintFault>
    requires some { 0 < change.now.den }
    requires less { change.now.num ≤ change.now.den }
    ensures printed { (given : Digest SegmentName (List ℕ)) (kept : List Kept)
        → IsJudgedOf book.now given kept
        → PrintsTexts S.written S.faults result sink.old sink.new IsPart
        (forecast_parts change.now given kept) buffer.old buffer.new }
    ensures counted { S.faults sink.new ≡ print_faults result (S.faults sink.old) }
{
    // For the proof alone.
    judged_words_tell();
    forecast_is_shown();
    parts_follow::<SessionPart>();
    let kept_book = book.book();
    let catalogue = kept_book.catalogue();
    let model = Model::new(book.words(), kept_book.names());
    let traces = kept_traces(alloc, kept_book.day_book())?;
    let forecasts = forecast_change(workers, alloc, &traces, &model, catalogue, change)?;
    print_all(sink, buffer, &traces, &forecasts)
}
