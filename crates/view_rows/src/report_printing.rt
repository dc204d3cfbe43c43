ghost use Rattle.std.specs.Prelude.{◌≡◌, [], ◌∷◌, ℕ, List};
ghost use Rattle.digest_facts.specs.Digests.{Digest};
ghost use Rattle.judged_books.specs.JudgedBooks.{IsJudgedOf};
ghost use Rattle.view_rows.specs.inner.NumberedTexts.{latency_row, report_head};
ghost use Rattle.session_rules.specs.GivenDigests.{SurvivesUnder};
ghost use Rattle.session_rules.specs.KeptTraces.{Kept};
ghost use Rattle.session_rules.specs.Parts.{IsPart, LatenciesOf, ReportHead};
ghost use Rattle.session_rules.specs.ReportTexts.{AreKeptNames, IsLatencyText, IsReportHead};
ghost use Rattle.session_rules.specs.Sessions.{report_parts};
ghost use Rattle.text_rows.specs.Printing.{print_faults};
ghost use Rattle.text_rows.specs.TextsOfParts.{PrintsTexts};
ghost use Rattle.trace_types.specs.Segments.{SegmentName};

use crate::named_rows::print_each;
use crate::report_texts::{SegmentRows, print_latency, print_report_head};
use crate::shown::{names_are_below, report_is_shown};
use judged_books::JudgedBook;
use judged_books::laws::judged_words_tell;
use latency_report::{FullReport, report};
use mystery_io::Sink;
use session_rules::SessionPart;
use std::alloc::Global;
use std::thread::Threads;
use text_rows::laws::{part_calls_follow, parts_follow};
use text_rows::{PrintFault, RowBuffer};
use worker_limit::WorkerLimit;

/// Prints the first two rows of a report: the header, and the figures of the latencies.
pub(crate) fn print_first_rows<S: Sink>(
    sink: &mut S,
    buffer: &mut RowBuffer,
    report: &FullReport,
) -> Result<(), PrintFault>
    ensures printed { (given : Digest SegmentName (List ℕ)) (kept : List Kept)
        → IsReportHead (SurvivesUnder given kept) kept (report_head report.now)
        → IsLatencyText kept (latency_row report.now.latency)
        → PrintsTexts S.written S.faults result sink.old sink.new IsPart
        (ReportHead given kept ∷ LatenciesOf kept ∷ []) buffer.old buffer.new }
    ensures counted { S.faults sink.new ≡ print_faults result (S.faults sink.old) }
{
    // For the proof alone.
    part_calls_follow::<S, SessionPart>();
    print_report_head(sink, buffer, report)?;
    print_latency(sink, buffer, &report.latency)
}

/// Prints the report on the traces of a book: a header with the number of traces and how long their
/// critical paths are together, a row of the figures of their latencies, and a row for each name,
/// in name order. Times are in nanoseconds.
///
/// All figures are found before the header is printed. After an error a prefix of the text was
/// printed, and nothing is said of the buffer.
pub fn print_report<R: Threads + Sync, S: Sink>(
    workers: &WorkerLimit<'_, R>,
    alloc: Global,
    book: &JudgedBook<'_>,
    sink: &mut S,
    buffer: &mut RowBuffer,
) -> Result<(), PrintFault>
    ensures printed { (given : Digest SegmentName (List ℕ)) (kept : List Kept)
        → IsJudgedOf book.now given kept
        → (names : List SegmentName) → AreKeptNames kept names
        → PrintsTexts S.written S.faults result sink.old sink.new IsPart
        (report_parts given kept names) buffer.old buffer.new }
    ensures counted { S.faults sink.new ≡ print_faults result (S.faults sink.old) }
{
    // For the proof alone.
    parts_follow::<SessionPart>();
    part_calls_follow::<S, SessionPart>();
    names_are_below();
    report_is_shown();
    judged_words_tell();
    let kept_book = book.book();
    let words = book.words();
    let catalogue = kept_book.catalogue();
    let found = report(workers, alloc, kept_book, words)?;
    print_first_rows(sink, buffer, &found)?;
    print_each(sink, buffer, &SegmentRows { catalogue }, found.rows.items())
}
