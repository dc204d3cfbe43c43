ghost use Rattle.std.specs.Prelude.{◌≡◌, ℕ, List};
ghost use Rattle.digest_facts.specs.Digests.{Digest};
ghost use Rattle.judged_books.specs.JudgedBooks.{IsJudgedOf};
ghost use Rattle.session_rules.specs.KeptTraces.{Kept};
ghost use Rattle.session_rules.specs.Parts.{IsPart};
ghost use Rattle.session_rules.specs.Sessions.{summary_parts};
ghost use Rattle.text_rows.specs.Printing.{print_faults};
ghost use Rattle.text_rows.specs.TextsOfParts.{PrintsTexts};
ghost use Rattle.trace_types.specs.Segments.{SegmentName};

use crate::model_printing::print_model_head;
use crate::report_printing::print_first_rows;
use crate::shown::report_is_shown;
use judged_books::JudgedBook;
use judged_books::laws::judged_words_tell;
use latency_report::report;
use mystery_io::Sink;
use session_rules::SessionPart;
use std::alloc::Global;
use std::thread::Threads;
use text_rows::laws::{part_calls_follow, parts_follow};
use text_rows::{PrintFault, RowBuffer};
use worker_limit::WorkerLimit;

/// Prints the first row of the model of the given digest and the traces of a book and the first two rows of the report
/// on them, as `print_report` prints a report.
pub fn print_summary<R: Threads + Sync, S: Sink>(
    workers: &WorkerLimit<'_, R>,
    alloc: Global,
    book: &JudgedBook<'_>,
    sink: &mut S,
    buffer: &mut RowBuffer,
) -> Result<(), PrintFault>
    ensures printed { (given : Digest SegmentName (List ℕ)) (kept : List Kept)
        → IsJudgedOf book.now given kept
        → PrintsTexts S.written S.faults result sink.old sink.new IsPart
        (summary_parts given kept) buffer.old buffer.new }
    ensures counted { S.faults sink.new ≡ print_faults result (S.faults sink.old) }
{
    // For the proof alone.
    parts_follow::<SessionPart>();
    part_calls_follow::<S, SessionPart>();
    report_is_shown();
    judged_words_tell();
    let kept_book = book.book();
    let words = book.words();
    let found = report(workers, alloc, kept_book, words)?;
    print_model_head(alloc, book, sink, buffer)?;
    print_first_rows(sink, buffer, &found)
}
