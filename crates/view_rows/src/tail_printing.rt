ghost use Rattle.std.specs.Prelude.{◌≡◌, ℕ, List};
ghost use Rattle.digest_facts.specs.Digests.{Digest};
ghost use Rattle.judged_books.specs.JudgedBooks.{IsJudgedOf};
ghost use Rattle.session_rules.specs.KeptTraces.{Kept};
ghost use Rattle.session_rules.specs.Parts.{IsPart};
ghost use Rattle.session_rules.specs.ReportTexts.{AreKeptNames};
ghost use Rattle.session_rules.specs.Sessions.{tail_parts};
ghost use Rattle.text_rows.specs.Printing.{print_faults};
ghost use Rattle.text_rows.specs.TextsOfParts.{PrintsTexts};
ghost use Rattle.trace_types.specs.Segments.{SegmentName};

use crate::named_rows::print_each;
use crate::shown::{names_are_below, tail_is_shown};
use crate::tail_texts::{TailRows, print_tail_head};
use judged_books::JudgedBook;
use judged_books::laws::judged_words_tell;
use mystery_io::Sink;
use session_rules::SessionPart;
use slow_tail::tail;
use std::alloc::Global;
use std::thread::Threads;
use text_rows::laws::{part_calls_follow, parts_follow};
use text_rows::{PrintFault, RowBuffer};
use worker_limit::WorkerLimit;

/// Prints the report on the slowest traces of a book, one in twenty: a header, and a row for each
/// name, in name order, as `print_report` prints a report.
pub fn print_tail<R: Threads + Sync, S: Sink>(
    workers: &WorkerLimit<'_, R>,
    alloc: Global,
    book: &JudgedBook<'_>,
    sink: &mut S,
    buffer: &mut RowBuffer,
) -> Result<(), PrintFault>
    ensures printed { (given : Digest SegmentName (List ℕ)) (kept : List Kept)
        → IsJudgedOf book.now given kept
        → (names : List SegmentName) → AreKeptNames kept names
        → PrintsTexts S.written S.faults result sink.old sink.new IsPart
        (tail_parts given kept names) buffer.old buffer.new }
    ensures counted { S.faults sink.new ≡ print_faults result (S.faults sink.old) }
{
    // For the proof alone.
    parts_follow::<SessionPart>();
    part_calls_follow::<S, SessionPart>();
    names_are_below();
    tail_is_shown();
    judged_words_tell();
    let kept_book = book.book();
    let words = book.words();
    let catalogue = kept_book.catalogue();
    let found = tail(workers, alloc, kept_book, words)?;
    print_tail_head(sink, buffer, &found)?;
    print_each(sink, buffer, &TailRows { catalogue }, found.rows.items())
}
