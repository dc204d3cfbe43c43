ghost use Rattle.std.specs.Prelude.{◌≡◌, ◌∷◌, ℕ, List, length, map, codes};
ghost use Rattle.digest_facts.specs.Digests.{Digest};
ghost use Rattle.judged_books.specs.JudgedBooks.{IsJudgedOf};
ghost use Rattle.kept_books.specs.KeptBooks.{traces_in};
ghost use Rattle.session_rules.specs.KeptTraces.{Kept};
ghost use Rattle.session_rules.specs.Parts.{GraphOf, Header, IsPart, PathOf, SlacksOf};
ghost use Rattle.session_rules.specs.Parts.{traces_row};
ghost use Rattle.text_rows.specs.Printing.{PrintsText, print_faults};
ghost use Rattle.text_rows.specs.TextsOfParts.{PrintsTexts};
ghost use Rattle.trace_rows.specs.inner.ShownTraces.{PrintsWhole};
ghost use Rattle.trace_types.specs.Segments.{SegmentName};

use crate::graph_texts::GraphTexts;
use crate::path_texts::PathTexts;
use crate::slack_texts::SlackTexts;
use crate::trace_texts::{TraceTexts, print_days};
use judged_books::JudgedBook;
use kept_books::KeptBook;
use mystery_io::Sink;
use session_rules::SessionPart;
use std::alloc::Global;
use std::thread::Threads;
use text_rows::laws::part_calls_follow;
use text_rows::{Field, PrintFault, RowBuffer, print_row};
use worker_limit::WorkerLimit;

/// Counts the traces of a book.
fn count_traces(book: &KeptBook) -> u64
    ensures { result ≡ length (traces_in book.now) }
{
    let mut count = 0;
    for place in 0..book.days() {
        count += book.traces(place).len() as u64;
    }
    count
}

/// Prints a header: a word and the number of traces.
fn print_header<S: Sink>(
    sink: &mut S,
    buffer: &mut RowBuffer,
    word: &str,
    book: &JudgedBook<'_>,
) -> Result<(), PrintFault>
    ensures { PrintsText S.written S.faults result sink.old sink.new buffer.old buffer.new
        (traces_row word.now (length (traces_in book.now.book))) }
{
    let count = u128::from(count_traces(book.book()));
    print_row(
        sink,
        buffer,
        &[Field::Word(word), Field::Figure("traces", count)],
    )
}

/// Prints a header of this word and the parts of all traces of a book.
fn print_whole<R: Threads + Sync, S: Sink, K: TraceTexts>(
    workers: &WorkerLimit<'_, R>,
    alloc: Global,
    book: &JudgedBook<'_>,
    word: &str,
    texts: &K,
    sink: &mut S,
    buffer: &mut RowBuffer,
) -> Result<(), PrintFault>
    ensures printed { PrintsWhole S.written S.faults result sink.old sink.new book.now word.now
        (K.part texts.now) buffer.old buffer.new }
    ensures counted { S.faults sink.new ≡ print_faults result (S.faults sink.old) }
{
    // For the proof alone.
    part_calls_follow::<S, SessionPart>();
    print_header(sink, buffer, word, book)?;
    print_days(workers, alloc, book, texts, sink, buffer)
}

/// Prints the critical path of each trace of a book: a header with the number of traces, then the
/// paths, by day and within a day in the order in which the traces were taken. Times are in
/// nanoseconds.
///
/// Texts are made by the workers, a chunk of traces at a time, and those of a chunk are printed
/// before the next are made. After an error a prefix of the text was printed, and nothing is said
/// of the buffer.
pub fn print_paths<R: Threads + Sync, S: Sink>(
    workers: &WorkerLimit<'_, R>,
    alloc: Global,
    book: &JudgedBook<'_>,
    sink: &mut S,
    buffer: &mut RowBuffer,
) -> Result<(), PrintFault>
    ensures printed { (given : Digest SegmentName (List ℕ)) (kept : List Kept)
        → IsJudgedOf book.now given kept → PrintsTexts S.written S.faults result sink.old sink.new IsPart
        (Header (codes "paths") (length kept) ∷ map (PathOf given kept) kept)
        buffer.old buffer.new }
    ensures counted { S.faults sink.new ≡ print_faults result (S.faults sink.old) }
{
    print_whole(workers, alloc, book, "paths", &PathTexts, sink, buffer)
}

/// Prints the longest length of each trace of a book and the slacks of its segments, as
/// `print_paths` prints paths.
pub fn print_slacks<R: Threads + Sync, S: Sink>(
    workers: &WorkerLimit<'_, R>,
    alloc: Global,
    book: &JudgedBook<'_>,
    sink: &mut S,
    buffer: &mut RowBuffer,
) -> Result<(), PrintFault>
    ensures printed { (given : Digest SegmentName (List ℕ)) (kept : List Kept)
        → IsJudgedOf book.now given kept → PrintsTexts S.written S.faults result sink.old sink.new IsPart
        (Header (codes "slack") (length kept) ∷ map (SlacksOf given kept) kept)
        buffer.old buffer.new }
    ensures counted { S.faults sink.new ≡ print_faults result (S.faults sink.old) }
{
    print_whole(workers, alloc, book, "slack", &SlackTexts, sink, buffer)
}

/// Prints the transitive reduction of the graph of each trace of a book, as `print_paths` prints
/// paths.
pub fn print_graphs<R: Threads + Sync, S: Sink>(
    workers: &WorkerLimit<'_, R>,
    alloc: Global,
    book: &JudgedBook<'_>,
    sink: &mut S,
    buffer: &mut RowBuffer,
) -> Result<(), PrintFault>
    ensures printed { (given : Digest SegmentName (List ℕ)) (kept : List Kept)
        → IsJudgedOf book.now given kept → PrintsTexts S.written S.faults result sink.old sink.new IsPart
        (Header (codes "graph") (length kept) ∷ map (GraphOf given kept) kept)
        buffer.old buffer.new }
    ensures counted { S.faults sink.new ≡ print_faults result (S.faults sink.old) }
{
    print_whole(workers, alloc, book, "graph", &GraphTexts, sink, buffer)
}
