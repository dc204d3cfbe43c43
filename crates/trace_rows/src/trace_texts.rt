ghost use Rattle.std.specs.Prelude.{◌≡◌, ◌∷◌, [], ℕ, List, IfOk, length, map};
ghost use Rattle.std.specs.Borrow.{Bor};
ghost use Rattle.std.specs.List.{All};
ghost use Rattle.digest_facts.specs.Digests.{Digest};
ghost use Rattle.judged_books.specs.JudgedBooks.{JudgedState};
ghost use Rattle.kept_books.specs.KeptBooks.{traces_in};
ghost use Rattle.refute_tests.specs.Clearing.{HaveNamesBelow};
ghost use Rattle.session_rules.specs.KeptTraces.{Kept};
ghost use Rattle.session_rules.specs.Parts.{Part};
ghost use Rattle.text_rows.specs.Printing.{print_faults};
ghost use Rattle.text_rows.specs.TextSinks.{all_bytes};
ghost use Rattle.trace_rows.specs.inner.Pieces.{traces_of_pieces};
ghost use Rattle.trace_rows.specs.inner.ShownTraces.{IsShownText, PrintsShown};
ghost use Rattle.trace_types.specs.Segments.{SegmentName};
ghost use Rattle.trace_types.specs.declared.named_trace.NamedTrace.{NamedTrace};

use crate::book_lists::list_traces;
use crate::chunks::{Piece, chunk_length, cut_pieces};
use crate::prepared_book::PreparedBook;
use judged_books::JudgedBook;
use mystery_io::Sink;
use rayon::prelude::*;
use session_rules::SessionPart;
use std::alloc::{AllocError, Global};
use std::thread::Threads;
use text_rows::laws::{flush_ends_parts, part_calls_follow, parts_follow};
use text_rows::{PrintFault, RowBuffer, TextSink, flush, print_texts};
use trace_types::NamedTrace;
use worker_limit::WorkerLimit;

/// A kind of texts of traces. What a text tells of a trace is computed before any of it is printed.
pub(crate) trait TraceTexts: Sync {
    /// What is computed of a trace. It is `Send` since a closure that threads share asks that of
    /// the associated types of what it borrows; no value is sent.
    type Computed: Send + Drop;

    /// The part of a kept trace, under a given digest.
    ghost part: { Self → Digest SegmentName (List ℕ) → List Kept → Kept → Part };

    /// What is computed of this trace of the book.
    ghost computes: { Self → JudgedState → NamedTrace → Self.Computed → Type 0 };

    /// Computes what the part of a trace tells. The only error is that memory ran out.
    fn compute(
        &self,
        alloc: Global,
        book: &PreparedBook<'_>,
        trace: &NamedTrace,
    ) -> Result<Self::Computed, AllocError>
        requires { HaveNamesBelow (length book.now.book.known.names) trace.now }
        ensures { IfOk result (computes self.now book.now trace.now) };

    /// Prints the part of a trace from what was computed of it. An error leaves a prefix of its
    /// text.
    fn print<S: Sink>(
        &self,
        book: &PreparedBook<'_>,
        trace: &NamedTrace,
        computed: &Self::Computed,
        sink: &mut S,
        buffer: &mut RowBuffer,
    ) -> Result<(), PrintFault>
        requires { computes self.now book.now trace.now computed.now }
        ensures printed { PrintsShown S.written S.faults result sink.old sink.new book.now
            (part self.now) (trace.now ∷ []) buffer.old buffer.new }
        ensures counted { S.faults sink.new ≡ print_faults result (S.faults sink.old) };
}

/// Computes what the part of each of these traces tells and prints it, one trace after another.
fn print_in_turn<S: Sink, K: TraceTexts>(
    alloc: Global,
    book: &PreparedBook<'_>,
    texts: &K,
    traces: &[&NamedTrace],
    sink: &mut S,
    buffer: &mut RowBuffer,
) -> Result<(), PrintFault>
    requires { All (λ (t : Bor NamedTrace). HaveNamesBelow (length book.now.book.known.names) t.now)
        traces.now }
    ensures printed { PrintsShown S.written S.faults result sink.old sink.new book.now
        (K.part texts.now) (map (λ (t : Bor NamedTrace). t.now) traces.now)
        buffer.old buffer.new }
    ensures counted { S.faults sink.new ≡ print_faults result (S.faults sink.old) }
{
    // For the proof alone.
    parts_follow::<SessionPart>();
    part_calls_follow::<S, SessionPart>();
    for place in 0..traces.len() {
        let trace = traces[place];
        let computed = texts.compute(alloc, book, trace)?;
        texts.print(book, trace, &computed, sink, buffer)?;
    }
    Ok(())
}

/// Makes a text of the parts of these traces. The only error is that memory ran out, since nothing
/// else stops a sink in memory.
fn make_text<K: TraceTexts>(
    alloc: Global,
    book: &PreparedBook<'_>,
    texts: &K,
    traces: &[&NamedTrace],
) -> Result<Vec<u8>, AllocError>
    requires { All (λ (t : Bor NamedTrace). HaveNamesBelow (length book.now.book.known.names) t.now)
        traces.now }
    ensures { IfOk result (λ text. IsShownText book.now (K.part texts.now)
        (map (λ (t : Bor NamedTrace). t.now) traces.now) text.items) }
{
    // For the proof alone.
    flush_ends_parts::<SessionPart>();
    let mut sink = TextSink::new(alloc);
    let mut buffer = RowBuffer::new(alloc);
    let Ok(()) = print_in_turn(alloc, book, texts, traces, &mut sink, &mut buffer) else {
        return Err(AllocError);
    };
    let Ok(()) = flush(&mut sink, &mut buffer) else {
        return Err(AllocError);
    };
    Ok(sink.into_bytes())
}

/// Makes a text of the parts of each piece of traces, by the workers. The only error is that
/// memory ran out.
fn make_texts<R: Threads + Sync, K: TraceTexts>(
    workers: &WorkerLimit<'_, R>,
    alloc: Global,
    book: &PreparedBook<'_>,
    texts: &K,
    pieces: &[Piece<'_>],
) -> Result<Vec<Vec<u8>>, AllocError>
    requires { All (λ (t : Bor NamedTrace). HaveNamesBelow (length book.now.book.known.names) t.now)
        (traces_of_pieces pieces.now) }
    ensures { IfOk result (λ made. IsShownText book.now (K.part texts.now)
        (map (λ (t : Bor NamedTrace). t.now) (traces_of_pieces pieces.now))
        (all_bytes made.items)) }
{
    // For the proof alone.
    parts_follow::<SessionPart>();
    let made: Result<Vec<Vec<u8>>, AllocError> = pieces
        .par_iter()
        .with_min_len(workers.piece_length(pieces.len(), 1))
        .map(
            |piece: &Piece<'_>| -> Result<Vec<u8>, AllocError>
                requires { All (λ (t : Bor NamedTrace).
                    HaveNamesBelow (length book.now.book.known.names) t.now) piece.now.traces.now }
                ensures { IfOk result (λ text. IsShownText book.entry.now
                    (K.part texts.entry.now)
                    (map (λ (t : Bor NamedTrace). t.now) piece.now.traces.now)
                    text.items) }
            { make_text(alloc, book, texts, piece.traces) },
        )
        .collect(workers.runtime, alloc)?;
    made
}

/// Prints the parts of these traces, in order. Where they make several pieces, the workers make
/// the texts first.
fn print_chunk<R: Threads + Sync, S: Sink, K: TraceTexts>(
    workers: &WorkerLimit<'_, R>,
    alloc: Global,
    book: &PreparedBook<'_>,
    texts: &K,
    traces: &[&NamedTrace],
    sink: &mut S,
    buffer: &mut RowBuffer,
) -> Result<(), PrintFault>
    requires { All (λ (t : Bor NamedTrace). HaveNamesBelow (length book.now.book.known.names) t.now)
        traces.now }
    ensures printed { PrintsShown S.written S.faults result sink.old sink.new book.now
        (K.part texts.now) (map (λ (t : Bor NamedTrace). t.now) traces.now)
        buffer.old buffer.new }
    ensures counted { S.faults sink.new ≡ print_faults result (S.faults sink.old) }
{
    // For the proof alone.
    parts_follow::<SessionPart>();
    let pieces = cut_pieces(alloc, traces)?;
    if pieces.len() < 2 || workers.most < 2 {
        return print_in_turn(alloc, book, texts, traces, sink, buffer);
    }
    let made = make_texts(workers, alloc, book, texts, &pieces)?;
    print_texts(sink, buffer, &made)
}

/// Prints the parts of these traces, in order, a chunk at a time. The texts of a chunk are freed
/// before those of the next are made.
pub(crate) fn print_each<R: Threads + Sync, S: Sink, K: TraceTexts>(
    workers: &WorkerLimit<'_, R>,
    alloc: Global,
    book: &PreparedBook<'_>,
    texts: &K,
    traces: &[&NamedTrace],
    sink: &mut S,
    buffer: &mut RowBuffer,
) -> Result<(), PrintFault>
    requires { All (λ (t : Bor NamedTrace). HaveNamesBelow (length book.now.book.known.names) t.now)
        traces.now }
    ensures printed { PrintsShown S.written S.faults result sink.old sink.new book.now
        (K.part texts.now) (map (λ (t : Bor NamedTrace). t.now) traces.now)
        buffer.old buffer.new }
    ensures counted { S.faults sink.new ≡ print_faults result (S.faults sink.old) }
{
    // For the proof alone.
    parts_follow::<SessionPart>();
    part_calls_follow::<S, SessionPart>();
    let mut at = 0;
    'chunks: while at < traces.len() {
        let end = at + chunk_length(&traces[at..]);
        print_chunk(workers, alloc, book, texts, &traces[at..end], sink, buffer)?;
        at = end;
    }
    Ok(())
}

/// Prints the parts of all traces of a book, by day and within a day in order.
pub(crate) fn print_days<R: Threads + Sync, S: Sink, K: TraceTexts>(
    workers: &WorkerLimit<'_, R>,
    alloc: Global,
    book: &JudgedBook<'_>,
    texts: &K,
    sink: &mut S,
    buffer: &mut RowBuffer,
) -> Result<(), PrintFault>
    ensures printed { PrintsShown S.written S.faults result sink.old sink.new book.now
        (K.part texts.now) (traces_in book.now.book) buffer.old buffer.new }
    ensures counted { S.faults sink.new ≡ print_faults result (S.faults sink.old) }
{
    // For the proof alone.
    parts_follow::<SessionPart>();
    let traces = list_traces(alloc, book)?;
    let prepared = PreparedBook::of(alloc, book)?;
    print_each(workers, alloc, &prepared, texts, &traces, sink, buffer)
}
