ghost use Rattle.std.specs.Prelude.{◌≡◌, ◌<◌, ◌≤◌, All, List, length};
ghost use Rattle.certificate_rows.specs.inner.Sources.{IsSource};
ghost use Rattle.certificate_rows.specs.inner.Wholes.{certificate_text};
ghost use Rattle.book_laws.specs.Shown.{AreShown};
ghost use Rattle.kept_books.specs.KeptBooks.{traces_in};
ghost use Rattle.session_rules.specs.CertificateTexts.{why_row};
ghost use Rattle.session_rules.specs.KeptTraces.{Kept};
ghost use Rattle.session_rules.specs.Parts.{IsPart};
ghost use Rattle.session_rules.specs.Refutations.{AreRefutations, Refutations};
ghost use Rattle.session_rules.specs.Sessions.{why_parts};
ghost use Rattle.text_rows.specs.Printing.{PrintsText, print_faults};
ghost use Rattle.text_rows.specs.TextsOfParts.{PrintsTexts};

use crate::counting::count_refuted;
use crate::kind::Kind;
use crate::laws::certificate_is_shown;
use crate::numbers::{names_in_order, tasks_in_order};
use crate::row_walks::print_kind;
use crate::source::Source;
use counterexamples::find_all;
use kept_books::KeptBook;
use mystery_io::Sink;
use session_rules::SessionPart;
use std::alloc::Global;
use text_rows::laws::{calls_follow, parts_follow};
use text_rows::{Field, PrintFault, RowBuffer, print_row};

/// Prints the header, with the numbers of traces and of refuted relations.
fn print_header<S: Sink>(
    sink: &mut S,
    buffer: &mut RowBuffer,
    traces: u32,
    refuted: u64,
) -> Result<(), PrintFault>
    ensures { PrintsText S.written S.faults result sink.old sink.new buffer.old buffer.new
        (why_row traces refuted) }
{
    print_row(
        sink,
        buffer,
        &[
            Field::Word("why"),
            Field::Figure("traces", u128::from(traces)),
            Field::Figure("refuted", u128::from(refuted)),
        ],
    )
}

/// Prints the header, and the rows of the refuted relations between names and between tasks. The
/// first walk over their pairs counts, and the second prints.
fn print_all<S: Sink>(
    sink: &mut S,
    buffer: &mut RowBuffer,
    source: &Source<'_>,
    names: &[u32],
    tasks: &[u32],
) -> Result<(), PrintFault>
    requires source { IsSource source.now }
    requires names { All (λ n. n < length source.now.book.now.known.names) names.now }
    requires tasks { All (λ n. n < length source.now.book.now.known.tasks) tasks.now }
    requires few_names { length names.now ≤ 512 }
    requires few_tasks { length tasks.now ≤ 512 }
    ensures { PrintsText S.written S.faults result sink.old sink.new buffer.old buffer.new
        (certificate_text source.now.book.now.known source.now.book.now.book.days
        source.now.refuters.now names.now tasks.now) }
{
    // For the proof alone.
    calls_follow::<S>();
    let before = count_refuted(source, Kind::Before, names);
    let exclusive = count_refuted(source, Kind::Exclusive, names);
    let pipe = count_refuted(source, Kind::Pipe, tasks);
    let traces = source.book.trace_count();
    print_header(sink, buffer, traces, before + exclusive + pipe)?;
    print_kind(sink, buffer, source, Kind::Before, names)?;
    print_kind(sink, buffer, source, Kind::Exclusive, names)?;
    print_kind(sink, buffer, source, Kind::Pipe, tasks)
}

/// Prints the certificate of the traces of a book: a header with the numbers of traces and of
/// refuted relations, then a row for each of these with the first trace that refutes it, by its
/// day, its index there and its request. Relations stand by kind, `before`, `exclusive` and `pipe`,
/// and each kind by its two names or tasks. Rows are written one by one.
///
/// One pass over the traces finds all first refuters. After an error a prefix of the text was
/// printed, and nothing is said of the buffer.
pub fn print_certificate<S: Sink>(
    alloc: Global,
    book: &KeptBook,
    sink: &mut S,
    buffer: &mut RowBuffer,
) -> Result<(), PrintFault>
    ensures printed { (kept : List Kept) → AreShown book.now.known (traces_in book.now) kept
        → (refuted : Refutations) → AreRefutations kept refuted
        → PrintsTexts S.written S.faults result sink.old sink.new IsPart
        (why_parts kept refuted) buffer.old buffer.new }
    ensures counted { S.faults sink.new ≡ print_faults result (S.faults sink.old) }
{
    // For the proof alone.
    parts_follow::<SessionPart>();
    certificate_is_shown();
    let catalogue = book.catalogue();
    let refuters = find_all(alloc, book.day_book())?;
    let names = names_in_order(alloc, catalogue)?;
    let tasks = tasks_in_order(alloc, catalogue)?;
    let source = Source {
        book,
        refuters: &refuters,
    };
    print_all(sink, buffer, &source, &names, &tasks)
}
