ghost use Rattle.std.specs.Prelude.{◌≡◌, List};
ghost use Rattle.book_laws.specs.Shown.{AreShown};
ghost use Rattle.evidence_printing.specs.inner.Numbered.{AreNumbersOf, AreRowsOf, AreTablesOf};
ghost use Rattle.evidence_printing.specs.inner.Numbered.{numbered_text};
ghost use Rattle.evidence_rules.specs.declared.choice.Choice.{Choice};
ghost use Rattle.evidence_text.specs.Naming.{rows_of};
ghost use Rattle.kept_books.specs.KeptBooks.{traces_in};
ghost use Rattle.session_rules.specs.EvidenceTexts.{IsEvidenceText};
ghost use Rattle.session_rules.specs.KeptTraces.{Kept};
ghost use Rattle.text_rows.specs.Printing.{PrintsText, print_faults};
ghost use Rattle.text_rows.specs.TextsOfParts.{PrintsPart};

use crate::laws::evidence_is_shown;
use crate::numbers::{kept_names, kept_tasks};
use crate::tables::{FigureTables, make_tables};
use crate::texts::list_texts;
use evidence_laws::laws::the_first_trace_refutes;
use evidence_rows::find_rows;
use evidence_rules::Choice;
use evidence_text::{EvidenceRows, Naming, print_evidence_rows};
use kept_books::KeptBook;
use mystery_io::Sink;
use std::alloc::Global;
use std::thread::Threads;
use text_rows::{PrintFault, RowBuffer};
use trace_types::{NamedSegment, NamedTrace};
use worker_limit::WorkerLimit;

/// Prints the rows of the names and tasks with these numbers.
fn print_rows<S: Sink>(
    alloc: Global,
    book: &KeptBook,
    tables: &FigureTables,
    names: &[u32],
    tasks: &[u32],
    rows: &EvidenceRows,
    sink: &mut S,
    buffer: &mut RowBuffer,
) -> Result<(), PrintFault>
    requires tables { AreTablesOf book.now.known (traces_in book.now) tables.now.meetings
        tables.now.sharings }
    requires numbers { AreNumbersOf book.now.known tables.now.meetings tables.now.sharings
        names.now tasks.now }
    requires rows { (choice : Choice) × AreRowsOf choice tables.now.meetings tables.now.sharings
        names.now tasks.now (rows_of rows.now) }
    ensures { PrintsText S.written S.faults result sink.old sink.new buffer.old buffer.new
        (numbered_text book.now.known book.now.book.days names.now tasks.now
        (rows_of rows.now)) }
{
    // For the proof alone.
    the_first_trace_refutes::<NamedTrace, NamedSegment, u32, u32, u32>();
    let texts = list_texts(alloc, book, names, tasks)?;
    let naming = Naming {
        names: &texts.names,
        tasks: &texts.tasks,
        traces: &texts.traces,
    };
    print_evidence_rows(sink, buffer, book.trace_count(), &naming, rows)
}

/// Prints the evidence of the traces of a book, whose figures are in these tables.
fn print_tables<S: Sink>(
    alloc: Global,
    book: &KeptBook,
    choice: Choice,
    tables: &FigureTables,
    sink: &mut S,
    buffer: &mut RowBuffer,
) -> Result<(), PrintFault>
    requires { AreTablesOf book.now.known (traces_in book.now) tables.now.meetings
        tables.now.sharings }
    ensures printed { (kept : List Kept)
        → AreShown book.now.known (traces_in book.now) kept
        → PrintsPart S.written S.faults result sink.old sink.new (IsEvidenceText choice kept)
        buffer.old buffer.new }
    ensures counted { S.faults sink.new ≡ print_faults result (S.faults sink.old) }
{
    // For the proof alone.
    evidence_is_shown();
    let catalogue = book.catalogue();
    let names = kept_names(alloc, catalogue, &tables.meetings)?;
    let tasks = kept_tasks(alloc, catalogue, &tables.sharings)?;
    let rows = find_rows(
        alloc,
        choice,
        &tables.meetings,
        &names,
        &tables.sharings,
        &tasks,
    )?;
    print_rows(alloc, book, tables, &names, &tasks, &rows, sink, buffer)
}

/// Prints the evidence of the kept traces of a book: a header with how many traces are kept and how
/// many rows of each kind follow, then the rows. All rows are found before the header is printed.
/// After an error a prefix of the text was printed, or nothing of it, and nothing is said of the
/// buffer.
pub fn print_evidence<R: Threads + Sync, S: Sink>(
    workers: &WorkerLimit<'_, R>,
    alloc: Global,
    book: &KeptBook,
    choice: Choice,
    sink: &mut S,
    buffer: &mut RowBuffer,
) -> Result<(), PrintFault>
    ensures printed { (kept : List Kept)
        → AreShown book.now.known (traces_in book.now) kept
        → PrintsPart S.written S.faults result sink.old sink.new (IsEvidenceText choice kept)
        buffer.old buffer.new }
    ensures counted { S.faults sink.new ≡ print_faults result (S.faults sink.old) }
{
    let tables = make_tables(workers, alloc, book)?;
    print_tables(alloc, book, choice, &tables, sink, buffer)
}
