ghost use Rattle.std.specs.Prelude.{◌<◌, ◌^◌, length};
ghost use Rattle.evidence_rules.specs.RowTexts.{evidence_text, head_row, nearly_text};
ghost use Rattle.evidence_rules.specs.RowTexts.{told_text};
ghost use Rattle.evidence_text.specs.Naming.{AreRowsNamed, fields_of, rows_of};
ghost use Rattle.text_rows.specs.Printing.{PrintsText};

use crate::name_printing::print_name_rows;
use crate::row_texts::print_counts;
use crate::task_printing::print_task_rows;
use crate::{EvidenceRows, Naming};
use mystery_io::Sink;
use name_rows::NameKind;
use task_rows::TaskKind;
use text_rows::laws::calls_follow;
use text_rows::{PrintFault, RowBuffer};

/// Prints the header: how many traces are kept, and how many rows of each kind follow.
fn print_head<S: Sink>(
    sink: &mut S,
    buffer: &mut RowBuffer,
    traces: u32,
    rows: &EvidenceRows,
) -> Result<(), PrintFault>
    ensures { PrintsText S.written S.faults result sink.old sink.new buffer.old buffer.new
        (head_row traces (rows_of rows.now)) }
{
    let others = rows.nearly_exclusions.len() as u128 + rows.nearly_pipes.len() as u128;
    let nearly = rows.nearly_orders.len() as u128 + others;
    let told = (rows.orders.len(), rows.exclusions.len(), rows.pipes.len());
    print_counts(sink, buffer, traces, told, nearly)
}

/// Prints the rows of the relations that are told.
fn print_told<S: Sink>(
    sink: &mut S,
    buffer: &mut RowBuffer,
    naming: &Naming<'_>,
    rows: &EvidenceRows,
) -> Result<(), PrintFault>
    requires { AreRowsNamed naming.now (rows_of rows.now) }
    ensures { PrintsText S.written S.faults result sink.old sink.new buffer.old buffer.new
        (told_text (fields_of naming.now) (rows_of rows.now)) }
{
    // For the proof alone.
    calls_follow::<S>();
    print_name_rows(sink, buffer, naming, NameKind::Order, &rows.orders)?;
    print_name_rows(sink, buffer, naming, NameKind::Exclusion, &rows.exclusions)?;
    print_task_rows(sink, buffer, naming, TaskKind::Pipe, &rows.pipes)
}

/// Prints the rows of the relations that few traces refute.
fn print_nearly_told<S: Sink>(
    sink: &mut S,
    buffer: &mut RowBuffer,
    naming: &Naming<'_>,
    rows: &EvidenceRows,
) -> Result<(), PrintFault>
    requires { AreRowsNamed naming.now (rows_of rows.now) }
    ensures { PrintsText S.written S.faults result sink.old sink.new buffer.old buffer.new
        (nearly_text (fields_of naming.now) (rows_of rows.now)) }
{
    // For the proof alone.
    calls_follow::<S>();
    print_name_rows(
        sink,
        buffer,
        naming,
        NameKind::NearlyOrder,
        &rows.nearly_orders,
    )?;
    print_name_rows(
        sink,
        buffer,
        naming,
        NameKind::NearlyExclusion,
        &rows.nearly_exclusions,
    )?;
    print_task_rows(
        sink,
        buffer,
        naming,
        TaskKind::NearlyPipe,
        &rows.nearly_pipes,
    )
}

/// Prints the evidence of so many traces: a header, and the rows of each kind. After an error a
/// prefix of the text was printed, and nothing is said of the buffer.
pub fn print_evidence_rows<S: Sink>(
    sink: &mut S,
    buffer: &mut RowBuffer,
    traces: u32,
    naming: &Naming<'_>,
    rows: &EvidenceRows,
) -> Result<(), PrintFault>
    requires { AreRowsNamed naming.now (rows_of rows.now) }
    ensures { PrintsText S.written S.faults result sink.old sink.new buffer.old buffer.new
        (evidence_text traces (fields_of naming.now) (rows_of rows.now)) }
{
    // For the proof alone.
    calls_follow::<S>();
    print_head(sink, buffer, traces, rows)?;
    print_told(sink, buffer, naming, rows)?;
    print_nearly_told(sink, buffer, naming, rows)
}
