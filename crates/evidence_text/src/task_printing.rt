ghost use Rattle.std.specs.Prelude.{All};
ghost use Rattle.std.specs.List.{flat_map};
ghost use Rattle.evidence_text.specs.Naming.{AreTasksNamed, fields_of, task_row};
ghost use Rattle.text_rows.specs.Printing.{PrintsText};

use crate::Naming;
use crate::row_texts::{print_nearly_pipe, print_pipe};
use evidence_rules::{PairRow, Sharing};
use mystery_io::Sink;
use task_rows::TaskKind;
use text_rows::{PrintFault, RowBuffer};

/// Prints the row of a kind.
fn print_task_row<S: Sink>(
    sink: &mut S,
    buffer: &mut RowBuffer,
    naming: &Naming<'_>,
    kind: TaskKind,
    row: &PairRow<Sharing>,
) -> Result<(), PrintFault>
    requires { AreTasksNamed naming.now kind row.now }
    ensures { PrintsText S.written S.faults result sink.old sink.new buffer.old buffer.new
        (task_row (fields_of naming.now) kind row.now) }
{
    let from = naming.tasks[row.first as usize];
    let to = naming.tasks[row.second as usize];
    let figures = row.figures;
    match kind {
        TaskKind::Pipe => print_pipe(sink, buffer, from, to, figures),
        TaskKind::NearlyPipe => {
            let trace = &naming.traces[figures.first_refuted as usize];
            print_nearly_pipe(sink, buffer, from, to, figures, trace)
        }
    }
}

/// Prints the rows of a kind, in order, as `print_name_rows` does.
pub(crate) fn print_task_rows<S: Sink>(
    sink: &mut S,
    buffer: &mut RowBuffer,
    naming: &Naming<'_>,
    kind: TaskKind,
    rows: &[PairRow<Sharing>],
) -> Result<(), PrintFault>
    requires { All (AreTasksNamed naming.now kind) rows.now }
    ensures { PrintsText S.written S.faults result sink.old sink.new buffer.old buffer.new
        (flat_map (task_row (fields_of naming.now) kind) rows.now) }
{
    'rows: for row in rows {
        print_task_row(sink, buffer, naming, kind, row)?;
    }
    Ok(())
}
