ghost use Rattle.std.specs.Prelude.{All};
ghost use Rattle.std.specs.List.{flat_map};
ghost use Rattle.evidence_text.specs.Naming.{AreNamed, fields_of, name_row};
ghost use Rattle.text_rows.specs.Printing.{PrintsText};

use crate::Naming;
use crate::row_texts::print_nearly;
use crate::signed_fields::{print_exclusion_gap, print_order_gaps};
use evidence_rules::{Between, PairRow};
use mystery_io::Sink;
use name_rows::NameKind;
use text_rows::{PrintFault, RowBuffer};

/// Prints the row of a kind.
fn print_name_row<S: Sink>(
    sink: &mut S,
    buffer: &mut RowBuffer,
    naming: &Naming<'_>,
    kind: NameKind,
    row: &PairRow<Between>,
) -> Result<(), PrintFault>
    requires { AreNamed naming.now kind row.now }
    ensures { PrintsText S.written S.faults result sink.old sink.new buffer.old buffer.new
        (name_row (fields_of naming.now) kind row.now) }
{
    let first = naming.names[row.first as usize];
    let second = naming.names[row.second as usize];
    let figures = row.figures;
    match kind {
        NameKind::Order => print_order_gaps(sink, buffer, first, second, figures),
        NameKind::Exclusion => print_exclusion_gap(sink, buffer, first, second, figures),
        NameKind::NearlyOrder => {
            let counts = (figures.traces, figures.early);
            let trace = &naming.traces[figures.first_early as usize];
            print_nearly(sink, buffer, "before", first, second, counts, trace)
        }
        NameKind::NearlyExclusion => {
            let counts = (figures.traces, figures.both);
            let trace = &naming.traces[figures.first_both as usize];
            print_nearly(sink, buffer, "exclusive", first, second, counts, trace)
        }
    }
}

/// Prints the rows of a kind, in order. Names stand by their places, and traces by their indices.
pub(crate) fn print_name_rows<S: Sink>(
    sink: &mut S,
    buffer: &mut RowBuffer,
    naming: &Naming<'_>,
    kind: NameKind,
    rows: &[PairRow<Between>],
) -> Result<(), PrintFault>
    requires { All (AreNamed naming.now kind) rows.now }
    ensures { PrintsText S.written S.faults result sink.old sink.new buffer.old buffer.new
        (flat_map (name_row (fields_of naming.now) kind) rows.now) }
{
    'rows: for row in rows {
        print_name_row(sink, buffer, naming, kind, row)?;
    }
    Ok(())
}
