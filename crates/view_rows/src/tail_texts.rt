ghost use Rattle.std.specs.Prelude.{◌<◌, length, codes};
ghost use Rattle.view_rows.specs.inner.NumberedTexts.{tail_head, tail_numbers, tail_row};
ghost use Rattle.session_rules.specs.ReportTexts.{named_row};
ghost use Rattle.text_rows.specs.Printing.{PrintsText};

use crate::named_rows::NamedRows;
use mystery_io::Sink;
use segment_names::Catalogue;
use slow_tail::{SlowReport, TailRow};
use text_rows::{Field, PrintFault, RowBuffer, print_row};
use trace_types::NameText;

/// Prints the header of a report on the slowest traces.
pub(crate) fn print_tail_head<S: Sink>(
    sink: &mut S,
    buffer: &mut RowBuffer,
    report: &SlowReport,
) -> Result<(), PrintFault>
    ensures { PrintsText S.written S.faults result sink.old sink.new buffer.old buffer.new
        (tail_head report.now) }
{
    print_row(
        sink,
        buffer,
        &[
            Field::Word("tail"),
            Field::Figure("traces", u128::from(report.traces)),
            Field::Figure("slow", u128::from(report.slow)),
            Field::Figure("floor", u128::from(report.floor)),
        ],
    )
}

/// Prints the row of a name, with what is on the paths of slow traces and on those of the rest.
fn print_both<S: Sink>(
    sink: &mut S,
    buffer: &mut RowBuffer,
    name: &NameText,
    item: &TailRow,
) -> Result<(), PrintFault>
    ensures { PrintsText S.written S.faults result sink.old sink.new buffer.old buffer.new
        (named_row (codes "segment") name.now (tail_numbers item.now)) }
{
    print_row(
        sink,
        buffer,
        &[
            Field::Word("segment"),
            Field::Word(name.task.as_str()),
            Field::Word(name.start.as_str()),
            Field::Word(name.end.as_str()),
            Field::Number(u128::from(item.slow_on)),
            Field::Number(item.slow_sum),
            Field::Number(u128::from(item.rest_on)),
            Field::Number(item.rest_sum),
        ],
    )
}

/// The rows of a report on the slowest traces, by the texts of a catalogue.
#[derive(Drop)]
pub(crate) struct TailRows<'a> {
    pub(crate) catalogue: &'a Catalogue,
}

impl NamedRows for TailRows<'_> {
    type Item = TailRow;

    ghost text = { λ rows r. tail_row rows.catalogue.now.names r };

    ghost has = { λ rows r. r.name < length rows.catalogue.now.names };

    fn print<S: Sink>(
        &self,
        sink: &mut S,
        buffer: &mut RowBuffer,
        item: &TailRow,
    ) -> Result<(), PrintFault> {
        let name = self.catalogue.text_of(item.name);
        print_both(sink, buffer, name, item)
    }
}
