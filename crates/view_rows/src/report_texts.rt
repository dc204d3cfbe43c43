ghost use Rattle.std.specs.Prelude.{◌<◌, length, codes};
ghost use Rattle.view_rows.specs.inner.NumberedTexts.{latency_row, report_head, segment_numbers};
ghost use Rattle.view_rows.specs.inner.NumberedTexts.{segment_row};
ghost use Rattle.session_rules.specs.ReportTexts.{named_row};
ghost use Rattle.text_rows.specs.Printing.{PrintsText};

use crate::named_rows::NamedRows;
use latency_report::{FullReport, SegmentRow};
use mystery_io::Sink;
use segment_names::Catalogue;
use text_rows::{Field, PrintFault, RowBuffer, print_row};
use trace_rules::Figures;
use trace_types::NameText;

/// Prints the header of a report.
pub(crate) fn print_report_head<S: Sink>(
    sink: &mut S,
    buffer: &mut RowBuffer,
    report: &FullReport,
) -> Result<(), PrintFault>
    ensures { PrintsText S.written S.faults result sink.old sink.new buffer.old buffer.new
        (report_head report.now) }
{
    print_row(
        sink,
        buffer,
        &[
            Field::Word("report"),
            Field::Figure("traces", u128::from(report.traces)),
            Field::Figure("critical", report.critical),
        ],
    )
}

/// Prints the row of the figures of latencies.
pub(crate) fn print_latency<S: Sink>(
    sink: &mut S,
    buffer: &mut RowBuffer,
    figures: &Figures,
) -> Result<(), PrintFault>
    ensures { PrintsText S.written S.faults result sink.old sink.new buffer.old buffer.new
        (latency_row figures.now) }
{
    print_row(
        sink,
        buffer,
        &[
            Field::Word("latency"),
            Field::Number(u128::from(figures.count)),
            Field::Number(figures.sum),
            Field::Number(u128::from(figures.median)),
            Field::Number(u128::from(figures.greatest)),
        ],
    )
}

/// Prints the row of a name with its figures.
fn print_segment<S: Sink>(
    sink: &mut S,
    buffer: &mut RowBuffer,
    name: &NameText,
    item: &SegmentRow,
) -> Result<(), PrintFault>
    ensures { PrintsText S.written S.faults result sink.old sink.new buffer.old buffer.new
        (named_row (codes "segment") name.now (segment_numbers item.now)) }
{
    print_row(
        sink,
        buffer,
        &[
            Field::Word("segment"),
            Field::Word(name.task.as_str()),
            Field::Word(name.start.as_str()),
            Field::Word(name.end.as_str()),
            Field::Number(u128::from(item.figures.count)),
            Field::Number(item.figures.sum),
            Field::Number(u128::from(item.figures.median)),
            Field::Number(u128::from(item.figures.greatest)),
            Field::Number(u128::from(item.on_path)),
            Field::Number(item.on_path_sum),
        ],
    )
}

/// The rows of a report, by the texts of a catalogue.
#[derive(Drop)]
pub(crate) struct SegmentRows<'a> {
    pub(crate) catalogue: &'a Catalogue,
}

impl NamedRows for SegmentRows<'_> {
    type Item = SegmentRow;

    ghost text = { λ rows r. segment_row rows.catalogue.now.names r };

    ghost has = { λ rows r. r.name < length rows.catalogue.now.names };

    fn print<S: Sink>(
        &self,
        sink: &mut S,
        buffer: &mut RowBuffer,
        item: &SegmentRow,
    ) -> Result<(), PrintFault> {
        let name = self.catalogue.text_of(item.name);
        print_segment(sink, buffer, name, item)
    }
}
