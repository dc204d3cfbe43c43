ghost use Rattle.session.specs.AddLaws.{added_text, day_text};
ghost use Rattle.session_rules.specs.Parts.{refused_row, watch_row};
ghost use Rattle.text_rows.specs.Printing.{PrintsText};

use batch_sheets::DayLines;
use mystery_io::Sink;
use session_rules::Refused;
use text_rows::laws::calls_follow;
use text_rows::{Field, PrintFault, RowBuffer, Rows, print_row, print_rows};
use trace_rules::WatchLine;

/// Rows of refused traces.
#[derive(Clone, Copy)]
struct RefusedRows;

impl Rows for RefusedRows {
    type Item = Refused;

    ghost text = { λ _ refused. refused_row refused };

    fn print<S: Sink>(
        &self,
        sink: &mut S,
        buffer: &mut RowBuffer,
        item: &Refused,
    ) -> Result<(), PrintFault> {
        print_row(
            sink,
            buffer,
            &[
                Field::Word("refused"),
                Field::Word(item.request.as_str()),
                Field::Word(item.fault.reason()),
                Field::Number(u128::from(item.fault.number())),
            ],
        )
    }
}

/// Rows of the watch lines of a day.
#[derive(Clone, Copy)]
struct WatchRows {
    day: u32,
}

impl Rows for WatchRows {
    type Item = WatchLine;

    ghost text = { λ rows line. watch_row rows.day line };

    fn print<S: Sink>(
        &self,
        sink: &mut S,
        buffer: &mut RowBuffer,
        item: &WatchLine,
    ) -> Result<(), PrintFault> {
        print_row(
            sink,
            buffer,
            &[
                Field::Word("watch"),
                Field::Number(u128::from(self.day)),
                Field::Number(u128::from(item.worker)),
                Field::Number(u128::from(item.done)),
                Field::Number(u128::from(item.refuted)),
            ],
        )
    }
}

/// The watch rows of days.
#[derive(Clone, Copy)]
struct DayRows;

impl Rows for DayRows {
    type Item = DayLines;

    ghost text = { λ _ watched. day_text watched };

    fn print<S: Sink>(
        &self,
        sink: &mut S,
        buffer: &mut RowBuffer,
        item: &DayLines,
    ) -> Result<(), PrintFault> {
        print_rows(
            sink,
            buffer,
            &WatchRows { day: item.day },
            item.lines.items(),
        )
    }
}

/// Prints the rows of the refused traces of an add, and then the watch rows of its days.
pub(crate) fn print_added<S: Sink>(
    sink: &mut S,
    buffer: &mut RowBuffer,
    refused: &[Refused],
    watched: &[DayLines],
) -> Result<(), PrintFault>
    ensures { PrintsText S.written S.faults result sink.old sink.new buffer.old buffer.new
        (added_text refused.now watched.now) }
{
    // For the proof alone.
    calls_follow::<S>();
    print_rows(sink, buffer, &RefusedRows, refused)?;
    print_rows(sink, buffer, &DayRows, watched)
}
