ghost use Rattle.std.specs.Prelude.{◌∷◌, ◌<◌, [], codes, decimal};
ghost use Rattle.certificate_rows.specs.inner.Numbered.{matter_between, place_row};
ghost use Rattle.certificate_rows.specs.inner.Sources.{count_of};
ghost use Rattle.text_rows.specs.Printing.{PrintsText};
ghost use Rattle.text_rows.specs.Rows.{row_of};

use crate::kind::Kind;
use mystery_io::Sink;
use segment_names::Catalogue;
use text_rows::{Field, PrintFault, RowBuffer, print_row};
use trace_types::{NameText, Text};

/// Prints the row of a relation of two names that a trace refutes, by the day, the index and the
/// request of the trace.
fn print_names<'t, S: Sink>(
    sink: &mut S,
    buffer: &mut RowBuffer,
    kind: &'t str,
    first: &'t NameText,
    second: &'t NameText,
    place: (u32, u32),
    request: &'t Text,
) -> Result<(), PrintFault>
    ensures { PrintsText S.written S.faults result sink.old sink.new buffer.old buffer.new
        (row_of (codes "refuted" ∷ kind.now ∷ first.now.0 ∷ first.now.1 ∷ first.now.2
        ∷ second.now.0 ∷ second.now.1 ∷ second.now.2
        ∷ decimal place.0 ∷ decimal place.1 ∷ request.now ∷ [])) }
{
    print_row(
        sink,
        buffer,
        &[
            Field::Word("refuted"),
            Field::Word(kind),
            Field::Word(first.task.as_str()),
            Field::Word(first.start.as_str()),
            Field::Word(first.end.as_str()),
            Field::Word(second.task.as_str()),
            Field::Word(second.start.as_str()),
            Field::Word(second.end.as_str()),
            Field::Number(u128::from(place.0)),
            Field::Number(u128::from(place.1)),
            Field::Word(request.as_str()),
        ],
    )
}

/// Prints the row of a pipeline between two tasks that a trace refutes, likewise.
fn print_tasks<'t, S: Sink>(
    sink: &mut S,
    buffer: &mut RowBuffer,
    from: &'t Text,
    to: &'t Text,
    place: (u32, u32),
    request: &'t Text,
) -> Result<(), PrintFault>
    ensures { PrintsText S.written S.faults result sink.old sink.new buffer.old buffer.new
        (row_of (codes "refuted" ∷ codes "pipe" ∷ from.now ∷ to.now
        ∷ decimal place.0 ∷ decimal place.1 ∷ request.now ∷ [])) }
{
    print_row(
        sink,
        buffer,
        &[
            Field::Word("refuted"),
            Field::Word("pipe"),
            Field::Word(from.as_str()),
            Field::Word(to.as_str()),
            Field::Number(u128::from(place.0)),
            Field::Number(u128::from(place.1)),
            Field::Word(request.as_str()),
        ],
    )
}

/// Prints the row of a relation of a kind between two numbers that a trace refutes, by the day, the
/// index and the request of the trace.
pub(crate) fn print_refuted<'t, S: Sink>(
    sink: &mut S,
    buffer: &mut RowBuffer,
    catalogue: &'t Catalogue,
    kind: Kind,
    pair: (u32, u32),
    place: (u32, u32),
    request: &'t Text,
) -> Result<(), PrintFault>
    requires one { pair.0 < count_of catalogue.now kind }
    requires other { pair.1 < count_of catalogue.now kind }
    ensures { PrintsText S.written S.faults result sink.old sink.new buffer.old buffer.new
        (place_row (matter_between catalogue.now kind pair.0 pair.1) place.0 place.1 request.now) }
{
    match kind {
        Kind::Before => {
            let first = catalogue.text_of(pair.0);
            let second = catalogue.text_of(pair.1);
            print_names(sink, buffer, "before", first, second, place, request)
        }
        Kind::Exclusive => {
            let first = catalogue.text_of(pair.0);
            let second = catalogue.text_of(pair.1);
            print_names(sink, buffer, "exclusive", first, second, place, request)
        }
        Kind::Pipe => {
            let from = catalogue.task_text(pair.0);
            let to = catalogue.task_text(pair.1);
            print_tasks(sink, buffer, from, to, place, request)
        }
    }
}
