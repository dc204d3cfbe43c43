ghost use Rattle.std.specs.Prelude.{◌<◌, All};
ghost use Rattle.std.specs.List.{flat_map};
ghost use Rattle.certificate_rows.specs.inner.Numbered.{kind_rows, row_of_pair};
ghost use Rattle.certificate_rows.specs.inner.Pairs.{pairs_with};
ghost use Rattle.certificate_rows.specs.inner.Sources.{IsSource, count_of};
ghost use Rattle.text_rows.specs.Printing.{PrintsText};

use crate::kind::Kind;
use crate::row_texts::print_refuted;
use crate::source::Source;
use mystery_io::Sink;
use text_rows::laws::{calls_follow, texts_follow};
use text_rows::{PrintFault, RowBuffer};

/// Prints the row of the relation of a kind between two numbers; nothing where no trace refutes it.
fn print_pair<S: Sink>(
    sink: &mut S,
    buffer: &mut RowBuffer,
    source: &Source<'_>,
    kind: Kind,
    one: u32,
    other: u32,
) -> Result<(), PrintFault>
    requires source { IsSource source.now }
    requires one { one < count_of source.now.book.now.known kind }
    requires other { other < count_of source.now.book.now.known kind }
    ensures { PrintsText S.written S.faults result sink.old sink.new buffer.old buffer.new
        (row_of_pair source.now.book.now.known source.now.book.now.book.days
        source.now.refuters.now kind (one, other)) }
{
    // For the proof alone.
    texts_follow();
    let Some(finding) = source.refuter(kind, one, other) else {
        return Ok(());
    };
    let trace = source.trace(finding);
    let pair = (one, other);
    let place = (trace.day, finding.index);
    let request = &trace.request;
    let catalogue = source.book.catalogue();
    print_refuted(sink, buffer, catalogue, kind, pair, place, request)
}

/// Prints the rows of the refuted relations of a kind between a number and others, in their order.
fn print_from<S: Sink>(
    sink: &mut S,
    buffer: &mut RowBuffer,
    source: &Source<'_>,
    kind: Kind,
    one: u32,
    others: &[u32],
) -> Result<(), PrintFault>
    requires source { IsSource source.now }
    requires one { one < count_of source.now.book.now.known kind }
    requires others { All (λ n. n < count_of source.now.book.now.known kind) others.now }
    ensures { PrintsText S.written S.faults result sink.old sink.new buffer.old buffer.new
        (flat_map (row_of_pair source.now.book.now.known source.now.book.now.book.days
        source.now.refuters.now kind) (pairs_with one others.now)) }
{
    // For the proof alone.
    texts_follow();
    calls_follow::<S>();
    'others: for other in others {
        print_pair(sink, buffer, source, kind, one, *other)?;
    }
    Ok(())
}

/// Prints the rows of the refuted relations of a kind between numbers, by the first number and then
/// by the second, each in their order.
pub(crate) fn print_kind<S: Sink>(
    sink: &mut S,
    buffer: &mut RowBuffer,
    source: &Source<'_>,
    kind: Kind,
    numbers: &[u32],
) -> Result<(), PrintFault>
    requires source { IsSource source.now }
    requires numbers { All (λ n. n < count_of source.now.book.now.known kind) numbers.now }
    ensures { PrintsText S.written S.faults result sink.old sink.new buffer.old buffer.new
        (kind_rows source.now.book.now.known source.now.book.now.book.days
        source.now.refuters.now kind numbers.now) }
{
    // For the proof alone.
    texts_follow();
    calls_follow::<S>();
    'firsts: for at in 0..numbers.len() {
        print_from(
            sink,
            buffer,
            source,
            kind,
            numbers[at],
            kind.seconds(numbers, at),
        )?;
    }
    Ok(())
}
