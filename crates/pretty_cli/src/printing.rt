ghost use Rattle.std.specs.Prelude.{◌≡◌, [], IsPermutation, OnErr, OnOk};
ghost use Rattle.text_rows.specs.Printing.{print_faults};
ghost use Rattle.text_rows.specs.TextsOfParts.{PrintsPrefix};
ghost use Rattle.pretty_cli.specs.Texts.{AreInOrder, IsPrintedRow, PrintsPretty, PrintsPrettyPrefix};
ghost use Rattle.pretty_cli.specs.Texts.{PrintsRows};

use crate::fields::lines_of;
use crate::place::Place;
use crate::row::{Row, row_text, rows_of};
use mystery_io::Sink;
use std::alloc::{AllocError, Global};
use std::marker::PhantomData;
use text_rows::laws::flush_ends_a_text;
use text_rows::{Field, Parts, PrintFault, RowBuffer, flush, print_parts, print_row};

/// Rows whose lines have at most so many columns.
#[derive(Clone, Copy)]
struct Rows<'t> {
    limit: usize,
    text: PhantomData<&'t str>,
}

impl<'t> Parts for Rows<'t> {
    type Item = Row<'t>;

    ghost is_text = { λ rows row bytes. IsPrintedRow rows.limit row bytes };

    fn print<S: Sink>(
        &self,
        alloc: Global,
        sink: &mut S,
        buffer: &mut RowBuffer,
        item: &Row<'t>,
    ) -> Result<(), PrintFault> {
        let text = row_text(alloc, item, self.limit)?;
        print_row(sink, buffer, &[Field::Word(text.as_str())])?;
        Ok(())
    }
}

/// Returns where a row stands.
fn place(row: &Row<'_>) -> Place
    ensures { result ≡ row.now.place }
{
    row.place
}

/// Brings rows into the order of their places; those of one place stay as they were.
fn order_rows(rows: &mut Vec<Row<'_>>) -> Result<(), AllocError>
    ensures same { IsPermutation rows.old.items rows.new.items }
    ensures sorted { OnOk result (AreInOrder rows.new.items) }
{
    rows.sort_by_key(place)?;
    Ok(())
}

/// Prints the text of each row, and flushes the buffer. An error leaves whole rows and a prefix of
/// one.
fn print_rows<S: Sink>(
    alloc: Global,
    sink: &mut S,
    rows: &[Row<'_>],
    limit: usize,
) -> Result<(), PrintFault>
    ensures all { OnOk result (PrintsRows limit rows.now (S.written sink.old) (S.written sink.new)) }
    ensures prefix { OnErr result (PrintsPrefix (IsPrintedRow limit) rows.now
        (S.written sink.old) (S.written sink.new) []) }
    ensures counted { S.faults sink.new ≡ print_faults result (S.faults sink.old) }
{
    // For the proof alone.
    flush_ends_a_text();
    let mut buffer = RowBuffer::new(alloc);
    let kind = Rows {
        limit,
        text: PhantomData,
    };
    print_parts(alloc, sink, &mut buffer, &kind, rows)?;
    flush(sink, &mut buffer)?;
    Ok(())
}

/// Prints the rows of a text, in the order of their places, as lines of at most so many columns. An
/// error leaves whole rows and a prefix of one.
pub(crate) fn print_text<S: Sink>(
    alloc: Global,
    sink: &mut S,
    text: &str,
    limit: usize,
) -> Result<(), PrintFault>
    ensures all { OnOk result (PrintsPretty limit text.now (S.written sink.old) (S.written sink.new)) }
    ensures prefix { OnErr result
        (PrintsPrettyPrefix limit text.now (S.written sink.old) (S.written sink.new)) }
    ensures counted { S.faults sink.new ≡ print_faults result (S.faults sink.old) }
{
    let lines = lines_of(alloc, text)?;
    let mut rows = rows_of(alloc, &lines)?;
    order_rows(&mut rows)?;
    print_rows(alloc, sink, &rows, limit)?;
    Ok(())
}
