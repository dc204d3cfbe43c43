ghost use Rattle.std.specs.Prelude.{ℕ, List};
ghost use Rattle.std.specs.List.{flat_map};
ghost use Rattle.text_rows.specs.Printing.{PrintsText};

use crate::{PrintFault, RowBuffer};
use mystery_io::Sink;

/// A kind of rows with what they share: the text of an item is a function of it.
pub trait Rows {
    /// What a text is made of.
    type Item;

    /// The text of an item: its row, or its rows.
    ghost text: { Self → Self.Item → List ℕ };

    /// Prints the text of an item. A fault leaves a prefix of what the buffer held and the text.
    fn print<S: Sink>(
        &self,
        sink: &mut S,
        buffer: &mut RowBuffer,
        item: &Self::Item,
    ) -> Result<(), PrintFault>
        ensures { PrintsText S.written S.faults result sink.old sink.new buffer.old buffer.new
            (text self.now item.now) };
}

/// Prints the text of each item, in order.
pub fn print_rows<S: Sink, K: Rows>(
    sink: &mut S,
    buffer: &mut RowBuffer,
    rows: &K,
    items: &[K::Item],
) -> Result<(), PrintFault>
    ensures { PrintsText S.written S.faults result sink.old sink.new buffer.old buffer.new
        (flat_map (K.text rows.now) items.now) }
{
    for item in items {
        rows.print(sink, buffer, item)?;
    }
    Ok(())
}
