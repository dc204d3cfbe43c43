ghost use Rattle.text_rows.specs.Printing.{PrintsText};
ghost use Rattle.text_rows.specs.TextSinks.{all_bytes};

use crate::row_buffer::FLUSH_SIZE;
use crate::row_printing::flush;
use crate::{PrintFault, RowBuffer, Rows, print_rows};
use mystery_io::{Sink, write_text};

/// Texts that were made before they are printed.
#[derive(Clone, Copy)]
struct MadeTexts;

/// Flushes the buffer and writes a text.
fn write_made<S: Sink>(sink: &mut S, buffer: &mut RowBuffer, text: &[u8]) -> Result<(), PrintFault>
    ensures { PrintsText S.written S.faults result sink.old sink.new buffer.old buffer.new
        text.now }
{
    flush(sink, buffer)?;
    write_text(sink, text)?;
    Ok(())
}

/// Appends a text to the buffer and flushes it when full.
fn hold_made<S: Sink>(sink: &mut S, buffer: &mut RowBuffer, text: &[u8]) -> Result<(), PrintFault>
    ensures { PrintsText S.written S.faults result sink.old sink.new buffer.old buffer.new
        text.now }
{
    buffer.push_text(text)?;
    if buffer.is_full() {
        flush(sink, buffer)?;
    }
    Ok(())
}

impl Rows for MadeTexts {
    type Item = Vec<u8>;

    ghost text = { λ _ text. text.items };

    fn print<S: Sink>(
        &self,
        sink: &mut S,
        buffer: &mut RowBuffer,
        item: &Vec<u8>,
    ) -> Result<(), PrintFault> {
        if item.len() < FLUSH_SIZE {
            hold_made(sink, buffer, item)
        } else {
            write_made(sink, buffer, item)
        }
    }
}

/// Prints texts that were made before, in order. A long one is not copied: the buffer is flushed,
/// and the text is written as it stands. After an error nothing is said of the buffer: it is given
/// up.
pub fn print_texts<S: Sink>(
    sink: &mut S,
    buffer: &mut RowBuffer,
    texts: &[Vec<u8>],
) -> Result<(), PrintFault>
    ensures { PrintsText S.written S.faults result sink.old sink.new buffer.old buffer.new
        (all_bytes texts.now) }
{
    print_rows(sink, buffer, &MadeTexts, texts)
}
