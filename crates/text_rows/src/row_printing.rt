ghost use Rattle.std.specs.Prelude.{◌≡◌, ◌<◌, [], length, map, OnOk, OnErr};
ghost use Rattle.std.specs.Io.KnownBytes.{append_known};
ghost use Rattle.mystery_io.specs.Prefixes.{AppendsPrefix};
ghost use Rattle.text_rows.specs.Fields.{field_text};
ghost use Rattle.text_rows.specs.Printing.{flush_size, print_faults, PrintsText};
ghost use Rattle.text_rows.specs.Rows.{row_of};

use crate::{Field, PrintFault, RowBuffer};
use mystery_io::{Sink, write_text};

/// Writes the buffer and empties it, without allocating. If a write fails, a prefix of the buffer
/// was written.
pub fn flush<S: Sink>(sink: &mut S, buffer: &mut RowBuffer) -> Result<(), PrintFault>
    ensures all { OnOk result
        (S.written sink.new ≡ append_known (S.written sink.old) buffer.old) }
    ensures none { OnOk result (buffer.new ≡ []) }
    ensures prefix { OnErr result
        (AppendsPrefix (S.written sink.old) (S.written sink.new) buffer.old) }
    ensures stays { OnErr result (buffer.new ≡ buffer.old) }
    ensures counted { S.faults sink.new ≡ print_faults result (S.faults sink.old) }
{
    write_text(sink, buffer.bytes())?;
    buffer.clear();
    Ok(())
}

/// Appends a row to the buffer and flushes it when full. After an error nothing is said of the
/// buffer: it is given up.
pub fn print_row<S: Sink>(
    sink: &mut S,
    buffer: &mut RowBuffer,
    fields: &[Field<'_>],
) -> Result<(), PrintFault>
    ensures prints { PrintsText S.written S.faults result sink.old sink.new buffer.old buffer.new
        (row_of (map field_text fields.now)) }
    ensures flushed { OnOk result (length buffer.new < flush_size) }
{
    buffer.push_row(fields)?;
    if buffer.is_full() {
        flush(sink, buffer)?;
    }
    Ok(())
}
