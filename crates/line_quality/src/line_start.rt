ghost use Rattle.std.specs.Prelude.{◌<◌, length};
ghost use Rattle.event_lines.specs.Cut.{input_lines};
ghost use Rattle.line_quality.specs.inner.FirstLines.{IsLineStart};

use crate::first_line::{FirstLine, bytes_from};

/// Finds where the line begins that so many lines stand before.
pub(crate) fn line_start(bytes: &[u8], count: u32) -> usize
    requires { count < length (input_lines bytes.now) }
    ensures { IsLineStart bytes.now count result }
{
    let mut at = 0usize;
    'lines: for _line in 0..count {
        at += FirstLine::of(bytes_from(bytes, at)).next;
    }
    at
}
