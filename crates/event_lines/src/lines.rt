ghost use Rattle.std.specs.Prelude.{◌≡◌, ◌≤◌, ◌<◌, ◌+◌, ◌^◌, ◌∷◌, [], ◌++◌, length};
ghost use Rattle.std.specs.Prelude.{IfErr, OnOk, IsOkAnd};
ghost use Rattle.std.specs.List.{position_or_len};
ghost use Rattle.event_lines.specs.Cut.{is_line_feed};
ghost use Rattle.event_lines.specs.InputLines.{lines_said_from, IsLineError};
ghost use Rattle.event_lines.specs.inner.Readings.{IsReadingFrom};

use crate::LineError;
use crate::blank_lines::is_blank_line;
use crate::line_reading::add_line;
use crate::lines_read::LinesRead;
use crate::run_builder::RunBuilder;
use json::Scratch;
use memchr::memchr;
use std::alloc::Global;

/// Finds where the first line ends.
fn line_end(bytes: &[u8]) -> usize
    ensures first { position_or_len is_line_feed bytes.now ≡ result }
    ensures within { result ≤ length bytes.now }
{
    match bytes.first() {
        // An empty line is found without the cost of a search.
        Some(b'\n') => 0,
        _ => memchr(b'\n', bytes).unwrap_or(bytes.len()),
    }
}

/// Appends what a line says; a blank line adds nothing.
fn add_numbered_line(
    alloc: Global,
    number: u32,
    line: &[u8],
    scratch: &mut Scratch,
    lines: &mut RunBuilder,
) -> Result<(), LineError>
    ensures ok { OnOk result (IsOkAnd (lines_said_from number (line.now ∷ []))
        (λ said. lines.new ≡ lines.old ++ said)) }
    ensures err { IfErr result (IsLineError (lines_said_from number (line.now ∷ []))) }
{
    if is_blank_line(line) {
        return Ok(());
    }
    match add_line(alloc, number, line, scratch, lines)? {
        Ok(()) => Ok(()),
        Err(why) => Err(LineError::Bad { line: number, why }),
    }
}

/// Reads the lines of bytes one after another, numbered from this one on: one entry for each line
/// that is not blank.
///
/// The errors are `Memory`, and `Bad` with the number of the first bad line and the first reason
/// that holds of it.
pub(crate) fn read_piece(alloc: Global, first: u32, bytes: &[u8]) -> Result<LinesRead, LineError>
    requires { first + length bytes.now < 2 ^ 32 }
    ensures { IsReadingFrom first bytes.now result }
{
    let mut lines = RunBuilder::new(alloc)?;
    let mut scratch = Scratch::new(alloc);
    let mut start = 0;
    let mut number = first;
    'lines: loop {
        let end = start + line_end(&bytes[start..]);
        add_numbered_line(alloc, number, &bytes[start..end], &mut scratch, &mut lines)?;
        if end == bytes.len() {
            return Ok(LinesRead {
                lines: lines.into_parts()?,
                last: number,
            });
        }
        number += 1;
        start = end + 1;
    }
}
