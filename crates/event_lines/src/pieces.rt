ghost use Rattle.std.specs.Prelude.{◌≡◌, ◌≤◌, ◌<◌, ◌+◌, ◌^◌, ◌∷◌, ◌++◌, length};
ghost use Rattle.std.specs.Prelude.{ℕ, List, Result, IfSome, filter};
ghost use Rattle.std.specs.Thread.{IsSync};
ghost use Rattle.event_lines.specs.declared.line.Line.{Line};
ghost use Rattle.event_lines.specs.Cut.{input_lines, is_line_feed};
ghost use Rattle.event_lines.specs.InputLines.{LineFault, both_said, lines_said_from};
ghost use Rattle.event_lines.specs.inner.Readings.{IsNumberedReading, IsReading, IsReadingFrom};

use crate::lines::read_piece;
use crate::lines_read::LinesRead;
use crate::{LineError, LineParts};
use memchr::{memchr, memrchr};
use std::alloc::Global;
use std::thread::{Threads, join};

/// Returns how many bytes the first `pieces / 2` of `pieces` pieces have, so that all pieces are
/// read by about the same time. Here `front` is `pieces / 2`.
///
/// The reader of the other pieces counts the lines of these first. Counting takes about a twentieth
/// of the time of reading, and these are about half of the bytes, so meanwhile `front` workers read
/// `front * bytes / 40`. Half of that is added to these pieces, but at most a quarter of the bytes.
pub(crate) fn first_length(bytes: usize, pieces: u32) -> usize
    requires few { bytes < 2 ^ 32 }
    requires some { 0 < pieces }
    ensures { result ≤ bytes }
{
    let bytes = bytes as u64;
    let front = u64::from(pieces / 2);
    let equal = bytes * front / u64::from(pieces);
    let more = bytes * front.min(20) / 80;
    (equal + more).min(bytes) as usize
}

/// Cuts bytes in two at the first line feed from an index on. Neither part has this line feed.
pub(crate) fn cut_at_line_feed(bytes: &[u8], from: usize) -> Option<(&[u8], &[u8])>
    requires { from ≤ length bytes.now }
    ensures { IfSome result (λ cut. bytes.now ≡ cut.0.now ++ 10 ∷ cut.1.now) }
{
    let feed = from + memchr(b'\n', &bytes[from..])?;
    Some((&bytes[..feed], &bytes[feed + 1..]))
}

/// Cuts bytes in two at the last line feed. Neither part has this line feed.
pub(crate) fn cut_at_last_line_feed(bytes: &[u8]) -> Option<(&[u8], &[u8])>
    ensures { IfSome result (λ cut. bytes.now ≡ cut.0.now ++ 10 ∷ cut.1.now) }
{
    let last = memrchr(b'\n', bytes)?;
    Some((&bytes[..last], &bytes[last + 1..]))
}

/// Counts the line feeds of bytes. It loops by index, which the compiler vectorizes.
fn count_line_feeds(bytes: &[u8]) -> u32
    requires { length bytes.now < 2 ^ 32 }
    ensures count { result ≡ length (filter is_line_feed bytes.now) }
    ensures few { result ≤ length bytes.now }
{
    let mut count = 0;
    for at in 0..bytes.len() {
        count += u32::from(bytes[at] == b'\n');
    }
    count
}

/// Returns the number of the last line of bytes whose lines are numbered from this one on.
pub(crate) fn last_number(first: u32, bytes: &[u8]) -> u32
    requires { first + length bytes.now < 2 ^ 32 }
    ensures last { first + length (input_lines bytes.now) ≡ result + 1 }
    ensures few { result ≤ first + length bytes.now }
{
    first + count_line_feeds(bytes)
}

/// Joins what was read of the first part of bytes and of the second. The error is that of the first
/// part, where it has one.
pub(crate) fn join_readings(
    front: Result<LineParts, LineError>,
    back: Result<LinesRead, LineError>,
) -> Result<LinesRead, LineError>
    ensures { (said more : Result (List Line) LineFault) (next : ℕ) → IsReading said front
        → IsNumberedReading more next back
        → IsNumberedReading (both_said said more) next result }
{
    let mut lines = front?;
    let LinesRead { lines: later, last } = back?;
    lines.append(later)?;
    Ok(LinesRead { lines, last })
}

/// Reads the lines of bytes, numbered from this one on, in up to so many pieces, in parallel. Where
/// no line feed follows the cut, the bytes are read as one piece.
pub(crate) fn read_pieces<R: Threads + Sync>(
    rt: &R,
    alloc: Global,
    first: u32,
    bytes: &[u8],
    pieces: u32,
) -> Result<LinesRead, LineError>
    requires { first + length bytes.now < 2 ^ 32 }
    ensures { IsReadingFrom first bytes.now result }
{
    if pieces < 2 {
        return read_piece(alloc, first, bytes);
    }
    let Some((front, back)) = cut_at_line_feed(bytes, first_length(bytes.len(), pieces)) else {
        return read_piece(alloc, first, bytes);
    };
    let (front, back) = join(
        rt,
        move || -> Result<LineParts, LineError>
            requires { IsSync R.row × (1 < pieces) × (first + length front.now < 2 ^ 32) }
            ensures { IsReading (lines_said_from first (input_lines front.entry.now)) result }
        { Ok(read_pieces(rt, alloc, first, front, pieces / 2)?.lines) },
        move || -> Result<LinesRead, LineError>
            requires { IsSync R.row × (1 < pieces)
                × (first + length front.now + length back.now + 1 < 2 ^ 32) }
            ensures { IsReadingFrom (first + length (input_lines front.entry.now)) back.entry.now
                result }
        {
            let next = last_number(first, front) + 1;
            read_pieces(rt, alloc, next, back, pieces - pieces / 2)
        },
    );
    join_readings(front, back)
}
