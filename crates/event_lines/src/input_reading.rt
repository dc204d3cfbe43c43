ghost use Rattle.std.specs.Prelude.{◌≡◌, ◌≤◌, ◌<◌, ◌+◌, ◌^◌, All, length, Ok, IfOk, IfErr};
ghost use Rattle.event_lines.specs.GoodLines.{IsLimited, IsTimely, NumbersRise};
ghost use Rattle.event_lines.specs.InputLines.{lines_said, IsLineError};
ghost use Rattle.event_lines.specs.inner.Readings.{IsReadingFrom};

use crate::lines_read::LinesRead;
use crate::pieces::read_pieces;
use crate::{LineError, LineParts};
use std::alloc::Global;
use std::thread::Threads;

/// Bytes of input for each thread; for fewer, starting one does not pay.
pub(crate) const LEAST_PIECE: usize = 65_536;

/// Reads the lines of bytes, numbered from this one on, by up to so many workers, one for each
/// `least` bytes at most.
pub(crate) fn read_shared<R: Threads + Sync>(
    rt: &R,
    alloc: Global,
    first: u32,
    bytes: &[u8],
    workers: u32,
    least: usize,
) -> Result<LinesRead, LineError>
    requires few { first + length bytes.now < 2 ^ 32 }
    requires some { 0 < least }
    ensures { IsReadingFrom first bytes.now result }
{
    let pieces = workers.min((bytes.len() / least) as u32);
    read_pieces(rt, alloc, first, bytes, pieces)
}

/// Reads the lines of an input: one entry for each line that is not blank, in order. Up to so many
/// workers read in parallel, each a piece; a short input is read by the caller alone.
///
/// An input has fewer than 2^32 - 1 bytes, so that the number of each line fits 32 bits.
///
/// The errors are `Memory`, and `Bad` with the number of the first bad line and the first reason
/// that holds of it.
pub fn read_lines<R: Threads + Sync>(
    rt: &R,
    alloc: Global,
    bytes: &[u8],
    workers: u32,
) -> Result<LineParts, LineError>
    requires { length bytes.now < u32.MAX }
    ensures lines_read { IfOk result (λ v. lines_said bytes.now ≡ Ok v) }
    ensures first_bad { IfErr result (IsLineError (lines_said bytes.now)) }
    ensures rising { IfOk result (λ v. NumbersRise v) }
    ensures timely { IfOk result (λ v. All IsTimely v) }
    ensures limited { IfOk result (λ v. All IsLimited v) }
    ensures few { IfOk result (λ v. length v ≤ length bytes.now + 1) }
{
    Ok(read_shared(rt, alloc, 1, bytes, workers, LEAST_PIECE)?.lines)
}
