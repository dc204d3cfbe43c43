ghost use Rattle.std.specs.Prelude.{◌≡◌, ◌<◌, ◌++◌, ◌^◌, OnOk, length};
ghost use Rattle.event_lines.specs.Cut.{input_lines};
ghost use Rattle.event_lines.specs.LineParts.{lines_of_runs};
ghost use Rattle.line_quality.specs.Judging.{Judges};
ghost use Rattle.line_quality.specs.inner.Sorting.{AreKept, Appends};

use crate::findings::Findings;
use crate::sorting::sort_lines;
use event_lines::{LineError, LineParts, LineRun, read_lines};
use std::alloc::{AllocError, Global};
use std::thread::Threads;

/// How many workers read the lines of a file.
const WORKERS: u32 = 4;

/// Appends lines to runs.
fn append_lines(lines: LineParts, runs: &mut Vec<LineRun>) -> Result<(), AllocError>
    ensures { OnOk result (lines_of_runs runs.new.items ≡ lines_of_runs runs.old.items ++ lines) }
{
    let mut more = lines.into_runs();
    runs.append(&mut more)
}

/// Reads the lines of a text, none of which is bad, and appends them.
fn append_kept<R: Threads + Sync>(
    rt: &R,
    alloc: Global,
    text: &[u8],
    runs: &mut Vec<LineRun>,
) -> Result<(), AllocError>
    requires short { length text.now < 2 ^ 31 }
    requires kept { AreKept (input_lines text.now) }
    ensures { OnOk result (Appends text.now (lines_of_runs runs.old.items)
        (lines_of_runs runs.new.items)) }
{
    match read_lines(rt, alloc, text, WORKERS) {
        Ok(lines) => append_lines(lines, runs),
        Err(LineError::Memory) => Err(AllocError),
        Err(LineError::Bad { .. }) => unreachable!(),
    }
}

/// Judges the lines of bytes of which some are bad, and appends the others.
fn judge_bad<R: Threads + Sync>(
    rt: &R,
    alloc: Global,
    file: u32,
    bytes: &[u8],
    findings: &mut Findings,
    runs: &mut Vec<LineRun>,
) -> Result<(), AllocError>
    requires { length bytes.now < 2 ^ 30 }
    ensures { OnOk result (Judges file bytes.now (lines_of_runs runs.old.items)
        (lines_of_runs runs.new.items) findings.old findings.new) }
{
    let text = sort_lines(rt, alloc, file, bytes, findings)?;
    append_kept(rt, alloc, &text, runs)
}

/// Judges the lines of the bytes of the file with this index, from 0: appends the good ones to the
/// runs, in their order, and notes the bad ones. The numbers of the lines in the runs are those of
/// no file where some are bad. The only error is out of memory.
pub fn judge_lines<R: Threads + Sync>(
    rt: &R,
    alloc: Global,
    file: u32,
    bytes: &[u8],
    findings: &mut Findings,
    runs: &mut Vec<LineRun>,
) -> Result<(), AllocError>
    requires { length bytes.now < 2 ^ 30 }
    ensures { OnOk result (Judges file bytes.now (lines_of_runs runs.old.items)
        (lines_of_runs runs.new.items) findings.old findings.new) }
{
    match read_lines(rt, alloc, bytes, WORKERS) {
        Ok(lines) => append_lines(lines, runs),
        Err(LineError::Memory) => Err(AllocError),
        Err(LineError::Bad { .. }) => judge_bad(rt, alloc, file, bytes, findings, runs),
    }
}
