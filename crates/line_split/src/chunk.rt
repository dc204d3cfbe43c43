ghost use Rattle.std.specs.Prelude.{◌≡◌, ◌<◌, ◌≤◌, ◌∷◌, ◌+◌, ◌^◌, [], ℕ, IfOk, OnOk, Ok, Some, length, map};
ghost use Rattle.event_lines.specs.Cut.{input_lines};
ghost use Rattle.line_split.specs.Lines.{lines_from, request_of};
ghost use Rattle.line_split.specs.Parts.{counted};
ghost use Rattle.line_split.specs.inner.Calls.{call_of_line};
ghost use Rattle.line_split.specs.inner.Known.{AreKnown};
ghost use Rattle.line_split.specs.inner.Steps.{Fits, Splits, part_said, read_faults, write_faults};

use crate::SplitFault;
use crate::command_line::CommandLine;
use crate::judging::judge;
use crate::known::{known_parts, split_known};
use crate::pending::Pending;
use crate::putting::{put_line, put_origin};
use output_files::OutputFiles;
use std::alloc::{AllocError, Global};
use std::thread::Threads;

/// Appends a line to its part, and where it comes from to the origins.
pub(crate) fn put<P: OutputFiles>(
    files: &mut P,
    pending: &mut Pending,
    call: CommandLine<'_>,
    part: u32,
    file: usize,
    number: u64,
    line: &[u8],
) -> Result<(), SplitFault>
    requires fits { Fits (call_of_line call) (P.written files.old) pending.old }
    requires within { part < call.parts }
    requires most { call.parts ≤ 256 }
    requires few { file + 1 < 2 ^ 64 }
    ensures { (n : ℕ) → number ≡ counted n
        → part_said (call_of_line call.entry) (request_of line.now) ≡ Ok (Some part)
        → Splits (call_of_line call.entry) (record { file = file; number = n; bytes = line.now } ∷ []) result
        P.written P.faults files.old files.new pending.old pending.new }
{
    put_line(files, pending, part as usize, line)?;
    put_origin(
        files,
        pending,
        (call.parts + part) as usize,
        file as u64 + 1,
        number,
    )
}

/// Splits one line.
fn split_line<R: Threads + Sync, P: OutputFiles>(
    rt: &R,
    alloc: Global,
    files: &mut P,
    pending: &mut Pending,
    call: CommandLine<'_>,
    file: usize,
    number: u64,
    line: &[u8],
) -> Result<(), SplitFault>
    requires fits { Fits (call_of_line call) (P.written files.old) pending.old }
    requires some { 0 < call.parts }
    requires most { call.parts ≤ 256 }
    requires few { file + 1 < 2 ^ 64 }
    requires one { input_lines line.now ≡ line.now ∷ [] }
    ensures { (n : ℕ) → number ≡ counted n
        → Splits (call_of_line call.entry) (record { file = file; number = n; bytes = line.now } ∷ []) result
        P.written P.faults files.old files.new pending.old pending.new }
{
    match judge(rt, alloc, call, line)? {
        Ok(Some(part)) => put(files, pending, call, part, file, number, line),
        Ok(None) => Ok(()),
        Err(why) => Err(SplitFault::BadLine {
            file,
            line: number,
            why,
        }),
    }
}

/// Cuts bytes into their lines.
fn lines_of(alloc: Global, bytes: &[u8]) -> Result<Vec<&[u8]>, AllocError>
    ensures { IfOk result (λ lines. map (λ line. line.now) lines.items ≡ input_lines bytes.now) }
{
    bytes.split(|byte| *byte == b'\n').collect(alloc)
}

/// Splits the lines of bytes, numbered from this one on, and returns the number of the next line.
fn split_lines<R: Threads + Sync, P: OutputFiles>(
    rt: &R,
    alloc: Global,
    files: &mut P,
    pending: &mut Pending,
    call: CommandLine<'_>,
    file: usize,
    first: u64,
    bytes: &[u8],
) -> Result<u64, SplitFault>
    requires fits { Fits (call_of_line call) (P.written files.old) pending.old }
    requires some { 0 < call.parts }
    requires most { call.parts ≤ 256 }
    requires few { file + 1 < 2 ^ 64 }
    ensures next { (n : ℕ) → first ≡ counted n
        → IfOk result (λ next. next ≡ counted (n + length (input_lines bytes.now))) }
    ensures split { (n : ℕ) → first ≡ counted n
        → Splits (call_of_line call.entry) (lines_from file n (input_lines bytes.now)) result
        P.written P.faults files.old files.new pending.old pending.new }
{
    let lines = lines_of(alloc, bytes)?;
    let mut number = first;
    'lines: for line in &lines {
        split_line(rt, alloc, files, pending, call, file, number, line)?;
        number = number.saturating_add(1);
    }
    Ok(number)
}

/// Splits the lines of bytes whose parts are known, as `split_lines` does.
fn split_known_lines<P: OutputFiles>(
    alloc: Global,
    files: &mut P,
    pending: &mut Pending,
    call: CommandLine<'_>,
    file: usize,
    first: u64,
    bytes: &[u8],
    parts: &[u32],
) -> Result<u64, SplitFault>
    requires fits { Fits (call_of_line call) (P.written files.old) pending.old }
    requires some { 0 < call.parts }
    requires most { call.parts ≤ 256 }
    requires few { file + 1 < 2 ^ 64 }
    requires known { AreKnown (call_of_line call) (input_lines bytes.now) parts.now }
    ensures next { (n : ℕ) → first ≡ counted n
        → IfOk result (λ next. next ≡ counted (n + length (input_lines bytes.now))) }
    ensures split { (n : ℕ) → first ≡ counted n
        → Splits (call_of_line call.entry) (lines_from file n (input_lines bytes.now)) result
        P.written P.faults files.old files.new pending.old pending.new }
{
    let lines = lines_of(alloc, bytes)?;
    split_known(files, pending, call, file, first, &lines, parts)
}

/// Splits the lines of bytes, numbered from this one on: all at once where that goes, or else one by
/// one, up to the first that is bad.
fn split_any_lines<R: Threads + Sync, P: OutputFiles>(
    rt: &R,
    alloc: Global,
    files: &mut P,
    pending: &mut Pending,
    call: CommandLine<'_>,
    file: usize,
    first: u64,
    bytes: &[u8],
) -> Result<u64, SplitFault>
    requires fits { Fits (call_of_line call) (P.written files.old) pending.old }
    requires some { 0 < call.parts }
    requires most { call.parts ≤ 256 }
    requires few { file + 1 < 2 ^ 64 }
    ensures next { (n : ℕ) → first ≡ counted n
        → IfOk result (λ next. next ≡ counted (n + length (input_lines bytes.now))) }
    ensures split { (n : ℕ) → first ≡ counted n
        → Splits (call_of_line call.entry) (lines_from file n (input_lines bytes.now)) result
        P.written P.faults files.old files.new pending.old pending.new }
{
    match known_parts(rt, alloc, call, bytes)? {
        Some(parts) => split_known_lines(alloc, files, pending, call, file, first, bytes, &parts),
        None => split_lines(rt, alloc, files, pending, call, file, first, bytes),
    }
}

/// Splits the lines of bytes, as `split_any_lines` does, and tells what was counted.
pub(crate) fn split_chunk<R: Threads + Sync, P: OutputFiles>(
    rt: &R,
    alloc: Global,
    files: &mut P,
    pending: &mut Pending,
    call: CommandLine<'_>,
    file: usize,
    first: u64,
    bytes: &[u8],
) -> Result<u64, SplitFault>
    requires fits { Fits (call_of_line call) (P.written files.old) pending.old }
    requires some { 0 < call.parts }
    requires most { call.parts ≤ 256 }
    requires few { file + 1 < 2 ^ 64 }
    ensures fits { OnOk result (Fits (call_of_line call.entry) (P.written files.new) pending.new) }
    ensures counted { P.faults files.new ≡ write_faults result (P.faults files.old) }
    ensures unread { (count : ℕ) → read_faults result count ≡ count }
    ensures next { (n : ℕ) → first ≡ counted n
        → IfOk result (λ next. next ≡ counted (n + length (input_lines bytes.now))) }
    ensures split { (n : ℕ) → first ≡ counted n
        → Splits (call_of_line call.entry) (lines_from file n (input_lines bytes.now)) result
        P.written P.faults files.old files.new pending.old pending.new }
{
    split_any_lines(rt, alloc, files, pending, call, file, first, bytes)
}
