ghost use Rattle.std.specs.Prelude.{◌≡◌, ◌<◌, ◌≤◌, ◌∷◌, ◌+◌, ◌++◌, ◌^◌, [], ℕ, IfOk, IfSome, MatchOption};
ghost use Rattle.std.specs.Prelude.{Ok, OnOk, Some, false, length, map, slice_get, true};
ghost use Rattle.std.specs.Option.{option_map_or};
ghost use Rattle.event_lines.specs.Cut.{input_lines, is_blank_line};
ghost use Rattle.event_lines.specs.LineParts.{lines_of_runs};
ghost use Rattle.line_split.specs.Lines.{lines_from, request_of};
ghost use Rattle.line_split.specs.Parts.{counted};
ghost use Rattle.line_split.specs.inner.Calls.{call_of_line};
ghost use Rattle.line_split.specs.inner.Known.{AreKnown, ArePartsSaid, event_part};
ghost use Rattle.line_split.specs.inner.Steps.{Fits, Splits, part_said};

use crate::SplitFault;
use crate::chunk::put;
use crate::command_line::CommandLine;
use crate::judging::LONGEST;
use crate::part::part_of;
use crate::pending::Pending;
use event_lines::{LineError, LineRun, is_blank_line, read_lines};
use event_table::EventTable;
use output_files::OutputFiles;
use std::alloc::{AllocError, Global};
use std::thread::Threads;

/// Appends the part of each event.
fn push_parts(
    call: CommandLine<'_>,
    events: &EventTable,
    parts: &mut Vec<u32>,
) -> Result<(), AllocError>
    requires { 0 < call.parts }
    ensures { OnOk result (parts.new.items
        ≡ parts.old.items ++ map (event_part (call_of_line call.entry)) events.now) }
{
    'events: for index in 0..events.len() {
        parts.push(part_of(call, events.event(index).request.as_str()))?;
    }
    Ok(())
}

/// Tells the part of each line of these runs, or none where a control line is among them.
fn parts_of(
    alloc: Global,
    call: CommandLine<'_>,
    runs: &[LineRun],
) -> Result<Option<Vec<u32>>, AllocError>
    requires { 0 < call.parts }
    ensures { IfOk result (λ known. IfSome known
        (λ parts. ArePartsSaid (call_of_line call.entry) (lines_of_runs runs.now) parts.items)) }
{
    let mut parts = Vec::new(alloc);
    'runs: for run in runs {
        if run.control.is_some() {
            return Ok(None);
        }
        push_parts(call, &run.events, &mut parts)?;
    }
    Ok(Some(parts))
}

/// Tells the part of each line of bytes that is not blank, or none where one of them may be bad. It
/// reads all lines at once, which is faster than one by one.
pub(crate) fn known_parts<R: Threads + Sync>(
    rt: &R,
    alloc: Global,
    call: CommandLine<'_>,
    bytes: &[u8],
) -> Result<Option<Vec<u32>>, AllocError>
    requires { 0 < call.parts }
    ensures { IfOk result (λ known. IfSome known
        (λ parts. AreKnown (call_of_line call.entry) (input_lines bytes.now) parts.items)) }
{
    if bytes.len() > LONGEST {
        return Ok(None);
    }
    match read_lines(rt, alloc, bytes, 1) {
        Ok(lines) => parts_of(alloc, call, &lines.into_runs()),
        Err(LineError::Bad { .. }) => Ok(None),
        Err(LineError::Memory) => Err(AllocError),
    }
}

/// Tells the part of a line, the next of these parts, or none where the line is blank.
fn part_at(line: &[u8], parts: &[u32], at: usize) -> Option<u32>
    requires { is_blank_line line.now ≡ false → at < length parts.now }
    ensures next { MatchOption result (is_blank_line line.now ≡ true)
        (λ part. (is_blank_line line.now ≡ false) × (slice_get parts.now at ≡ Some part)) }
    ensures small { IfSome result (λ _. at + 1 < 2 ^ 64) }
{
    // The count fits 64 bits.
    let _count = parts.len();
    if is_blank_line(line) {
        return None;
    }
    Some(parts[at])
}

/// Tells which part is the next after this one, if it was taken.
fn next_at(part: Option<u32>, at: usize) -> usize
    requires { IfSome part (λ _. at + 1 < 2 ^ 64) }
    ensures { result ≡ at + option_map_or (λ _. 1) part 0 }
{
    match part {
        None => at,
        Some(_) => at + 1,
    }
}

/// Appends a line to its part, and where it comes from to the origins; a line without a part is left
/// out.
fn put_known<P: OutputFiles>(
    files: &mut P,
    pending: &mut Pending,
    call: CommandLine<'_>,
    part: Option<u32>,
    file: usize,
    number: u64,
    line: &[u8],
) -> Result<(), SplitFault>
    requires fits { Fits (call_of_line call) (P.written files.old) pending.old }
    requires within { IfSome part (λ n. n < call.parts) }
    requires most { call.parts ≤ 256 }
    requires few { file + 1 < 2 ^ 64 }
    ensures { (n : ℕ) → number ≡ counted n
        → part_said (call_of_line call.entry) (request_of line.now) ≡ Ok part
        → Splits (call_of_line call.entry)
        (record { file = file; number = n; bytes = line.now } ∷ []) result
        P.written P.faults files.old files.new pending.old pending.new }
{
    match part {
        None => Ok(()),
        Some(part) => put(files, pending, call, part, file, number, line),
    }
}

/// Splits lines whose parts are known, numbered from this one on, and returns the number of the next
/// line.
pub(crate) fn split_known<P: OutputFiles>(
    files: &mut P,
    pending: &mut Pending,
    call: CommandLine<'_>,
    file: usize,
    first: u64,
    lines: &[&[u8]],
    parts: &[u32],
) -> Result<u64, SplitFault>
    requires fits { Fits (call_of_line call) (P.written files.old) pending.old }
    requires some { 0 < call.parts }
    requires most { call.parts ≤ 256 }
    requires few { file + 1 < 2 ^ 64 }
    requires known { AreKnown (call_of_line call) (map (λ line. line.now) lines.now) parts.now }
    ensures next { (n : ℕ) → first ≡ counted n → IfOk result (λ next.
        next ≡ counted (n + length (map (λ line. line.now) lines.entry.now))) }
    ensures split { (n : ℕ) → first ≡ counted n
        → Splits (call_of_line call.entry)
        (lines_from file n (map (λ line. line.now) lines.entry.now)) result
        P.written P.faults files.old files.new pending.old pending.new }
{
    let mut number = first;
    let mut at = 0usize;
    'lines: for line in lines {
        let part = part_at(line, parts, at);
        put_known(files, pending, call, part, file, number, line)?;
        at = next_at(part, at);
        number = number.saturating_add(1);
    }
    Ok(number)
}
