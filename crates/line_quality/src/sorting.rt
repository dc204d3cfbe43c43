ghost use Rattle.std.specs.Prelude.{◌≡◌, ◌+◌, ◌<◌, ◌∷◌, [], ◌^◌, IfOk, OnOk, length, take};
ghost use Rattle.event_lines.specs.InputLines.{lines_said};
ghost use Rattle.line_quality.specs.BadLines.{Finds};
ghost use Rattle.line_quality.specs.Members.{member_at_fault};
ghost use Rattle.line_quality.specs.inner.FirstLines.{IsFirstLine};
ghost use Rattle.line_quality.specs.inner.Sorting.{IsClosed, SortsAll, SortsFirst};

use crate::BadLine;
use crate::findings::Findings;
use crate::first_line::{FirstLine, bytes_before, bytes_from};
use crate::line_start::line_start;
use crate::member_finding::find_member;
use event_lines::{LineError, Why, read_lines};
use std::alloc::{AllocError, Global};
use std::thread::Threads;

/// How many bad lines are kept.
const MOST_KEPT: usize = 100;

/// Where the bytes that are not sorted yet begin, and how many lines stand before them.
#[derive(Clone, Copy, Debug)]
pub(crate) struct Sorted {
    pub(crate) next: usize,
    pub(crate) lines: u32,
}

/// Notes a bad line: one of the first is kept, with the member that is at fault.
fn note_bad(
    alloc: Global,
    findings: &mut Findings,
    file: u32,
    line: u32,
    why: Why,
    bytes: &[u8],
) -> Result<(), AllocError>
    ensures { OnOk result (Finds findings.old findings.new
        (record { file = file; line = line; why = why; member = member_at_fault why bytes.now } ∷ [])) }
{
    findings.reasons.push(why)?;
    if findings.first.len() >= MOST_KEPT {
        return Ok(());
    }
    let member = find_member(alloc, bytes, why)?;
    findings.first.push(BadLine {
        file,
        line,
        why,
        member,
    })?;
    Ok(())
}

/// Where a bad line stands: its number among the lines of some bytes, from 1, and why it is bad.
#[derive(Clone, Copy, Debug)]
struct Fault {
    line: u32,
    why: Why,
}

/// Notes the bad line that begins these bytes, which has this number in its file, and tells where
/// the line after it begins.
fn note_first(
    alloc: Global,
    findings: &mut Findings,
    file: u32,
    line: u32,
    why: Why,
    bytes: &[u8],
) -> Result<FirstLine, AllocError>
    ensures { IfOk result (λ first. IsFirstLine bytes.now first
        × Finds findings.old findings.new (record {
          file = file;
          line = line;
          why = why;
          member = member_at_fault why (take first.end bytes.now);
        } ∷ [])) }
{
    let first = FirstLine::of(bytes);
    note_bad(
        alloc,
        findings,
        file,
        line,
        why,
        bytes_before(bytes, first.end),
    )?;
    Ok(first)
}

/// Sorts the lines up to this bad one: those before it come to the text.
fn sort_to_bad(
    alloc: Global,
    file: u32,
    number: u32,
    bytes: &[u8],
    fault: Fault,
    findings: &mut Findings,
    text: &mut Vec<u8>,
) -> Result<Sorted, AllocError>
    requires few { number + length bytes.now < 2 ^ 31 }
    requires closed { IsClosed text.old.items }
    requires bad { lines_said bytes.now ≡ Err (record { line = fault.line; why = fault.why }) }
    ensures { IfOk result (SortsFirst file number bytes.now text.old.items text.new.items
        findings.old findings.new) }
{
    let start = line_start(bytes, fault.line - 1);
    text.extend_from_slice(bytes_before(bytes, start))?;
    let rest = bytes_from(bytes, start);
    let first = note_first(alloc, findings, file, number + fault.line, fault.why, rest)?;
    Ok(Sorted {
        next: start + first.next,
        lines: fault.line,
    })
}

/// Sorts the first lines of bytes, which stand behind so many lines of the file: those before the
/// first bad one come to the text, which ends a line. The only error is out of memory.
fn sort_first<R: Threads + Sync>(
    rt: &R,
    alloc: Global,
    file: u32,
    number: u32,
    bytes: &[u8],
    findings: &mut Findings,
    text: &mut Vec<u8>,
) -> Result<Sorted, AllocError>
    requires few { number + length bytes.now < 2 ^ 31 }
    requires closed { IsClosed text.old.items }
    ensures { IfOk result (SortsFirst file number bytes.now text.old.items text.new.items
        findings.old findings.new) }
{
    match read_lines(rt, alloc, bytes, 1) {
        Ok(_lines) => {
            text.extend_from_slice(bytes)?;
            Ok(Sorted {
                next: bytes.len(),
                lines: 0,
            })
        }
        Err(LineError::Bad { line, why }) => {
            let fault = Fault { line, why };
            sort_to_bad(alloc, file, number, bytes, fault, findings, text)
        }
        Err(LineError::Memory) => Err(AllocError),
    }
}

/// Sorts the lines of the bytes of the file with this index: notes the bad ones, and gives a text of
/// the others, in their order. The only error is out of memory.
pub(crate) fn sort_lines<R: Threads + Sync>(
    rt: &R,
    alloc: Global,
    file: u32,
    bytes: &[u8],
    findings: &mut Findings,
) -> Result<Vec<u8>, AllocError>
    requires { length bytes.now < 2 ^ 31 }
    ensures { IfOk result (λ text. SortsAll file bytes.now text.items findings.old findings.new) }
{
    let mut text = Vec::new(alloc);
    let mut at = 0usize;
    let mut number = 0u32;
    'bad: while at < bytes.len() {
        let rest = bytes_from(bytes, at);
        let sorted = sort_first(rt, alloc, file, number, rest, findings, &mut text)?;
        at += sorted.next;
        number += sorted.lines;
    }
    Ok(text)
}
