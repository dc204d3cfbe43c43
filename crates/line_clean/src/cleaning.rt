ghost use Rattle.std.specs.Prelude.{◌≡◌, ◌<◌, ◌≤◌, ◌+◌, ◌++◌, [], IfOk, OnOk, drop, length};
ghost use Rattle.std.specs.Prelude.{if◌then◌else◌};
ghost use Rattle.event_lines.specs.Cut.{input_lines, is_blank_line};
ghost use Rattle.mystery_io.specs.Input.{input_limit};
ghost use Rattle.line_clean.specs.Lines.{clean_text, line_row};
ghost use Rattle.line_clean.specs.inner.Judging.{IsFirstBad};

use crate::first_line::FirstLine;
use crate::judging::first_bad;
use event_lines::is_blank_line;
use std::alloc::{AllocError, Global};
use std::thread::Threads;

/// Appends a line that is good or blank: a blank one is left out.
fn push_line(line: &[u8], text: &mut Vec<u8>) -> Result<(), AllocError>
    ensures { OnOk result (text.new.items ≡ text.old.items
        ++ (if is_blank_line line.now then [] else line_row line.now)) }
{
    if is_blank_line(line) {
        return Ok(());
    }
    text.extend_from_slice(line)?;
    text.push(b'\n')?;
    Ok(())
}

/// Appends the good ones of the lines before the first bad one, which has this number, and tells
/// where the line after that begins, or the end.
fn push_lines(bytes: &[u8], bad: u32, text: &mut Vec<u8>) -> Result<usize, AllocError>
    requires { IsFirstBad 1 bad (input_lines bytes.now) }
    ensures within { IfOk result (λ next. next ≤ length bytes.now) }
    ensures some { IfOk result (λ next. 0 < length bytes.now → 0 < next) }
    ensures text { IfOk result (λ next. text.old.items ++ clean_text (input_lines bytes.now)
        ≡ text.new.items ++ clean_text (input_lines (drop next bytes.now))) }
{
    let mut at = 0usize;
    let mut number = 1u32;
    'lines: while at < bytes.len() && number < bad {
        let line = FirstLine::of(&bytes[at..]);
        push_line(&bytes[at..at + line.end], text)?;
        at += line.next;
        number += 1;
    }
    if at < bytes.len() {
        at += FirstLine::of(&bytes[at..]).next;
    }
    Ok(at)
}

/// Appends the good ones of the first lines, up to a bad one, and tells where the line after that
/// begins, or the end.
fn clean_first<R: Threads + Sync>(
    rt: &R,
    alloc: Global,
    bytes: &[u8],
    text: &mut Vec<u8>,
) -> Result<usize, AllocError>
    requires { length bytes.now ≤ input_limit }
    ensures within { IfOk result (λ next. next ≤ length bytes.now) }
    ensures some { IfOk result (λ next. 0 < length bytes.now → 0 < next) }
    ensures text { IfOk result (λ next. text.old.items ++ clean_text (input_lines bytes.now)
        ≡ text.new.items ++ clean_text (input_lines (drop next bytes.now))) }
{
    let bad = first_bad(rt, alloc, bytes)?;
    push_lines(bytes, bad, text)
}

/// Appends the good ones of the lines of bytes. Each line is read once.
pub(crate) fn clean_lines<R: Threads + Sync>(
    rt: &R,
    alloc: Global,
    bytes: &[u8],
    text: &mut Vec<u8>,
) -> Result<(), AllocError>
    requires { length bytes.now ≤ input_limit }
    ensures { OnOk result
        (text.new.items ≡ text.old.items ++ clean_text (input_lines bytes.now)) }
{
    let mut at = 0usize;
    'bad: while at < bytes.len() {
        at += clean_first(rt, alloc, &bytes[at..], text)?;
    }
    Ok(())
}
