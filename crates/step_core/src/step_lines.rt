ghost use Rattle.std.specs.Prelude.{◌≡◌, IfOk};
ghost use Rattle.step_core.specs.StepLines.{clear_of, one_number, start_said};
ghost use Rattle.step_core.specs.StepLines.{step_said, two_numbers, line_words};
ghost use Rattle.step_core.specs.inner.StepNumbers.{step_of_numbers};

use crate::Start;
use crate::cutting::first_part;
use crate::numbers::plain_number;
use crate::rows::read_row;
use std::alloc::{AllocError, Global};
use word_rows::StepEvent;

/// The greatest number of words of a machine that a file opens.
const MAX_WIDTH: u32 = 8302;

/// Reads one number; none where the words are not just that.
fn one_number(words: &[u8]) -> Option<u32>
    ensures { result ≡ one_number (line_words words.now) }
{
    let part = first_part(words, b' ');
    if part.rest.is_some() {
        return None;
    }
    plain_number(part.first)
}

/// Reads two numbers; none where the words are not just these.
fn two_numbers(words: &[u8]) -> Option<(u32, u32)>
    ensures { result ≡ two_numbers (line_words words.now) }
{
    let part = first_part(words, b' ');
    let second = first_part(part.rest?, b' ');
    if second.rest.is_some() {
        return None;
    }
    let first = plain_number(part.first)?;
    let second = plain_number(second.first)?;
    Some((first, second))
}

/// Reads the words after `clear`: a seat and a row.
fn read_clear(alloc: Global, words: &[u8]) -> Result<Option<StepEvent>, AllocError>
    ensures { IfOk result (λ event. event ≡ clear_of (line_words words.now)) }
{
    let part = first_part(words, b' ');
    let Some(seat) = plain_number(part.first) else {
        return Ok(None);
    };
    let Some(entries) = part.rest else {
        return Ok(None);
    };
    match read_row(alloc, entries)? {
        Some(row) => Ok(Some(StepEvent::Clear { seat, row })),
        None => Ok(None),
    }
}

/// Reads the words after the name of a step that has no row.
fn read_numbers(name: &[u8], words: &[u8]) -> Option<StepEvent>
    ensures { result ≡ step_of_numbers name.now (line_words words.now) }
{
    if name == b"load".as_slice() {
        let (seat, word) = two_numbers(words)?;
        Some(StepEvent::Load { seat, word })
    } else if name == b"split".as_slice() {
        let (seat, shares) = two_numbers(words)?;
        Some(StepEvent::Split { seat, shares })
    } else if name == b"join".as_slice() {
        let (seat, other) = two_numbers(words)?;
        Some(StepEvent::Join { seat, other })
    } else if name == b"close".as_slice() {
        let seat = one_number(words)?;
        Some(StepEvent::Close { seat })
    } else {
        None
    }
}

/// Reads the step that a line says; none where it has another form. The only error is that memory
/// ran out.
pub(crate) fn read_step(alloc: Global, line: &[u8]) -> Result<Option<StepEvent>, AllocError>
    ensures { IfOk result (λ event. event ≡ step_said line.now) }
{
    let part = first_part(line, b' ');
    let Some(words) = part.rest else {
        return Ok(None);
    };
    if part.first == b"clear".as_slice() {
        read_clear(alloc, words)
    } else {
        Ok(read_numbers(part.first, words))
    }
}

/// Reads the start that a line says, `open WIDTH SHARES`; none where it has another form.
pub(crate) fn read_start(line: &[u8]) -> Option<Start>
    ensures { result ≡ start_said line.now }
{
    let part = first_part(line, b' ');
    let words = part.rest?;
    if part.first != b"open".as_slice() {
        return None;
    }
    let (width, shares) = two_numbers(words)?;
    if 1 <= width && width <= MAX_WIDTH && shares != 0 {
        Some(Start { width, shares })
    } else {
        None
    }
}
