ghost use Rattle.std.specs.Prelude.{◌≡◌, ◌+◌, ◌≤◌, ◌<◌, ◌^◌, length, vec_len, IfErr, IfOk};
ghost use Rattle.std.specs.Prelude.{IfSome, IsTrue, Ok, option_copied};
ghost use Rattle.word_rows.specs.Machine.{HaveRows};
ghost use Rattle.step_core.specs.StepFiles.{file_said, steps_of_lines, IsStepLineError};
ghost use Rattle.step_core.specs.StepLines.{is_start};
ghost use Rattle.step_core.specs.LinesLeft.{lines_left, room_left};

use crate::numbered_lines::next_line;
use crate::step_lines::{read_start, read_step};
use crate::{StepEventList, StepFile, StepLineError};
use std::alloc::Global;
use word_rows::StepEvent;

/// Reads the steps of the lines that are left, of which the first has this number.
fn read_events(
    alloc: Global,
    number: u32,
    rest: Option<&[u8]>,
) -> Result<Vec<StepEvent>, StepLineError>
    requires { number + room_left (option_copied rest) < 2 ^ 32 }
    ensures read { IfOk result (λ events.
        steps_of_lines (lines_left number (option_copied rest.entry)) ≡ Ok events.items) }
    ensures bad { IfErr result
        (IsStepLineError (steps_of_lines (lines_left number (option_copied rest.entry)))) }
    ensures few { IfOk result (λ events. vec_len events ≤ room_left (option_copied rest.entry)) }
{
    let mut events = Vec::new(alloc);
    let mut number = number;
    let mut left = rest;
    'lines: while let Some(next) = next_line(number, left) {
        let Some(event) = read_step(alloc, next.line)? else {
            return Err(StepLineError::Bad { line: next.number });
        };
        events.push(event)?;
        number = next.number + 1;
        left = next.rest;
    }
    Ok(events)
}

/// Reads a file of steps: the first line that is not blank opens the machine, and each other one is
/// a step.
///
/// A file has fewer than 2^32 - 2 bytes, so that the number of each line fits 32 bits.
///
/// The errors are `Memory`, and `Bad` with the number of the first line outside the form.
pub fn read_steps(alloc: Global, bytes: &[u8]) -> Result<StepFile, StepLineError>
    requires { length bytes.now + 1 < u32.MAX }
    ensures read { IfOk result (λ file. file_said bytes.now ≡ Ok file) }
    ensures first_bad { IfErr result (IsStepLineError (file_said bytes.now)) }
    ensures start { IfOk result (λ file. IfSome file.start (λ start. IsTrue (is_start start))) }
    ensures rows { IfOk result (λ file. HaveRows file.events) }
    ensures few { IfOk result (λ file. length file.events ≤ length bytes.now) }
{
    let Some(first) = next_line(1, Some(bytes)) else {
        return Ok(StepFile {
            start: None,
            events: StepEventList::of(Vec::new(alloc)),
        });
    };
    let Some(start) = read_start(first.line) else {
        return Err(StepLineError::Bad { line: first.number });
    };
    let events = read_events(alloc, first.number + 1, first.rest)?;
    Ok(StepFile {
        start: Some(start),
        events: StepEventList::of(events),
    })
}
