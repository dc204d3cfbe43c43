ghost use Rattle.std.specs.Prelude.{◌≡◌, ◌<◌, ◌∷◌, [], IfOk, IfSome};
ghost use Rattle.event_lines.specs.Cut.{input_lines};
ghost use Rattle.event_lines.specs.LineParts.{lines_of_runs};
ghost use Rattle.line_split.specs.Lines.{request_of};
ghost use Rattle.line_split.specs.inner.Calls.{call_of_line};
ghost use Rattle.line_split.specs.inner.Steps.{part_said};
ghost use Rattle.line_split.specs.inner.Said.{first_said};

use crate::Reason;
use crate::command_line::CommandLine;
use crate::part::part_of;
use event_lines::{LineError, LineRun, read_lines};
use std::alloc::{AllocError, Global};
use std::thread::Threads;

/// The most bytes that a line may have.
pub(crate) const LONGEST: usize = 67_108_864;

/// Tells the part of the first line of these runs.
fn part_in(call: CommandLine<'_>, runs: &[LineRun]) -> Result<Option<u32>, Reason>
    requires { 0 < call.parts }
    ensures part { result ≡ part_said (call_of_line call.entry) (first_said (lines_of_runs runs.now)) }
    ensures within { IfOk result (λ part. IfSome part (λ n. n < call.entry.parts)) }
{
    'runs: for run in runs {
        if !run.events.is_empty() {
            let event = run.events.event(0);
            return Ok(Some(part_of(call, event.request.as_str())));
        }
        if run.control.is_some() {
            return Err(Reason::Control);
        }
    }
    Ok(None)
}

/// Tells in which part a line stands: in none where it is blank; or why it is bad. The only error is
/// out of memory.
pub(crate) fn judge<R: Threads + Sync>(
    rt: &R,
    alloc: Global,
    call: CommandLine<'_>,
    line: &[u8],
) -> Result<Result<Option<u32>, Reason>, AllocError>
    requires some { 0 < call.parts }
    requires one { input_lines line.now ≡ line.now ∷ [] }
    ensures part { IfOk result
        (λ judged. judged ≡ part_said (call_of_line call.entry) (request_of line.now)) }
    ensures within { IfOk result
        (λ judged. IfOk judged (λ part. IfSome part (λ n. n < call.entry.parts))) }
{
    if line.len() > LONGEST {
        return Ok(Err(Reason::TooLong));
    }
    match read_lines(rt, alloc, line, 1) {
        Ok(lines) => Ok(part_in(call, &lines.into_runs())),
        Err(LineError::Bad { why, .. }) => Ok(Err(Reason::Line { why })),
        Err(LineError::Memory) => Err(AllocError),
    }
}
