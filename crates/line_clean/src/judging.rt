ghost use Rattle.std.specs.Prelude.{◌≡◌, ◌≤◌, ◌<◌, length, IfOk};
ghost use Rattle.event_lines.specs.Cut.{input_lines};
ghost use Rattle.mystery_io.specs.Input.{input_limit};
ghost use Rattle.line_clean.specs.inner.Judging.{IsFirstBad};

use event_lines::{LineError, read_lines};
use std::alloc::{AllocError, Global};
use std::thread::Threads;

/// Finds the number of the first bad line, from 1; where no line is bad it is greater than that of
/// each line. Lines after it are not looked at. The only error is out of memory.
pub(crate) fn first_bad<R: Threads + Sync>(
    rt: &R,
    alloc: Global,
    bytes: &[u8],
) -> Result<u32, AllocError>
    requires { length bytes.now ≤ input_limit }
    ensures { IfOk result (λ bad. IsFirstBad 1 bad (input_lines bytes.now)) }
{
    match read_lines(rt, alloc, bytes, 1) {
        Ok(_lines) => Ok(u32::MAX),
        Err(LineError::Bad { line, .. }) => Ok(line),
        Err(LineError::Memory) => Err(AllocError),
    }
}
