ghost use Rattle.std.specs.Prelude.{◌≡◌, ◌≤◌, ◌++◌, length, OnOk, IfOk};
ghost use Rattle.std.specs.List.{flat_map};
ghost use Rattle.drill_input.specs.DrillInput.{drill_input, line_of, lines_of, trace_start};

use crate::draw_sequence::DrawSequence;
use crate::line_bytes::put_line;
use crate::trace_draws::TraceDraws;
use crate::trace_line::TraceLine;
use crate::trace_lines::{start_time, trace_lines};
use std::alloc::{AllocError, Global};

/// Appends the lines of these events of the trace with this index. The only error is an allocation
/// failure, after which the bytes may end in the middle of a line.
fn put_lines(bytes: &mut Vec<u8>, index: u32, lines: &[TraceLine]) -> Result<(), AllocError>
    ensures { OnOk result (bytes.new.items ≡ bytes.old.items
        ++ flat_map (line_of index) lines.now) }
{
    for line in lines {
        put_line(bytes, index, line)?;
    }
    Ok(())
}

/// Appends the lines of the trace with this index, by its draws.
fn put_trace(bytes: &mut Vec<u8>, index: u32, draws: TraceDraws) -> Result<(), AllocError>
    ensures { OnOk result (bytes.new.items ≡ bytes.old.items ++ flat_map (line_of index)
        (lines_of (trace_start index) draws.d1 draws.d2 draws.d3 draws.d4 draws.d5)) }
{
    let lines = trace_lines(start_time(index), draws);
    put_lines(bytes, index, &lines)
}

/// Makes the input of this many traces, at most 20,000, by draws from a number: eleven lines a
/// trace, the lines of a trace together, with times in microseconds. The only error is an
/// allocation failure.
pub fn generate(alloc: Global, number: u32, traces: u32) -> Result<Vec<u8>, AllocError>
    requires { traces ≤ 20000 }
    ensures input { IfOk result (λ bytes. bytes.items ≡ drill_input number traces) }
    ensures short { IfOk result (λ bytes. length bytes.items ≤ 67108864) }
{
    let mut bytes = Vec::new(alloc);
    let mut sequence = DrawSequence::new(number);
    for index in 0..traces {
        put_trace(&mut bytes, index, sequence.draw_trace())?;
    }
    Ok(bytes)
}
