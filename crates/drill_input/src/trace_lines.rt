ghost use Rattle.std.specs.Prelude.{◌≡◌, ◌<◌, ◌^◌};
ghost use Rattle.drill_input.specs.DrillInput.{lines_of, trace_start};

use crate::trace_draws::TraceDraws;
use crate::trace_line::Message::{Absent, Received, Sent};
use crate::trace_line::TraceLine;

/// Returns when the trace with this index starts, in microseconds.
pub(crate) fn start_time(index: u32) -> u64
    ensures value { result ≡ trace_start index }
    ensures small { result < 2 ^ 63 }
{
    (19_800 + u64::from(index / 1_000)) * 86_400_000_000 + u64::from(index % 1_000) * 1_000_000
}

/// Makes the events of a trace that starts at this time, by its draws.
pub(crate) fn trace_lines(start: u64, draws: TraceDraws) -> [TraceLine; 11]
    requires { start < 2 ^ 63 }
    ensures { result ≡ lines_of start draws.d1 draws.d2 draws.d3 draws.d4 draws.d5 }
{
    let sent = start + u64::from(draws.d1);
    let built = sent + u64::from(draws.d2);
    let db_end = built + u64::from(draws.d3);
    let ads_end = built + u64::from(draws.d4);
    let replied = built + u64::from(draws.d3.max(draws.d4));
    let done = replied + u64::from(draws.d5);
    [
        TraceLine::new("c", "client", "start", start, Absent),
        TraceLine::new("c", "client", "sent", sent, Sent("q")),
        TraceLine::new("w", "web", "got", sent + 105, Received("q")),
        TraceLine::new("w", "web", "built", built + 105, Absent),
        TraceLine::new("w", "db", "begin@page", built + 105, Absent),
        TraceLine::new("w", "db", "end", db_end + 105, Absent),
        TraceLine::new("w", "ads", "begin@page", built + 105, Absent),
        TraceLine::new("w", "ads", "end", ads_end + 105, Absent),
        TraceLine::new("w", "web", "replied", replied + 105, Sent("p")),
        TraceLine::new("c", "render", "shown@page", replied + 10, Received("p")),
        TraceLine::new("c", "render", "done", done + 10, Absent),
    ]
}
