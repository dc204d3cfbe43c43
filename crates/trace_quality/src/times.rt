ghost use Rattle.trace_quality.specs.Times.{AreTimes};

use event_table::RawEvents;

/// The least and the greatest time of events, each by its own machine's clock, in nanoseconds since
/// 1970.
#[derive(Clone, Copy, Debug, PartialEq, Eq)]
pub struct Times {
    /// The least.
    pub least: u64,
    /// The greatest.
    pub greatest: u64,
}

/// Finds the least and the greatest time of a trace.
pub(crate) fn find_times(raw: &RawEvents<'_>) -> Times
    ensures { AreTimes raw.now.trace.events result }
{
    let count = raw.len();
    let mut least = raw.time(0);
    let mut greatest = least;
    'events: for at in 1..count {
        let time = raw.time(at);
        if time < least {
            least = time;
        } else if time > greatest {
            greatest = time;
        }
    }
    Times { least, greatest }
}
