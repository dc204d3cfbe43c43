ghost use Rattle.std.specs.Prelude.{◌≡◌, ◌+◌, ◌*◌};
ghost use Rattle.span_text.specs.SpanTimes.{times_of, micro_times_of};
ghost use Rattle.span_text.specs.Outcomes.{Gives};

use crate::{ReadError, Why};
use trace_types::{LATEST_TIME, LATEST_TIME_IN_MICROSECONDS};

/// Takes the start and the end of a span, in nanoseconds.
pub fn times(start: u64, end: u64) -> Result<(u64, u64), ReadError>
    ensures { Gives (λ t. t) result (times_of start end) }
{
    if end < start {
        return Err(ReadError::Refused(Why::EndBeforeStart));
    }
    if end > LATEST_TIME {
        return Err(ReadError::Refused(Why::TimeOutOfRange));
    }
    Ok((start, end))
}

/// Takes the start and the end of a span, in nanoseconds, by its start and its duration in
/// microseconds.
pub fn micro_times(start: u64, duration: u64) -> Result<(u64, u64), ReadError>
    ensures { Gives (λ t. t) result (micro_times_of start duration) }
{
    if start > LATEST_TIME_IN_MICROSECONDS || duration > LATEST_TIME_IN_MICROSECONDS - start {
        return Err(ReadError::Refused(Why::TimeOutOfRange));
    }
    Ok((start * 1000, (start + duration) * 1000))
}
