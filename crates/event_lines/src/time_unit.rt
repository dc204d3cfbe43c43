ghost use Rattle.std.specs.Prelude.{◌≡◌, codes};
ghost use Rattle.serde_json.specs.View.{view};
ghost use Rattle.event_lines.specs.Members.{is_given};
ghost use Rattle.event_lines.specs.TimeUnits.{time_unit_of, time_member, latest_in, nanoseconds_in};

use serde_json::Value;
use trace_types::{LATEST_TIME, LATEST_TIME_IN_MICROSECONDS};

/// The unit in which an event line states its time, since 1970.
#[derive(Clone, Copy)]
pub(crate) enum TimeUnit {
    /// The number of `time`.
    Microseconds,
    /// The number of `nanos`.
    Nanoseconds,
}

/// Tells whether the object has the member, and its value is not null.
fn is_given(value: &Value, name: &str) -> bool
    ensures { result ≡ is_given name.now (view value.now) }
{
    match value.get(name) {
        Some(member) => !member.is_null(),
        None => false,
    }
}

impl TimeUnit {
    /// Finds the unit of an event line.
    pub(crate) fn of(value: &Value) -> TimeUnit
        ensures { result ≡ time_unit_of (view value.now) }
    {
        if is_given(value, "nanos") {
            TimeUnit::Nanoseconds
        } else {
            TimeUnit::Microseconds
        }
    }

    /// Gives the name of the member that has the number.
    pub(crate) fn member(self) -> &'static str
        ensures { result.now ≡ time_member self }
    {
        match self {
            TimeUnit::Microseconds => "time",
            TimeUnit::Nanoseconds => "nanos",
        }
    }

    /// Gives the latest time in this unit.
    pub(crate) fn latest(self) -> u64
        ensures { result ≡ latest_in self }
    {
        match self {
            TimeUnit::Microseconds => LATEST_TIME_IN_MICROSECONDS,
            TimeUnit::Nanoseconds => LATEST_TIME,
        }
    }

    /// Gives the unit's length in nanoseconds.
    pub(crate) fn nanoseconds(self) -> u64
        ensures { result ≡ nanoseconds_in self }
    {
        match self {
            TimeUnit::Microseconds => 1000,
            TimeUnit::Nanoseconds => 1,
        }
    }
}
