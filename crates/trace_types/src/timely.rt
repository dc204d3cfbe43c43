ghost use Rattle.std.specs.Prelude.{◌↔◌, IsTrue};
ghost use Rattle.trace_types.specs.Times.{AreTimely};

use crate::{Event, LATEST_TIME};

/// Tells whether no event is later than `LATEST_TIME`, as a batch of events requires.
pub fn are_timely(events: &[Event]) -> bool
    ensures { IsTrue result ↔ AreTimely events.now }
{
    events.iter().all(|event| event.time <= LATEST_TIME)
}
