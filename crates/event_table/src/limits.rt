ghost use Rattle.std.specs.Prelude.{◌↔◌, ◌^◌, ◌<◌, All, IsTrue, length};
ghost use Rattle.trace_types.specs.Batch.{PlainTrace};
ghost use Rattle.trace_types.specs.Times.{AreTimely};
ghost use Rattle.event_table.specs.Gathered.{events_of_tables};

use crate::{EventTable, GatheredEvents, RawEvents};
use trace_types::LATEST_TIME;

/// Tells whether these parts have fewer than 2^32 events together, as gathering requires.
pub fn are_few(parts: &[EventTable]) -> bool
    ensures { IsTrue result ↔ (length (events_of_tables parts.now) < 2 ^ 32) }
{
    let mut count = 0u64;
    for part in parts {
        if part.len() as u64 >= (1 << 32) - count {
            return false;
        }
        count += part.len() as u64;
    }
    true
}

impl RawEvents<'_> {
    /// Tells whether no event is later than `trace_types::LATEST_TIME`, as cutting requires.
    pub fn is_timely(&self) -> bool
        ensures { IsTrue result ↔ AreTimely self.now.trace.events }
    {
        for at in 0..self.len() {
            if self.time(at) > LATEST_TIME {
                return false;
            }
        }
        true
    }
}

impl GatheredEvents {
    /// Tells whether no event is later than `trace_types::LATEST_TIME`, as cutting requires.
    pub fn is_timely(&self) -> bool
        ensures { IsTrue result ↔ All (λ (t : PlainTrace). AreTimely t.events) self.now.traces }
    {
        for index in 0..self.len() {
            if !self.trace(index).is_timely() {
                return false;
            }
        }
        true
    }

    /// Tells whether each trace has fewer than 2^32 events, as cutting requires.
    pub fn is_short(&self) -> bool
        ensures { IsTrue result
            ↔ All (λ (t : PlainTrace). length t.events < 2 ^ 32) self.now.traces }
    {
        for index in 0..self.len() {
            if self.trace(index).len() as u64 >= 1 << 32 {
                return false;
            }
        }
        true
    }
}
