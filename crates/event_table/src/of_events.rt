ghost use Rattle.std.specs.Prelude.{◌≡◌, ◌<◌, length, option_map, IfOk};
ghost use Rattle.event_table.specs.Numbers.{event_of};

use crate::{EventFields, EventTable, TextHints};
use std::alloc::{AllocError, Global};
use trace_types::{Event, Text};

/// Lends the text of a message, if there is one.
fn message_of(text: &Option<Text>) -> Option<&str>
    ensures { option_map (λ s. s.now) result ≡ text.now }
{
    match text {
        Some(text) => Some(text.as_str()),
        None => None,
    }
}

/// Lends the fields of an event.
fn fields_of(event: &Event) -> EventFields<'_>
    ensures { event_of event.now.line result ≡ event.now }
{
    EventFields {
        request: event.request.as_str(),
        machine: event.machine.as_str(),
        task: event.task.as_str(),
        event: event.event.as_str(),
        time: event.time,
        send: message_of(&event.send),
        recv: message_of(&event.recv),
    }
}

impl EventTable {
    /// Makes a table of these events. The only error is out of memory.
    pub fn of_events(alloc: Global, events: &[Event]) -> Result<EventTable, AllocError>
        requires { length events.now < u32.MAX }
        ensures { IfOk result (λ table. table ≡ events.now) }
    {
        let mut hints = TextHints::new(alloc)?;
        let mut table = EventTable::new(alloc);
        for event in events {
            table.push(alloc, &mut hints, event.line, &fields_of(event))?;
        }
        Ok(table)
    }
}
