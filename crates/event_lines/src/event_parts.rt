ghost use Rattle.std.specs.Prelude.{◌≡◌, [], ◌++◌, OnErr, OnOk};
ghost use Rattle.event_table.specs.Gathered.{events_of_tables};

use event_table::EventTable;
use std::alloc::{AllocError, Global};
use std::marker::Model;

/// Events in several tables, one after another, seen as one list.
#[derive(Debug, Drop)]
pub struct EventParts {
    parts: Vec<EventTable>,
}

impl Model for EventParts {
    ghost use Rattle.std.specs.Prelude.{List};
    ghost use Rattle.trace_types.specs.declared.event.Event.{Event};
    ghost use Rattle.event_table.specs.Gathered.{events_of_tables};

    ghost Value = { List Event };

    ghost view = { λ a. events_of_tables a.parts.items };
}

impl EventParts {
    /// Makes an empty list. Takes no memory.
    pub fn new(alloc: Global) -> EventParts
        ensures { result ≡ [] }
    {
        EventParts {
            parts: Vec::new(alloc),
        }
    }

    /// Appends events; none of them is moved. The only error is out of memory; the list is then as it
    /// was.
    pub fn push_part(&mut self, events: EventTable) -> Result<(), AllocError>
        ensures ok { OnOk result (self.new ≡ self.old ++ events) }
        ensures unchanged { OnErr result (self.new ≡ self.old) }
    {
        if events.is_empty() {
            return Ok(());
        }
        Ok(self.parts.push(events)?)
    }

    /// Gives the tables, in order. Takes no memory.
    pub fn into_parts(self) -> Vec<EventTable>
        ensures { events_of_tables result.items ≡ self }
    {
        self.parts
    }
}
