ghost use Rattle.std.specs.Prelude.{◌≡◌, ◌<◌, length, Some, slice_get};
ghost use Rattle.event_table.specs.LentEvents.{event_lent};
ghost use Rattle.event_table.specs.Numbers.{event_under};
ghost use Rattle.event_table.specs.inner.Tables.{AreWithin};

use crate::event_numbers::EventNumbers;
use crate::messages::Messages;
use crate::{EventTable, Texts};
use std::fmt;
use trace_types::Text;

/// An event of a table, borrowed: its texts, and the bytes of its messages.
#[derive(Debug, Drop)]
pub struct LentEvent<'a> {
    /// The number of its line, from 1 over the whole input.
    pub line: u32,
    /// The request that it belongs to.
    pub request: &'a Text,
    /// The machine that logged it.
    pub machine: &'a Text,
    /// The task.
    pub task: &'a Text,
    /// The name of the event.
    pub event: &'a Text,
    /// When it was logged, in nanoseconds since 1970 by the machine's own clock.
    pub time: u64,
    /// The message that was sent at this event.
    pub send: Option<&'a [u8]>,
    /// The message that was received at this event.
    pub recv: Option<&'a [u8]>,
}

/// Lends the event with these numbers.
fn lend_event<'a>(texts: &'a Texts, messages: &'a Messages, numbers: &EventNumbers) -> LentEvent<'a>
    requires { AreWithin texts.now messages.now numbers.now }
    ensures { event_lent result ≡ event_under texts.now messages.now numbers.now }
{
    LentEvent {
        line: numbers.line,
        request: texts.requests().text(numbers.request),
        machine: texts.machines().text(numbers.machine),
        task: texts.tasks().text(numbers.task),
        event: texts.names().text(numbers.event),
        time: numbers.time,
        send: messages.sends().message(numbers.send),
        recv: messages.receipts().message(numbers.recv),
    }
}

impl EventTable {
    /// Lends the event at this index.
    pub fn event(&self, index: usize) -> LentEvent<'_>
        requires { index < length self.now }
        ensures { slice_get self.now index ≡ Some (event_lent result) }
    {
        lend_event(&self.texts, &self.messages, &self.events[index])
    }
}

impl fmt::Debug for EventTable {
    /// Prints the number of the events.
    fn fmt<W: fmt::Write>(&self, f: &mut fmt::Formatter<W>) -> fmt::Result {
        f.debug_struct("EventTable")
            .field("len", &self.len())
            .finish()
    }
}
