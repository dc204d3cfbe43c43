ghost use Rattle.std.specs.Prelude.{◌≡◌, ◌<◌, length, Some, slice_get, option_copied};
ghost use Rattle.trace_types.specs.Events.{line_at, machine_at, event_name_at, task_at, time_at};
ghost use Rattle.event_table.specs.Gathered.{receipt_at, send_at};
ghost use Rattle.event_table.specs.Numbers.{event_under};
ghost use Rattle.event_table.specs.inner.Tables.{AreWithin};
ghost use Rattle.event_table.specs.declared.event_numbers.EventNumbers.{EventNumbers};

use crate::Texts;
use crate::event_numbers::EventNumbers;
use crate::messages::Messages;
use std::marker::Model;
use trace_types::Text;

/// The trace of one request, borrowed from a gathered batch: its events, at least one, as numbers
/// of the batch's texts. Seen as these texts and the trace.
#[derive(Drop)]
pub struct RawEvents<'a> {
    pub(crate) texts: &'a Texts,
    pub(crate) messages: &'a Messages,
    pub(crate) events: &'a [EventNumbers],
}

impl<'a> Model for RawEvents<'a> {
    ghost use Rattle.std.specs.Prelude.{◌<◌, All, length};
    ghost use Rattle.event_table.specs.Gathered.{NumberedTrace, trace_under};
    ghost use Rattle.event_table.specs.inner.Tables.{AreWithin};

    ghost Value = { NumberedTrace };

    ghost view = { λ r. record {
      texts = r.texts.now;
      trace = trace_under r.texts.now r.messages.now r.events.now;
    } };

    ghost invariant = { λ r. (0 < length r.events.now)
        × All (AreWithin r.texts.now r.messages.now) r.events.now };
}

/// Lends the event at an index.
fn event_at(events: &[EventNumbers], at: usize) -> &EventNumbers
    requires { at < length events.now }
    ensures { slice_get events.now at ≡ Some result.now }
{
    &events[at]
}

impl<'a> RawEvents<'a> {
    /// Lends the texts that the numbers are of.
    pub fn texts(&self) -> &'a Texts
        ensures { result.now ≡ self.now.texts }
    {
        self.texts
    }

    /// Lends the request.
    pub fn request(&self) -> &'a Text
        ensures { result.now ≡ self.now.trace.request }
    {
        self.texts.requests().text(event_at(self.events, 0).request)
    }

    /// Gives the number of the request.
    pub fn request_number(&self) -> u32
        ensures { slice_get self.now.texts.requests result ≡ Some self.now.trace.request }
    {
        event_at(self.events, 0).request
    }

    /// Counts the events: at least one.
    pub fn len(&self) -> usize
        ensures events { result ≡ length self.now.trace.events }
        ensures some { 0 < result }
    {
        self.events.len()
    }

    /// Gives the number of the line of the event at this index, from 1 over the whole input.
    pub fn line(&self, at: usize) -> u32
        requires { at < length self.now.trace.events }
        ensures { result ≡ line_at self.now.trace.events at }
    {
        event_at(self.events, at).line
    }

    /// Gives the time of the event at this index, in nanoseconds since 1970 by its machine's clock.
    pub fn time(&self, at: usize) -> u64
        requires { at < length self.now.trace.events }
        ensures { result ≡ time_at self.now.trace.events at }
    {
        event_at(self.events, at).time
    }

    /// Gives the number of the machine of the event at this index.
    pub fn machine(&self, at: usize) -> u32
        requires { at < length self.now.trace.events }
        ensures { slice_get self.now.texts.machines result
            ≡ Some (machine_at self.now.trace.events at) }
    {
        event_at(self.events, at).machine
    }

    /// Gives the number of the task of the event at this index.
    pub fn task(&self, at: usize) -> u32
        requires { at < length self.now.trace.events }
        ensures { slice_get self.now.texts.tasks result ≡ Some (task_at self.now.trace.events at) }
    {
        event_at(self.events, at).task
    }

    /// Gives the number of the name of the event at this index.
    pub fn event(&self, at: usize) -> u32
        requires { at < length self.now.trace.events }
        ensures { slice_get self.now.texts.names result ≡ Some (event_name_at self.now.trace.events at) }
    {
        event_at(self.events, at).event
    }

    /// Lends the bytes of the message that the event at this index sends, if it sends one.
    pub fn send(&self, at: usize) -> Option<&'a [u8]>
        requires { at < length self.now.trace.events }
        ensures { option_copied result ≡ send_at self.now.trace.events at }
    {
        self.messages
            .sends()
            .message(event_at(self.events, at).send)
    }

    /// Lends the bytes of the message that the event at this index receives, if it receives one.
    pub fn recv(&self, at: usize) -> Option<&'a [u8]>
        requires { at < length self.now.trace.events }
        ensures { option_copied result ≡ receipt_at self.now.trace.events at }
    {
        self.messages
            .receipts()
            .message(event_at(self.events, at).recv)
    }
}
