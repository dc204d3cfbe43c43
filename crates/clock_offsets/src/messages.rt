ghost use Rattle.std.specs.Prelude.{◌≡◌, ◌<◌, pos, ◌-ℤ◌, MatchOption, length};
ghost use Rattle.trace_types.specs.declared.event.Event.{Event};
ghost use Rattle.trace_types.specs.Times.{AreTimely};
ghost use Rattle.trace_types.specs.Events.{sends_of, time_at};
ghost use Rattle.clock_offsets.specs.inner.Places.{AreIndices};
ghost use Rattle.clock_offsets.specs.inner.Links.{AreNumbers};
ghost use Rattle.clock_offsets.specs.inner.Delays.{IsEventAt, HasNoSender, IsReceived};

use crate::message::Message;
use crate::message_places::MessagePlaces;
use event_table::RawEvents;

/// Subtracts the time of the event that sends from that of the one that receives.
fn find_delay(trace: &RawEvents<'_>, from: usize, to: usize) -> i64
    requires from { from < length trace.now.trace.events }
    requires to { to < length trace.now.trace.events }
    requires timely { AreTimely trace.now.trace.events }
    ensures { result ≡ pos (time_at trace.now.trace.events to)
        -ℤ pos (time_at trace.now.trace.events from) }
{
    let received = trace.time(to) as i64;
    let sent = trace.time(from) as i64;
    received - sent
}

/// Finds the message that the event at this index receives from another machine.
pub(crate) fn find_message(
    trace: &RawEvents<'_>,
    numbers: &[usize],
    senders: &MessagePlaces,
    at: usize,
) -> Option<Message>
    requires here { at < length trace.now.trace.events }
    requires numbered { AreNumbers trace.now.trace.events numbers.now }
    requires placed { AreIndices (sends_of trace.now.trace.events)
        (length trace.now.trace.events) senders.now }
    requires timely { AreTimely trace.now.trace.events }
    ensures { (r : Event) → IsEventAt trace.now.trace.events at r
        → MatchOption result (HasNoSender trace.now.trace.events r)
        (IsReceived trace.now.trace.events numbers.now at r) }
{
    let message = trace.recv(at)?;
    let place = senders.find(message)?;
    if numbers[place] == numbers[at] {
        return None;
    }
    Some(Message {
        from: numbers[place],
        to: numbers[at],
        delay: find_delay(trace, place, at),
    })
}
