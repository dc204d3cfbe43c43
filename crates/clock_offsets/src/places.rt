ghost use Rattle.std.specs.Prelude.{◌≡◌, ◌≢◌, ◌<◌, option_copied, IfOk, IfErr, None, length};
ghost use Rattle.std.specs.Prelude.{slice_index_or};
ghost use Rattle.clock_offsets.specs.declared.clock_fault.ClockFault.TheVariants.{Memory};
ghost use Rattle.clock_offsets.specs.inner.Places.{messages_at, repeat_at, AreIndices, IsRepeatAt};

use crate::ClockFault;
use crate::message_places::MessagePlaces;
use event_table::RawEvents;
use std::alloc::Global;

/// An end of a message: where it is sent, or where it is received.
#[derive(Clone, Copy)]
pub(crate) enum End {
    Sending,
    Receipt,
}

/// Reads the message of the event at an index at this end.
#[inline(always)]
fn read_message<'a>(trace: &RawEvents<'a>, at: usize, end: End) -> Option<&'a [u8]>
    requires { at < length trace.now.trace.events }
    ensures { option_copied result
        ≡ slice_index_or (messages_at end trace.now.trace.events) at None }
{
    match end {
        End::Sending => trace.send(at),
        End::Receipt => trace.recv(at),
    }
}

/// Makes the fault of a message that occurs twice at this end.
fn repeat(end: End, line: u32) -> ClockFault
    ensures { result ≡ repeat_at end line }
{
    match end {
        End::Sending => ClockFault::RepeatedSend { line },
        End::Receipt => ClockFault::RepeatedRecv { line },
    }
}

/// Counts the events that have a message at this end.
fn count_messages(trace: &RawEvents<'_>, end: End) -> usize {
    let mut count = 0;
    for at in 0..trace.len() {
        if read_message(trace, at, end).is_some() {
            count += 1;
        }
    }
    count
}

/// Maps each message to the index of the event that has it at this end. The error is the first line
/// that repeats one, or out of memory.
pub(crate) fn index_messages<'a>(
    alloc: Global,
    trace: &RawEvents<'a>,
    end: End,
) -> Result<MessagePlaces<'a>, ClockFault>
    ensures ok { IfOk result (λ m. AreIndices (messages_at end trace.now.trace.events)
        (length trace.now.trace.events) m) }
    ensures err { IfErr result (λ fault. fault ≢ Memory
        → IsRepeatAt trace.now.trace.events end fault) }
{
    let mut places = MessagePlaces::new(alloc, count_messages(trace, end))?;
    for at in 0..trace.len() {
        let Some(message) = read_message(trace, at, end) else {
            continue;
        };
        let first = places.find_or_add(message, at)?;
        if first != at {
            return Err(repeat(end, trace.line(at)));
        }
    }
    Ok(places)
}
