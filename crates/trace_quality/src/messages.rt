ghost use Rattle.std.specs.Prelude.{◌≡◌, ◌+◌, ◌<◌, ◌^◌, ◌||◌, ℕ, IfOk, List, OnOk, is_some, length};
ghost use Rattle.std.specs.Option.{option_copied};
ghost use Rattle.trace_types.specs.Events.{receipts_of, sends_of};
ghost use Rattle.trace_quality.specs.Facts.{AreMessages};
ghost use Rattle.trace_quality.specs.Measures.{one_if};
ghost use Rattle.trace_quality.specs.Messages.{count_alone, count_messages, is_among, is_message};
ghost use Rattle.trace_quality.specs.inner.MessageSets.{AreAmong, has_message, is_missing};

use event_table::RawEvents;
use std::alloc::{AllocError, Global};
use std::collections::HashSet;

/// How many messages are sent and received, and how many of them have one end alone.
#[derive(Clone, Copy, Debug, PartialEq, Eq)]
pub struct MessageCounts {
    /// How many events send a message.
    pub sent: u32,
    /// How many of these messages no event of the trace receives.
    pub lost: u32,
    /// How many events receive a message.
    pub received: u32,
    /// How many of these messages no event of the trace sends.
    pub unsent: u32,
}

/// How many messages have one end in a trace, and how many of them that end alone.
#[derive(Clone, Copy, Debug)]
struct EndCounts {
    all: u32,
    alone: u32,
}

/// Puts the message of an event among messages, if it has one.
fn put_message<'a>(
    messages: &mut HashSet<&'a [u8]>,
    message: Option<&'a [u8]>,
) -> Result<(), AllocError>
    ensures { OnOk result ((text : List ℕ) → has_message messages.new text
        ≡ (has_message messages.old text || is_message text (option_copied message.entry))) }
{
    if let Some(message) = message {
        messages.insert(message)?;
    }
    Ok(())
}

/// Gathers the messages that events receive.
fn gather_receipts<'a>(alloc: Global, raw: &RawEvents<'a>) -> Result<HashSet<&'a [u8]>, AllocError>
    ensures { IfOk result (λ messages. AreAmong messages (receipts_of raw.now.trace.events)) }
{
    let mut messages = HashSet::new(alloc);
    'events: for at in 0..raw.len() {
        put_message(&mut messages, raw.recv(at))?;
    }
    Ok(messages)
}

/// Gathers the messages that events send.
fn gather_sends<'a>(alloc: Global, raw: &RawEvents<'a>) -> Result<HashSet<&'a [u8]>, AllocError>
    ensures { IfOk result (λ messages. AreAmong messages (sends_of raw.now.trace.events)) }
{
    let mut messages = HashSet::new(alloc);
    'events: for at in 0..raw.len() {
        put_message(&mut messages, raw.send(at))?;
    }
    Ok(messages)
}

/// Counts the message of an event, if it has one.
fn count_end(counts: EndCounts, others: &HashSet<&[u8]>, message: Option<&[u8]>) -> EndCounts
    requires all { counts.all + 1 < 2 ^ 32 }
    requires alone { counts.alone + 1 < 2 ^ 32 }
    ensures all { result.all ≡ counts.all + one_if (is_some (option_copied message.entry)) }
    ensures alone { result.alone
        ≡ counts.alone + one_if (is_missing others.now (option_copied message.entry)) }
{
    match message {
        None => counts,
        Some(message) => {
            if others.contains(&message) {
                EndCounts {
                    all: counts.all + 1,
                    alone: counts.alone,
                }
            } else {
                EndCounts {
                    all: counts.all + 1,
                    alone: counts.alone + 1,
                }
            }
        }
    }
}

/// Counts the messages that are sent, and those of them that are not received.
fn count_sent(raw: &RawEvents<'_>, receipts: &HashSet<&[u8]>) -> EndCounts
    requires few { length raw.now.trace.events < 2 ^ 32 }
    requires receipts { AreAmong receipts.now (receipts_of raw.now.trace.events) }
    ensures all { result.all ≡ count_messages (sends_of raw.now.trace.events) }
    ensures alone { result.alone
        ≡ count_alone (receipts_of raw.now.trace.events) (sends_of raw.now.trace.events) }
{
    let mut counts = EndCounts { all: 0, alone: 0 };
    'events: for at in 0..raw.len() {
        counts = count_end(counts, receipts, raw.send(at));
    }
    counts
}

/// Counts the messages that are received, and those of them that are not sent.
fn count_received(raw: &RawEvents<'_>, sends: &HashSet<&[u8]>) -> EndCounts
    requires few { length raw.now.trace.events < 2 ^ 32 }
    requires sends { AreAmong sends.now (sends_of raw.now.trace.events) }
    ensures all { result.all ≡ count_messages (receipts_of raw.now.trace.events) }
    ensures alone { result.alone
        ≡ count_alone (sends_of raw.now.trace.events) (receipts_of raw.now.trace.events) }
{
    let mut counts = EndCounts { all: 0, alone: 0 };
    'events: for at in 0..raw.len() {
        counts = count_end(counts, sends, raw.recv(at));
    }
    counts
}

/// Counts the messages of a trace. The only error is out of memory.
pub(crate) fn count_messages(
    alloc: Global,
    raw: &RawEvents<'_>,
) -> Result<MessageCounts, AllocError>
    requires { length raw.now.trace.events < 2 ^ 32 }
    ensures { IfOk result (AreMessages raw.now.trace.events) }
{
    let receipts = gather_receipts(alloc, raw)?;
    let sent = count_sent(raw, &receipts);
    let sends = gather_sends(alloc, raw)?;
    let received = count_received(raw, &sends);
    Ok(MessageCounts {
        sent: sent.all,
        lost: sent.alone,
        received: received.all,
        unsent: received.alone,
    })
}
