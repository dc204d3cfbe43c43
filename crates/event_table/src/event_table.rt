ghost use Rattle.std.specs.Prelude.{◌≡◌, ◌↔◌, ◌-◌, ◌^◌, ◌<◌, ◌∷◌, [], ◌++◌, length, Some, slice_get};
ghost use Rattle.std.specs.Prelude.{IfOk, IsTrue, OnErr, OnOk, ℕ};
ghost use Rattle.event_table.specs.Numbers.{event_of, event_under};
ghost use Rattle.event_table.specs.inner.Tables.{AreWithin, IsPlace, IsTable};
ghost use Rattle.event_table.specs.Numbers.{events_under, message_under};
ghost use Rattle.event_table.specs.declared.event_numbers.EventNumbers.{EventNumbers};
ghost use Rattle.event_table.specs.inner.Growth.{AreFewMessages, AreFewTexts, MessagesGrowBy};
ghost use Rattle.event_table.specs.inner.Growth.{TextsGrowBy};

use crate::event_numbers::EventNumbers;
use crate::messages::{Messages, add_message};
use crate::{EventFields, TextHints, Texts};
use std::alloc::{AllocError, Global};
use std::marker::Model;

/// Events in order, as numbers beside tables of their texts and lists of their messages; seen as
/// their list.
#[derive(Drop)]
pub struct EventTable {
    pub(crate) texts: Texts,
    pub(crate) messages: Messages,
    pub(crate) events: Vec<EventNumbers>,
}

impl Model for EventTable {
    ghost use Rattle.std.specs.Prelude.{List};
    ghost use Rattle.trace_types.specs.declared.event.Event.{Event};
    ghost use Rattle.event_table.specs.Numbers.{events_under};
    ghost use Rattle.event_table.specs.inner.Tables.{IsTable};

    ghost Value = { List Event };

    ghost view = { λ t. events_under t.texts t.messages t.events.items };

    ghost invariant = { λ t. IsTable t.texts t.messages t.events.items };
}

/// Gives the numbers of an event; its texts that are new and its messages are appended.
fn numbers_of(
    alloc: Global,
    hints: &mut TextHints,
    texts: &mut Texts,
    messages: &mut Messages,
    line: u32,
    fields: &EventFields<'_>,
) -> Result<EventNumbers, AllocError>
    requires texts { AreFewTexts (2 ^ 32 - 2) texts.old }
    requires messages { AreFewMessages (2 ^ 32 - 2) messages.old }
    ensures texts { OnOk result (TextsGrowBy 1 texts.old texts.new) }
    ensures messages { OnOk result (MessagesGrowBy 1 messages.old messages.new) }
    ensures within { IfOk result (AreWithin texts.new messages.new) }
    ensures event { IfOk result (λ n. event_under texts.new messages.new n
        ≡ event_of line fields.now) }
{
    let request = texts
        .requests
        .find_or_add(alloc, &mut hints.requests, fields.request)?;
    let machine = texts
        .machines
        .find_or_add(alloc, &mut hints.machines, fields.machine)?;
    let task = texts
        .tasks
        .find_or_add(alloc, &mut hints.tasks, fields.task)?;
    let event = texts
        .names
        .find_or_add(alloc, &mut hints.names, fields.event)?;
    let send = add_message(&mut messages.sends, fields.send)?;
    let recv = add_message(&mut messages.receipts, fields.recv)?;
    Ok(EventNumbers {
        time: fields.time,
        line,
        request,
        machine,
        task,
        event,
        send,
        recv,
    })
}

/// Appends an event, its texts that are new, and its messages.
fn add_event(
    alloc: Global,
    hints: &mut TextHints,
    texts: &mut Texts,
    messages: &mut Messages,
    events: &mut Vec<EventNumbers>,
    line: u32,
    fields: &EventFields<'_>,
) -> Result<(), AllocError>
    requires table { IsTable texts.old messages.old events.old.items }
    requires few { length events.old.items < u32.MAX }
    ensures table { OnOk result (IsTable texts.new messages.new events.new.items) }
    ensures events { OnOk result (events_under texts.new messages.new events.new.items
        ≡ events_under texts.old messages.old events.old.items ++ event_of line fields.now ∷ []) }
{
    let numbers = numbers_of(alloc, hints, texts, messages, line, fields)?;
    Ok(events.push(numbers)?)
}

impl EventTable {
    /// Makes an empty table. Takes no memory.
    pub fn new(alloc: Global) -> EventTable
        ensures { result ≡ [] }
    {
        EventTable {
            texts: Texts::new(alloc),
            messages: Messages::new(alloc),
            events: Vec::new(alloc),
        }
    }

    /// Counts the events.
    pub fn len(&self) -> usize
        ensures { result ≡ length self.now }
    {
        self.events.len()
    }

    /// Tells whether there are no events.
    pub fn is_empty(&self) -> bool
        ensures { IsTrue result ↔ (length self.now ≡ 0) }
    {
        self.events.is_empty()
    }

    /// Gives the texts, the messages and the numbers. Takes no memory.
    pub(crate) fn into_parts(self) -> (Texts, Messages, Vec<EventNumbers>)
        ensures table { IsTable result.0 result.1 result.2.items }
        ensures events { events_under result.0 result.1 result.2.items ≡ self }
    {
        (self.texts, self.messages, self.events)
    }

    /// Appends the event of a line. The hints say where to look for its texts first; they may have
    /// served other tables before. The only error is out of memory, after which the table is empty.
    pub fn push(
        &mut self,
        alloc: Global,
        hints: &mut TextHints,
        line: u32,
        fields: &EventFields<'_>,
    ) -> Result<(), AllocError>
        requires { length self.old < u32.MAX }
        ensures ok { OnOk result (self.new ≡ self.old ++ event_of line fields.now ∷ []) }
        ensures error { OnErr result (self.new ≡ []) }
    {
        let texts = &mut self.texts;
        let messages = &mut self.messages;
        match add_event(
            alloc,
            hints,
            texts,
            messages,
            &mut self.events,
            line,
            fields,
        ) {
            Ok(()) => Ok(()),
            Err(error) => {
                *self = EventTable::new(alloc);
                Err(error)
            }
        }
    }
}
