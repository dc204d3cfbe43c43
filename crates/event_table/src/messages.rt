ghost use Rattle.std.specs.Prelude.{◌≡◌, ◌+◌, ◌^◌, ◌<◌, ◌++◌, [], length, option_map};
ghost use Rattle.std.specs.Prelude.{IfOk, OnErr, OnOk};
ghost use Rattle.event_table.specs.Numbers.{message_under};
ghost use Rattle.event_table.specs.inner.Tables.{IsPlace};
ghost use Rattle.event_table.specs.Texts.{MessageLists};
ghost use Rattle.event_table.specs.inner.Growth.{GrowsBy};

use crate::MessageList;
use crate::event_numbers::NO_MESSAGE;
use std::alloc::{AllocError, Global};
use std::marker::Model;

/// The messages of events: those that were sent, and those that were received.
#[derive(Drop)]
pub struct Messages {
    pub(crate) sends: MessageList,
    pub(crate) receipts: MessageList,
}

impl Model for Messages {
    ghost use Rattle.event_table.specs.Texts.{MessageLists};

    ghost Value = { MessageLists };

    ghost view = { λ m. record { sends = m.sends; receipts = m.receipts } };
}

impl Messages {
    /// Makes empty lists. Takes no memory.
    pub(crate) fn new(alloc: Global) -> Messages
        ensures { result ≡ record { sends = []; receipts = [] } }
    {
        Messages {
            sends: MessageList::new(alloc),
            receipts: MessageList::new(alloc),
        }
    }

    /// Lends the messages that were sent.
    pub(crate) fn sends(&self) -> &MessageList
        ensures { result.now ≡ self.now.sends }
    {
        &self.sends
    }

    /// Lends the messages that were received.
    pub(crate) fn receipts(&self) -> &MessageList
        ensures { result.now ≡ self.now.receipts }
    {
        &self.receipts
    }
}

/// Appends a message, if there is one, and gives its place, or `NO_MESSAGE`.
pub(crate) fn add_message(
    messages: &mut MessageList,
    message: Option<&str>,
) -> Result<u32, AllocError>
    requires { length messages.old + 1 < 2 ^ 32 }
    ensures grown { GrowsBy 1 messages.old messages.new }
    ensures within { IfOk result (IsPlace (length messages.new)) }
    ensures message { IfOk result (λ place. message_under messages.new place
        ≡ option_map (λ s. s.now) message.entry) }
{
    match message {
        Some(message) => messages.push(message),
        None => Ok(NO_MESSAGE),
    }
}
