ghost use Rattle.std.specs.Prelude.{◌≡◌, ◌++◌, codes, option_copied, OnOk};
ghost use Rattle.event_table.specs.LentEvents.{event_lent};
ghost use Rattle.event_text.specs.LineTexts.{event_text, message_member, quoted};
ghost use Rattle.event_text.specs.LineTexts.{name_text, place_text, rest_text};

use crate::quoting::{push_number, push_quoted};
use event_table::LentEvent;
use std::alloc::AllocError;

/// Appends a text that stands before a quoted one, and this one.
fn push_member(bytes: &mut Vec<u8>, before: &[u8], text: &[u8]) -> Result<(), AllocError>
    ensures { OnOk result (bytes.new.items ≡ bytes.old.items ++ before.now ++ quoted text.now) }
{
    bytes.extend_from_slice(before)?;
    push_quoted(bytes, text)
}

/// Appends the member that says which message is sent, if there is one.
fn push_send(bytes: &mut Vec<u8>, message: Option<&[u8]>) -> Result<(), AllocError>
    ensures { OnOk result (bytes.new.items
        ≡ bytes.old.items ++ message_member (codes "send") (option_copied message.entry)) }
{
    match message {
        Some(message) => push_member(bytes, b",\"send\":", message),
        None => Ok(()),
    }
}

/// Appends the member that says which message is received, if there is one.
fn push_receipt(bytes: &mut Vec<u8>, message: Option<&[u8]>) -> Result<(), AllocError>
    ensures { OnOk result (bytes.new.items
        ≡ bytes.old.items ++ message_member (codes "recv") (option_copied message.entry)) }
{
    match message {
        Some(message) => push_member(bytes, b",\"recv\":", message),
        None => Ok(()),
    }
}

/// Appends the beginning of the line of an event: its request and its machine. The members of its
/// task and name follow, and then the rest. The only error is an allocation failure.
pub fn push_place(bytes: &mut Vec<u8>, request: &[u8], machine: &[u8]) -> Result<(), AllocError>
    ensures { OnOk result (bytes.new.items ≡ bytes.old.items ++ place_text request.now machine.now) }
{
    bytes.extend_from_slice(b"{\"request\":")?;
    push_quoted(bytes, request)?;
    bytes.extend_from_slice(b",\"machine\":")?;
    push_quoted(bytes, machine)?;
    Ok(())
}

/// Appends the members of the line of an event that say its task and its name. The only error is an
/// allocation failure.
#[tactic(auto, unfolding(crate::specs::LineTexts::name_text))]
pub fn push_name(bytes: &mut Vec<u8>, task: &[u8], event: &[u8]) -> Result<(), AllocError>
    ensures { OnOk result (bytes.new.items ≡ bytes.old.items ++ name_text task.now event.now) }
{
    bytes.extend_from_slice(b",\"task\":")?;
    push_quoted(bytes, task)?;
    bytes.extend_from_slice(b",\"event\":")?;
    push_quoted(bytes, event)
}

/// Appends the rest of the line of an event, from its time on. The only error is an allocation
/// failure.
#[tactic(auto, unfolding(crate::specs::LineTexts::rest_text))]
pub fn push_rest(
    bytes: &mut Vec<u8>,
    time: u64,
    send: Option<&[u8]>,
    recv: Option<&[u8]>,
) -> Result<(), AllocError>
    ensures { OnOk result (bytes.new.items
        ≡ bytes.old.items ++ rest_text time (option_copied send.entry) (option_copied recv.entry)) }
{
    bytes.extend_from_slice(b",\"nanos\":")?;
    push_number(bytes, time)?;
    push_send(bytes, send)?;
    push_receipt(bytes, recv)?;
    bytes.extend_from_slice(b"}\n")
}

/// Appends the line of an event under this name of its task. The only error is an allocation
/// failure, after which the bytes may end in the middle of the line.
pub fn push_event(bytes: &mut Vec<u8>, event: &LentEvent<'_>, task: &[u8]) -> Result<(), AllocError>
    ensures { OnOk result (bytes.new.items
        ≡ bytes.old.items ++ event_text (record (event_lent event.now) { task = task.now })) }
{
    let request = event.request.as_str().as_bytes();
    let machine = event.machine.as_str().as_bytes();
    push_place(bytes, request, machine)?;
    push_name(bytes, task, event.event.as_str().as_bytes())?;
    push_rest(bytes, event.time, event.send, event.recv)
}
