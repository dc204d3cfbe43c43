ghost use Rattle.std.specs.Prelude.{◌≡◌, ◌++◌, ◌∷◌, codes, decimal, OnOk};
ghost use Rattle.std.specs.List.{flat_map};
ghost use Rattle.drill_input.specs.DrillInput.{line_of, text_member};
ghost use Rattle.drill_input.specs.inner.Messages.{message_members};

use crate::trace_line::{Message, TraceLine};
use itoa::Buffer;
use std::alloc::AllocError;

/// Appends a number in plain digits.
fn put_number(bytes: &mut Vec<u8>, number: u64) -> Result<(), AllocError>
    ensures { OnOk result (bytes.new.items ≡ bytes.old.items ++ decimal number) }
{
    let mut digits = Buffer::new();
    bytes.extend_from_slice(digits.format(number).as_bytes())
}

/// Appends a comma and a member whose value is a text.
fn put_member(bytes: &mut Vec<u8>, name: &str, value: &str) -> Result<(), AllocError>
    ensures { OnOk result (bytes.new.items ≡ bytes.old.items
        ++ 44 ∷ text_member name.now value.now) }
{
    bytes.extend_from_slice(b",\"")?;
    bytes.extend_from_slice(name.as_bytes())?;
    bytes.extend_from_slice(b"\":\"")?;
    bytes.extend_from_slice(value.as_bytes())?;
    bytes.extend_from_slice(b"\"")
}

/// Appends a comma and the member of a message, if there is one.
fn put_message(bytes: &mut Vec<u8>, message: Message) -> Result<(), AllocError>
    ensures { OnOk result (bytes.new.items ≡ bytes.old.items
        ++ flat_map (λ m. 44 ∷ m) (message_members message)) }
{
    match message {
        Message::Absent => Ok(()),
        Message::Sent(name) => put_member(bytes, "send", name),
        Message::Received(name) => put_member(bytes, "recv", name),
    }
}

/// Appends the line of an event of the trace with this index. The only error is an allocation
/// failure, after which the bytes may end in the middle of the line.
pub(crate) fn put_line(bytes: &mut Vec<u8>, index: u32, line: &TraceLine) -> Result<(), AllocError>
    ensures { OnOk result (bytes.new.items ≡ bytes.old.items ++ line_of index line.now) }
{
    bytes.extend_from_slice(b"{\"request\":\"r")?;
    put_number(bytes, u64::from(index))?;
    bytes.extend_from_slice(b"\"")?;
    put_member(bytes, "machine", line.machine)?;
    put_member(bytes, "task", line.task)?;
    put_member(bytes, "event", line.event)?;
    bytes.extend_from_slice(b",\"time\":")?;
    put_number(bytes, line.time)?;
    put_message(bytes, line.message)?;
    bytes.extend_from_slice(b"}\n")?;
    Ok(())
}
