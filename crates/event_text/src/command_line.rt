ghost use Rattle.std.specs.Prelude.{◌≡◌, ◌++◌, OnOk};
ghost use Rattle.event_text.specs.LineTexts.{command_text, numbered_command, plain_command};

use crate::quoting::push_number;
use event_lines::Command;
use std::alloc::AllocError;

/// Appends the line of a command without a number.
fn push_plain(bytes: &mut Vec<u8>, name: &[u8]) -> Result<(), AllocError>
    ensures { OnOk result (bytes.new.items ≡ bytes.old.items ++ plain_command name.now) }
{
    bytes.extend_from_slice(b"{\"do\":\"")?;
    bytes.extend_from_slice(name)?;
    bytes.extend_from_slice(b"\"}\n")
}

/// Appends the line of a command with a number, the value of this member.
fn push_numbered(
    bytes: &mut Vec<u8>,
    name: &[u8],
    member: &[u8],
    number: u32,
) -> Result<(), AllocError>
    ensures { OnOk result (bytes.new.items
        ≡ bytes.old.items ++ numbered_command name.now member.now number) }
{
    bytes.extend_from_slice(b"{\"do\":\"")?;
    bytes.extend_from_slice(name)?;
    bytes.extend_from_slice(b"\",\"")?;
    bytes.extend_from_slice(member)?;
    bytes.extend_from_slice(b"\":")?;
    push_number(bytes, u64::from(number))?;
    bytes.extend_from_slice(b"}\n")
}

/// Appends the control line of a command. The only error is an allocation failure, after which the
/// bytes may end in the middle of the line.
pub fn push_command(bytes: &mut Vec<u8>, command: Command) -> Result<(), AllocError>
    ensures { OnOk result (bytes.new.items ≡ bytes.old.items ++ command_text command) }
{
    match command {
        Command::Add => push_plain(bytes, b"add"),
        Command::Drop { day } => push_numbered(bytes, b"drop", b"day", day),
        Command::Keep { days } => push_numbered(bytes, b"keep", b"days", days),
        Command::Watch { every } => push_numbered(bytes, b"watch", b"every", every),
        Command::Grace { micros } => push_numbered(bytes, b"grace", b"micros", micros),
        Command::Model => push_plain(bytes, b"model"),
        Command::Paths => push_plain(bytes, b"paths"),
        Command::Slack => push_plain(bytes, b"slack"),
        Command::Report => push_plain(bytes, b"report"),
        Command::Graph => push_plain(bytes, b"graph"),
        Command::Summarize => push_plain(bytes, b"summarize"),
    }
}
