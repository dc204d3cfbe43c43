ghost use Rattle.std.specs.Prelude.{◌≡◌};
ghost use Rattle.serde_json.specs.View.{view};
ghost use Rattle.event_lines.specs.Commands.{number_result, named_result};

use crate::object_members::{as_whole_number, member};
use crate::{Command, Why};
use serde_json::Value;

/// The greatest number of a command.
const GREATEST_NUMBER: u64 = 1_000_000;

/// Reads the number of a command, the value of this member.
fn read_number(value: &Value, name: &str) -> Result<u32, Why>
    ensures { result ≡ number_result name.now (view value.now) }
{
    match as_whole_number(member(value, name)?)? {
        Some(number) if number <= GREATEST_NUMBER => Ok(number as u32),
        _ => Err(Why::OutOfRange),
    }
}

/// Reads the command with this name, and its number from the object.
pub(crate) fn read_command(value: &Value, name: &str) -> Result<Command, Why>
    ensures { result ≡ named_result (view value.now) name.now }
{
    match name {
        "add" => Ok(Command::Add),
        "drop" => Ok(Command::Drop {
            day: read_number(value, "day")?,
        }),
        "keep" => Ok(Command::Keep {
            days: read_number(value, "days")?,
        }),
        "watch" => Ok(Command::Watch {
            every: read_number(value, "every")?,
        }),
        "grace" => Ok(Command::Grace {
            micros: read_number(value, "micros")?,
        }),
        "model" => Ok(Command::Model),
        "paths" => Ok(Command::Paths),
        "slack" => Ok(Command::Slack),
        "report" => Ok(Command::Report),
        "graph" => Ok(Command::Graph),
        "summarize" => Ok(Command::Summarize),
        _ => Err(Why::UnknownCommand),
    }
}
